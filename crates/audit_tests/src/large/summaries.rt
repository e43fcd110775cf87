//! The summaries of generated logs, twice the same.
use crate::checks::answers::{Answer, RowFault, answer_of};
use audit_base::faults::NoMemory;
use log_source::quiet_shelf::QuietShelf;
use std::alloc::Global;
use std::test::Fail;

/// What `generate` answers.
fn summary(alloc: Global, line: &str) -> Result<Answer, NoMemory> {
    let mut shelf = QuietShelf::new(Vec::new(alloc), Vec::new(alloc), 1);
    answer_of(alloc, line, &mut shelf)
}

/// Checks that `generate` writes a summary with this start, twice the same.
fn check_twice(alloc: Global, line: &str, start: &[u8]) -> Result<(), RowFault> {
    let once = summary(alloc, line)?;
    once.check_start(alloc, line, start)?;
    summary(alloc, line)?.check(alloc, line, 2, 0, once.out.bytes())
}

#[test]
fn the_summary_of_two_thousand_records(rt: HostRuntime) -> Result<(), Fail> {
    Ok(check_twice(rt.alloc(), "generate 7 2000", b"generated,7,2000\n")?)
}

#[test]
fn the_summary_of_two_hundred_thousand_records(rt: HostRuntime) -> Result<(), Fail> {
    let summary = "generated,7,200000
uniform,79064,2018926,100
maximum,157391,4016124,99.43000001
continuous,136246,3493096
";
    Ok(check_twice(rt.alloc(), "generate 7 200000", summary.as_bytes())?)
}
