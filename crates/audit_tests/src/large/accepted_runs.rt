//! Audits of large generated logs with the trades that are expected of them.
use crate::checks::answers::{Answer, RowFault, answer_into, answer_of};
use audit_base::faults::NoMemory;
use csv_logs::writers::write_orders;
use log_maker::generator::make_orders;
use log_source::memory_sink::MemorySink;
use log_source::quiet_shelf::QuietShelf;
use std::alloc::Global;
use std::test::Fail;

/// The order log of 400,000 generated records.
fn generated_log(alloc: Global) -> Result<Vec<u8>, NoMemory> {
    let entries = make_orders(alloc, 7, 400_000)?;
    let mut log = Vec::new(alloc);
    write_orders(alloc, &entries, &mut log)?;
    Ok(log)
}

/// The trades that are expected of the generated records.
fn expected(alloc: Global, line: &str) -> Result<Answer, NoMemory> {
    let mut shelf = QuietShelf::new(generated_log(alloc)?, Vec::new(alloc), 65_536);
    let out = MemorySink::new(alloc, 33_554_432, 65_536, Vec::new(alloc))?;
    answer_into(alloc, line, &mut shelf, out)
}

/// What an audit of the generated records with these trades answers.
fn audited(alloc: Global, line: &str, trades: &[u8]) -> Result<Answer, NoMemory> {
    let trades = Vec::from_slice(alloc, trades)?;
    answer_of(
        alloc,
        line,
        &mut QuietShelf::new(generated_log(alloc)?, trades, 65_536),
    )
}

/// Checks that an audit accepts the trades that `expect` writes of the generated records.
fn check_accepted(alloc: Global, expect: &str, audit: &str) -> Result<(), RowFault> {
    let trades = expected(alloc, expect)?;
    trades.check_start(alloc, expect, b"trade,time,symbol")?;
    audited(alloc, audit, trades.out.bytes())?.check_start(alloc, audit, b"accepted,")
}

#[test]
fn the_uniform_trades_of_a_large_log_are_accepted(rt: HostRuntime) -> Result<(), Fail> {
    Ok(check_accepted(
        rt.alloc(),
        "expect uniform GEN orders",
        "audit uniform GEN orders trades",
    )?)
}

#[test]
fn the_maximum_trades_of_a_large_log_are_accepted(rt: HostRuntime) -> Result<(), Fail> {
    Ok(check_accepted(
        rt.alloc(),
        "expect maximum GEN orders",
        "audit maximum GEN orders trades",
    )?)
}

#[test]
fn the_continuous_trades_of_a_large_log_are_accepted(rt: HostRuntime) -> Result<(), Fail> {
    Ok(check_accepted(
        rt.alloc(),
        "expect continuous GEN orders",
        "audit continuous GEN orders trades",
    )?)
}
