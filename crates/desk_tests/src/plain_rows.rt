//! Days that `plain` reads, of which a call or a write fails.
ghost use Rattle.std.specs.Prelude.{◌≤◌};

use crate::checks::answers::{RowFault, answer_of};
use crate::checks::faults::{answer_in_writes, check_sink_faults, check_written};
use crate::checks::rows::Row;
use audit_base::faults::NoMemory;
use log_source::memory_shelf::MemoryShelf;
use std::alloc::Global;
use std::test::Fail;

/// A day of one message, in 27 bytes.
const ONE_MESSAGE: Row = Row {
    name: "a day of one message",
    words: "plain orders",
    orders: &["8=FIX.4.2|9=5|35=0|10=161|\n"],
    trades: &[],
    status: 0,
    report: "8=FIX.4.4\x019=5\x0135=0\x0110=163\x01\n",
};

/// A day with a bad message.
const BAD_MESSAGE: Row = Row {
    name: "a day with a bad message",
    words: "plain orders --soh ^A --lines",
    orders: &["a 8=FIX.4.2^A9=5^A35=0^A10=161^A\nb 8=FIX.4.2^A9=5^A35=0^A10=160^A\n"],
    trades: &[],
    status: 3,
    report: "8=FIX.4.4\x019=5\x0135=0\x0110=163\x01\nmalformed,orders,2,35,checksum\n",
};

/// What is written of a day of one message that comes in one piece where the call of this number
/// fails: its start, the read of the piece, or that of its end, at which the message is written.
const CALLS: [(u32, &[u8]); 3] = [
    (1, b"readfault,orders\n"),
    (2, b"readfault,orders\n"),
    (
        3,
        b"8=FIX.4.4\x019=5\x0135=0\x0110=163\x01\nreadfault,orders\n",
    ),
];

/// How many bytes are written of the day with a bad message where the write of this number fails:
/// each takes at most ten bytes, first of the message, and then of the line.
const WRITES: [(u32, usize); 7] = [(1, 0), (2, 10), (3, 20), (4, 27), (5, 37), (6, 47), (7, 57)];

/// A shelf of this day, named `day`, of which a piece comes at a time, and whose calls of these
/// numbers fail.
fn shelf_of(alloc: Global, day: &[u8], piece: usize, fails: &[u32]) -> Result<MemoryShelf, NoMemory>
    requires { 1 ≤ piece }
{
    let mut shelf = MemoryShelf::new(alloc, piece, Vec::from_slice(alloc, fails)?);
    shelf.put(
        String::from_str(alloc, "day")?,
        Vec::from_slice(alloc, day)?,
    )?;
    Ok(shelf)
}

/// Checks a day of one message with each of its calls of the shelf failing once.
fn check_calls(alloc: Global) -> Result<(), RowFault> {
    let day = b"8=FIX.4.2\x019=5\x0135=0\x0110=161\x01\n";
    for &(fails, text) in &CALLS {
        let mut shelf = shelf_of(alloc, day, 64, &[fails])?;
        let answered = answer_of(alloc, "plain day", &mut shelf)?;
        answered.check(alloc, "a call fails", fails as usize, 4, text)?;
    }
    Ok(())
}

/// Checks a day with a bad message with each of its writes failing once.
fn check_writes(alloc: Global) -> Result<(), RowFault> {
    for &(fails, written) in &WRITES {
        let answered = answer_in_writes(alloc, &BAD_MESSAGE, BAD_MESSAGE.report.len(), &[fails])?;
        check_written(alloc, &BAD_MESSAGE, &answered, written)?;
    }
    Ok(())
}

#[test]
fn each_call_of_the_shelf_fails(rt: HostRuntime) -> Result<(), Fail> {
    Ok(check_calls(rt.alloc())?)
}

#[test]
fn each_write_fails(rt: HostRuntime) -> Result<(), Fail> {
    check_sink_faults(rt.alloc(), &[ONE_MESSAGE])?;
    Ok(check_writes(rt.alloc())?)
}
