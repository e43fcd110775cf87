//! A row, its logs and what it wants.
ghost use Rattle.std.specs.Prelude.{◌≤◌};

use crate::checks::answers::{Answer, RowFault};
use crate::checks::inputs::log_of;
use audit_base::faults::NoMemory;
use log_source::memory_shelf::MemoryShelf;
use std::alloc::Global;

/// A row: its name, the words of the command line, the order log and the trade log as texts
/// with `|` in the place of SOH, and the status and the text that are wanted.
#[derive(Clone, Copy)]
pub(crate) struct Row {
    pub(crate) name: &'static str,
    pub(crate) words: &'static str,
    pub(crate) orders: &'static [&'static str],
    pub(crate) trades: &'static [&'static str],
    pub(crate) status: u8,
    pub(crate) report: &'static str,
}

/// A shelf of the logs of a row, named `orders` and `trades`, whose calls of these numbers fail.
pub(crate) fn memory_shelf(
    alloc: Global,
    row: &Row,
    piece: usize,
    fails: Vec<u32>,
) -> Result<MemoryShelf, NoMemory>
    requires { 1 ≤ piece }
{
    let mut shelf = MemoryShelf::new(alloc, piece, fails);
    shelf.put(
        String::from_str(alloc, "orders")?,
        log_of(alloc, row.orders)?,
    )?;
    shelf.put(
        String::from_str(alloc, "trades")?,
        log_of(alloc, row.trades)?,
    )?;
    Ok(shelf)
}

/// Checks that the call of this number of a row is as the row says.
pub(crate) fn check_answer(
    alloc: Global,
    row: &Row,
    number: usize,
    answered: &Answer,
) -> Result<(), RowFault> {
    answered.check(alloc, row.name, number, row.status, row.report.as_bytes())
}
