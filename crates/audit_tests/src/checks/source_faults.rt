//! Rows whose source fails.
ghost use Rattle.std.specs.Prelude.{◌≤◌};

use crate::checks::answers::{RowFault, answer_of};
use crate::checks::inputs::log_of;
use crate::checks::rows::{Row, check_answer, memory_shelf};
use audit_base::faults::NoMemory;
use log_source::memory_shelf::MemoryShelf;
use std::alloc::Global;

/// More calls than any row makes.
const CALLS: u32 = 40;

/// A row with how many calls it makes: of the order log, and in all. A log takes a start, a
/// read for each of its pieces, and a read that is answered by no bytes. A certificate is there
/// under the name `certificate`.
#[derive(Clone, Copy)]
pub(crate) struct SourceRow {
    pub(crate) row: Row,
    pub(crate) certificate: &'static [&'static str],
    pub(crate) order_calls: u32,
    pub(crate) calls: u32,
}

/// The shelf of a row whose call of this number fails.
fn failing_shelf(
    alloc: Global,
    row: &SourceRow,
    piece: usize,
    fails: u32,
) -> Result<MemoryShelf, NoMemory>
    requires { 1 ≤ piece }
{
    let fails = Vec::from_slice(alloc, &[fails])?;
    let mut shelf = memory_shelf(alloc, &row.row, piece, fails)?;
    shelf.put(
        String::from_str(alloc, "certificate")?,
        log_of(alloc, row.certificate)?,
    )?;
    Ok(shelf)
}

/// Checks a row whose call of this number fails: the log at which it fails is named, and a call
/// that is not made changes nothing.
fn check_call(alloc: Global, row: &SourceRow, piece: usize, fails: u32) -> Result<(), RowFault>
    requires { 1 ≤ piece }
{
    let mut shelf = failing_shelf(alloc, row, piece, fails)?;
    let answered = answer_of(alloc, row.row.words, &mut shelf)?;
    let number = fails as usize;
    if fails <= row.order_calls {
        return answered.check(alloc, row.row.name, number, 4, b"readfault,orders\n");
    }
    if fails <= row.calls {
        return answered.check(alloc, row.row.name, number, 4, b"readfault,trades\n");
    }
    check_answer(alloc, &row.row, number, &answered)
}

/// Checks a row with each of its calls failing once.
fn check_each_call(alloc: Global, row: &SourceRow, piece: usize) -> Result<(), RowFault>
    requires { 1 ≤ piece }
{
    for fails in 1..=CALLS {
        check_call(alloc, row, piece, fails)?;
    }
    Ok(())
}

/// Checks each of these rows, over logs that come at most `piece` bytes at a time, with each of
/// its calls failing once.
pub(crate) fn check_source_faults(
    alloc: Global,
    rows: &[SourceRow],
    piece: usize,
) -> Result<(), RowFault>
    requires { 1 ≤ piece }
{
    for row in rows {
        check_each_call(alloc, row, piece)?;
    }
    Ok(())
}
