//! Rows whose shelf or sink fails.
use crate::checks::answers::{Answer, RowFault, answer_into, answer_of};
use crate::checks::rows::{Row, check_answer, memory_shelf};
use audit_base::faults::NoMemory;
use log_source::memory_sink::MemorySink;
use std::alloc::Global;

/// More calls of the shelf than any row makes.
const CALLS: u32 = 40;

/// The bytes that come at once where a shelf fails.
const PIECE: usize = 30;

/// The most bytes that one write takes.
const MOST: usize = 10;

/// More writes than the text of any row takes.
const WRITES: u32 = 50;

/// A row with how many calls it makes: of the order log, and in all. A log takes a start, a
/// read for each of its pieces, and a read that is answered by no bytes.
#[derive(Clone, Copy)]
pub(crate) struct ShelfRow {
    pub(crate) row: Row,
    pub(crate) order_calls: u32,
    pub(crate) calls: u32,
}

/// What a row answers over a shelf whose call of this number fails.
fn answer_in_calls(alloc: Global, row: &Row, fails: u32) -> Result<Answer, NoMemory> {
    let failing = Vec::from_slice(alloc, &[fails])?;
    let mut shelf = memory_shelf(alloc, row, PIECE, failing)?;
    answer_of(alloc, row.words, &mut shelf)
}

/// Checks a row whose call of this number fails: the log at which it fails is named, and a call
/// that is not made changes nothing.
fn check_call(alloc: Global, row: &ShelfRow, fails: u32) -> Result<(), RowFault> {
    let answered = answer_in_calls(alloc, &row.row, fails)?;
    let number = fails as usize;
    if fails <= row.order_calls {
        return answered.check(alloc, row.row.name, number, 4, b"readfault,orders\n");
    }
    if fails <= row.calls {
        return answered.check(alloc, row.row.name, number, 4, b"readfault,trades\n");
    }
    check_answer(alloc, &row.row, number, &answered)
}

/// Checks each of these rows with each of its calls of the shelf failing once.
pub(crate) fn check_shelf_faults(alloc: Global, rows: &[ShelfRow]) -> Result<(), RowFault> {
    for row in rows {
        for fails in 1..=CALLS {
            check_call(alloc, row, fails)?;
        }
    }
    Ok(())
}

/// What a row answers into a sink with this room whose writes of these numbers fail.
pub(crate) fn answer_in_writes(
    alloc: Global,
    row: &Row,
    room: usize,
    fails: &[u32],
) -> Result<Answer, NoMemory> {
    let mut shelf = memory_shelf(alloc, row, 65_536, Vec::new(alloc))?;
    let out = MemorySink::new(alloc, room, MOST, Vec::from_slice(alloc, fails)?)?;
    answer_into(alloc, row.words, &mut shelf, out)
}

/// Checks that a call wrote this many bytes of the row's text and answered that it could not
/// write all of them, where the text has more, and else the row's answer.
pub(crate) fn check_written(
    alloc: Global,
    row: &Row,
    answered: &Answer,
    written: usize,
) -> Result<(), RowFault> {
    let text = row.report.as_bytes();
    if written < text.len() {
        return answered.check(alloc, row.name, written, 5, &text[..written]);
    }
    check_answer(alloc, row, written, answered)
}

/// Checks a row with each of its writes failing once.
fn check_each_write(alloc: Global, row: &Row) -> Result<(), RowFault> {
    for writes in 0..WRITES {
        let answered = answer_in_writes(alloc, row, row.report.len(), &[writes + 1])?;
        check_written(alloc, row, &answered, writes as usize * MOST)?;
    }
    Ok(())
}

/// Checks a row with room for every count of bytes up to those of its text.
fn check_each_room(alloc: Global, row: &Row) -> Result<(), RowFault> {
    for room in 0..=row.report.len() {
        let answered = answer_in_writes(alloc, row, room, &[])?;
        check_written(alloc, row, &answered, room)?;
    }
    Ok(())
}

/// Checks each of these rows with too little room, and with enough.
pub(crate) fn check_rooms(alloc: Global, rows: &[Row]) -> Result<(), RowFault> {
    for row in rows {
        check_each_room(alloc, row)?;
    }
    Ok(())
}

/// Checks each of these rows with each of its writes failing once, and with too little room.
pub(crate) fn check_sink_faults(alloc: Global, rows: &[Row]) -> Result<(), RowFault> {
    for row in rows {
        check_each_write(alloc, row)?;
        check_each_room(alloc, row)?;
    }
    Ok(())
}
