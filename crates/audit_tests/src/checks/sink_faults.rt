//! Rows whose sink fails.
use crate::checks::answers::{Answer, RowFault, answer_into};
use crate::checks::rows::{Row, check_answer, memory_shelf};
use audit_base::faults::NoMemory;
use log_source::memory_sink::MemorySink;
use std::alloc::Global;

/// The most bytes that one write takes.
const MOST: usize = 10;

/// More writes than the text of any row takes.
const WRITES: u32 = 50;

/// What a row answers into a sink with this room whose writes of these numbers fail.
fn answer_in_writes(
    alloc: Global,
    row: &Row,
    room: usize,
    fails: &[u32],
) -> Result<Answer, NoMemory> {
    let mut shelf = memory_shelf(alloc, row, 65_536, Vec::new(alloc))?;
    let out = MemorySink::new(alloc, room, MOST, Vec::from_slice(alloc, fails)?)?;
    answer_into(alloc, row.words, &mut shelf, out)
}

/// Checks that a run wrote this many bytes of the row's text and answered that it could not
/// write all of them, where the text has more, and else the row's answer.
fn check_written(
    alloc: Global,
    row: &Row,
    answered: &Answer,
    written: usize,
) -> Result<(), RowFault> {
    let text = row.report.as_bytes();
    if written < text.len() {
        return answered.check(alloc, row.name, written, 5, &text[..written]);
    }
    check_answer(alloc, row, written, answered)
}

/// Checks a row with each of its writes failing once.
fn check_each_write(alloc: Global, row: &Row) -> Result<(), RowFault> {
    for writes in 0..WRITES {
        let answered = answer_in_writes(alloc, row, row.report.len(), &[writes + 1])?;
        check_written(alloc, row, &answered, writes as usize * MOST)?;
    }
    Ok(())
}

/// Checks a row with room for every count of bytes up to those of its text.
fn check_each_room(alloc: Global, row: &Row) -> Result<(), RowFault> {
    for room in 0..=row.report.len() {
        let answered = answer_in_writes(alloc, row, room, &[])?;
        check_written(alloc, row, &answered, room)?;
    }
    Ok(())
}

/// Checks each of these rows with each of its writes failing once, and with too little room.
pub(crate) fn check_sink_faults(alloc: Global, rows: &[Row]) -> Result<(), RowFault> {
    for row in rows {
        check_each_write(alloc, row)?;
        check_each_room(alloc, row)?;
    }
    Ok(())
}
