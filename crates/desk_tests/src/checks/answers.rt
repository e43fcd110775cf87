//! What a command answers over a shelf, and how that differs from what is wanted.
use crate::checks::inputs::words_of;
use audit_base::faults::NoMemory;
use audit_report::statuses::Status;
use desk_run::running::run_desk;
use log_source::memory_sink::MemorySink;
use log_source::shelf::Shelf;
use std::alloc::Global;

/// More bytes than the text of any row has.
const ROOM: usize = 16_384;

/// What a command answered, and the sink that it wrote to.
#[derive(Drop)]
pub(crate) struct Answer {
    pub(crate) status: Status,
    pub(crate) out: MemorySink,
}

/// Runs the command of this line over a shelf, into a sink.
pub(crate) fn answer_into<F: Shelf>(
    alloc: Global,
    line: &str,
    shelf: &mut F,
    mut out: MemorySink,
) -> Result<Answer, NoMemory> {
    let words = words_of(alloc, line)?;
    let status = run_desk(alloc, &words, shelf, &mut out);
    Ok(Answer { status, out })
}

/// Runs the command of this line over a shelf, into a sink with room for the text of any row.
pub(crate) fn answer_of<F: Shelf>(
    alloc: Global,
    line: &str,
    shelf: &mut F,
) -> Result<Answer, NoMemory> {
    let out = MemorySink::new(alloc, ROOM, ROOM, Vec::new(alloc))?;
    answer_into(alloc, line, shelf, out)
}

/// Why a row does not hold.
#[derive(Debug, Drop)]
pub(crate) enum RowFault {
    /// In the row of this name the run of this number answered this status and wrote this text.
    Differs(String, usize, u8, String),
    /// There was not enough memory to try the row.
    Memory,
}

impl From<NoMemory> for RowFault {
    fn from(_fault: NoMemory) -> RowFault {
        RowFault::Memory
    }
}

/// These bytes as a text.
fn text_of(alloc: Global, bytes: &[u8]) -> Result<String, NoMemory> {
    match std::str::from_utf8(bytes) {
        Ok(text) => Ok(String::from_str(alloc, text)?),
        Err(_) => Ok(String::from_str(alloc, "bytes that are no text")?),
    }
}

impl Answer {
    /// Whether this status was answered, and this text written.
    fn is(&self, status: u8, text: &[u8]) -> bool {
        self.status.number() == status && self.out.bytes() == text
    }

    /// What the run of this number of a row differs in.
    fn difference(&self, alloc: Global, row: &str, number: usize) -> Result<RowFault, NoMemory> {
        let row = String::from_str(alloc, row)?;
        let written = text_of(alloc, self.out.bytes())?;
        Ok(RowFault::Differs(row, number, self.status.number(), written))
    }

    /// Checks that the run of this number of a row answered this status and wrote this text.
    pub(crate) fn check(
        &self,
        alloc: Global,
        row: &str,
        number: usize,
        status: u8,
        text: &[u8],
    ) -> Result<(), RowFault> {
        if self.is(status, text) {
            return Ok(());
        }
        Err(self.difference(alloc, row, number)?)
    }
}
