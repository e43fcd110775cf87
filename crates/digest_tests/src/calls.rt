//! Calls of the programs over whatever opens a database, and what they say. No function here knows
//! what a database is made of.
use crate::logs::{shelf_of_logs, split_words};
use audit_base::faults::NoMemory;
use case_keeper::casebook::Casebook;
use case_keeper::keeper::Keeper;
use case_run::running::run_case;
use case_run::statuses::CaseStatus;
use desk_filing::opener::DigestOpener;
use desk_filing::running::run_filing;
use log_source::memory_sink::MemorySink;
use std::alloc::Global;

/// What a command says: the number of its status, and its lines.
#[derive(Drop)]
pub(crate) struct CommandAnswer {
    pub(crate) number: u8,
    pub(crate) lines: Vec<u8>,
}

impl CommandAnswer {
    /// Whether it is this status with these lines.
    pub(crate) fn is(&self, number: u8, lines: &str) -> bool {
        self.number == number && self.lines.as_slice() == lines.as_bytes()
    }
}

/// What is said without a line.
pub(crate) fn said_nothing(alloc: Global, number: u8) -> CommandAnswer {
    CommandAnswer {
        number,
        lines: Vec::new(alloc),
    }
}

/// A sink for what a command writes.
fn empty_sink(alloc: Global) -> Result<MemorySink, NoMemory> {
    MemorySink::new(alloc, 4096, 4096, Vec::new(alloc))
}

/// What a command says that ended with this status.
fn said_of(alloc: Global, status: CaseStatus, out: &MemorySink) -> Result<CommandAnswer, NoMemory> {
    Ok(CommandAnswer {
        number: status.number(),
        lines: Vec::from_slice(alloc, out.bytes())?,
    })
}

/// What `casebook` says to these words over a casebook.
fn say_over_book<B: Keeper>(
    alloc: Global,
    line: &str,
    book: &mut Casebook<B>,
) -> Result<CommandAnswer, NoMemory> {
    let words = split_words(alloc, line)?;
    let mut out = empty_sink(alloc)?;
    let mut shelf = shelf_of_logs(alloc)?;
    let status = run_case(alloc, &words, &mut shelf, &mut out, book);
    said_of(alloc, status, &out)
}

/// What `casebook` says to these words over a keeper, and the keeper.
pub(crate) fn say_over_keeper<B: Keeper>(
    alloc: Global,
    line: &str,
    keeper: B,
) -> (Result<CommandAnswer, NoMemory>, B) {
    let mut book = Casebook::new(keeper);
    let said = say_over_book(alloc, line, &mut book);
    (said, book.into_keeper())
}

/// What `desk` says to the words of a filing, and the keeper of what is on file, if it was opened.
#[derive(Drop)]
pub(crate) struct FilingEnd<B> {
    pub(crate) said: Result<CommandAnswer, NoMemory>,
    pub(crate) book: Option<B>,
}

fn try_filing<O: DigestOpener>(
    alloc: Global,
    line: &str,
    opener: &mut O,
) -> Result<FilingEnd<O::Book>, NoMemory> {
    let words = split_words(alloc, line)?;
    let mut out = empty_sink(alloc)?;
    let shelf = shelf_of_logs(alloc)?;
    let ran = run_filing(alloc, &words, shelf, &mut out, opener);
    Ok(FilingEnd {
        said: said_of(alloc, ran.status, &out),
        book: ran.back.keeper,
    })
}

/// What `desk` says to these words of a filing.
pub(crate) fn file_by_desk<O: DigestOpener>(
    alloc: Global,
    line: &str,
    opener: &mut O,
) -> FilingEnd<O::Book> {
    match try_filing(alloc, line, opener) {
        Ok(filed) => filed,
        Err(fault) => FilingEnd {
            said: Err(fault),
            book: None,
        },
    }
}
