//! What is told on standard error, of which no contract speaks.
use crate::ends::DeskEnd;
use audit_report::statuses::Status;
use case_run::statuses::CaseStatus;
use desk_words::commands::asks_filing;
use desk_words::word_order::marked_at;
use log_source::shelf::Shelf;
use log_verdict::stops::NoRecords;
use program_ends::asked::{Asked, ProgramName};
use program_ends::database_notes::{
    is_database_missing, print_database_fault, print_made_database,
};
use program_ends::log_notes::{print_end, print_memory, prints_pipe_read_twice};
use program_ends::noted_shelf::NotedShelf;
use program_ends::notes::Notes;
use program_ends::usage_notes::print_usage;

/// The place of the database among words: right behind `--`, where `file` has its options before it,
/// and else behind the command.
fn database_place(words: &[String]) -> usize {
    match marked_at(words, 6) {
        Some(mark) => mark + 1,
        None => 1,
    }
}

/// The path of the database, where the words ask for a command with one.
fn database_of(words: &[String]) -> Option<&str> {
    if !asks_filing(words) {
        return None;
    }
    match words.get(database_place(words)) {
        Some(path) => Some(path.as_str()),
        None => None,
    }
}

/// Whether the words name a database that is not there.
pub(crate) fn names_missing_database<N: Notes>(notes: &N, words: &[String]) -> bool {
    match database_of(words) {
        Some(path) => is_database_missing(notes, path),
        None => false,
    }
}

/// Says that a database was made, where it was missing before the run and is there.
pub(crate) fn tell_made_database<N: Notes>(notes: &N, words: &[String], was_missing: bool) {
    if let Some(path) = database_of(words) {
        print_made_database(notes, "desk", path, was_missing);
    }
}

/// The status that tells of logs, memory and output, where a filing ended with one. Logs that are
/// not those of a case are as ones that are rejected.
fn status_of_logs(status: CaseStatus) -> Option<Status> {
    match status {
        CaseStatus::Malformed => Some(Status::Malformed),
        CaseStatus::ReadFault => Some(Status::ReadFault),
        CaseStatus::WriteFault => Some(Status::WriteFault),
        CaseStatus::TooLong => Some(Status::TooLong),
        CaseStatus::Memory => Some(Status::Memory),
        CaseStatus::Refused => Some(Status::Rejected),
        CaseStatus::Done | CaseStatus::Usage | CaseStatus::KeeperFault => None,
    }
}

/// Says why the database could not be used that the words name. `check` makes none.
fn tell_database_fault<N: Notes>(notes: &N, words: &[String]) {
    let may_make = match words.first() {
        Some(command) => command.as_str() != "check",
        None => false,
    };
    if let Some(path) = database_of(words) {
        print_database_fault(notes, "desk", path, may_make);
    }
}

/// Says why a run with logs ended with this status, where that is above 1; and where a log is a pipe
/// that was to be read twice, that it is.
fn tell_of_logs<N: Notes, F: Shelf>(
    notes: &N,
    asked: &Asked<'_>,
    status: Status,
    shelf: &NotedShelf<F>,
    stop: &Option<NoRecords>,
) {
    match status {
        Status::Rejected | Status::Malformed if prints_pipe_read_twice(notes, asked, shelf) => {}
        _ => print_end(notes, asked, status, shelf, stop),
    }
}

/// Says why a run ended above 1.
pub(crate) fn tell<N: Notes, F: Shelf>(
    notes: &N,
    end: DeskEnd,
    words: &[String],
    shelf: &NotedShelf<F>,
    stop: &Option<NoRecords>,
) {
    let asked = Asked {
        program: ProgramName::Desk,
        words,
    };
    match end {
        DeskEnd::Run(Status::Usage) | DeskEnd::Filed(CaseStatus::Usage) => {
            print_usage(notes, &asked);
        }
        DeskEnd::Filed(CaseStatus::KeeperFault) => tell_database_fault(notes, words),
        DeskEnd::Run(status) => tell_of_logs(notes, &asked, status, shelf, stop),
        DeskEnd::Filed(status) => {
            if let Some(status) = status_of_logs(status) {
                tell_of_logs(notes, &asked, status, shelf, stop);
            }
        }
    }
}

/// Says that memory ran out before the words were known.
pub(crate) fn tell_no_memory<N: Notes>(notes: &N) {
    print_memory(notes, ProgramName::Desk);
}
