//! What is said of a log that could not be read, is too long or is malformed, and of memory and the
//! output.
//!
//! Why a file could not be read is asked of the system once more, so what has changed meanwhile is
//! shown as it is now. A pipe is not asked again.
use crate::asked::{Asked, ProgramName};
use crate::log_bytes::is_pipe;
use crate::malformed_notes::print_malformed_log;
use crate::noted_shelf::NotedShelf;
use crate::notes::Notes;
use audit_base::terms::Which;
use audit_report::statuses::Status;
use log_source::shelf::Shelf;
use log_verdict::stops::{NoRecords, Stop};
use std::fs;
use std::io::{self, Read};

/// Why the system does not let a file be read, as it says itself when it is asked once more.
/// What may wait for its bytes, as a pipe, is not asked.
pub(crate) fn refusal<N: Notes>(notes: &N, path: &str) -> Option<io::Error> {
    match fs::metadata(notes, path) {
        Ok(found) if found.is_file() || found.is_dir() => match fs::open(notes, path) {
            Ok(mut file) => file.read(&mut [0; 1]).err(),
            Err(error) => Some(error),
        },
        Ok(_) => None,
        Err(error) => Some(error),
    }
}

/// The note on a log that could not be read, with the host's reason where it gives one.
fn print_unread_log<N: Notes>(notes: &N, program: &str, path: &str) {
    let _written = match refusal(notes, path) {
        Some(error) => eprintln!(notes; "{program}: {path}: {error}"),
        None => eprintln!(notes; "{program}: {path}: it could not be read"),
    };
}

/// The note on a log that is too long.
fn print_long_log<N: Notes>(notes: &N, program: ProgramName, path: &str) {
    let (name, limit) = (program.word(), program.longest_log());
    let longest = ProgramName::Desk.longest_log();
    let _written = match program {
        ProgramName::Desk => eprintln!(notes; "{name}: {path}: it has more than {limit} bytes"),
        ProgramName::Auditor | ProgramName::Casebook => eprintln!(notes;
            "{name}: {path}: it has more than {limit} bytes: desk takes logs of {longest}"
        ),
    };
}

/// The log at which a run stopped, if it was one.
fn log_of_stop(stop: &NoRecords) -> Option<Which> {
    match stop {
        NoRecords::Malformed { log, .. } => Some(*log),
        NoRecords::Stopped(Stop::ReadFault(log)) => Some(*log),
        NoRecords::Stopped(Stop::TooLong(log)) => Some(*log),
        NoRecords::Stopped(Stop::Memory) => None,
    }
}

/// Says that a log is a pipe, which the command cannot read twice, and whether it is.
fn prints_pipe<N: Notes, F: Shelf>(
    notes: &N,
    asked: &Asked<'_>,
    shelf: &NotedShelf<F>,
    log: Which,
) -> bool {
    let Some(path) = shelf.name_of(log) else {
        return false;
    };
    if !is_pipe(notes, path.as_str()) {
        return false;
    }
    let program = asked.program.word();
    let _written = eprintln!(notes;
        "{program}: {path}: it is a pipe, whose bytes come once, and each log is read twice: give a file"
    );
    true
}

/// Whether both logs are read from the same name.
fn is_named_twice<F: Shelf>(shelf: &NotedShelf<F>) -> bool {
    match (shelf.name_of(Which::Orders), shelf.name_of(Which::Trades)) {
        (Some(orders), Some(trades)) => orders.as_str() == trades.as_str(),
        _ => false,
    }
}

/// Says which log is a pipe where that is wanted twice, as for each log of `check`, and for one that
/// is given as both logs, and whether one is.
pub fn prints_pipe_read_twice<N: Notes, F: Shelf>(
    notes: &N,
    asked: &Asked<'_>,
    shelf: &NotedShelf<F>,
) -> bool {
    let checks = match asked.program {
        ProgramName::Desk => asked.has_command("check"),
        ProgramName::Auditor | ProgramName::Casebook => false,
    };
    if !checks && !is_named_twice(shelf) {
        return false;
    }
    prints_pipe(notes, asked, shelf, Which::Orders)
        || prints_pipe(notes, asked, shelf, Which::Trades)
}

/// Says what is wrong with the log at which a run stopped. Where it stopped at none, it says
/// nothing.
fn print_stop<N: Notes, F: Shelf>(
    notes: &N,
    asked: &Asked<'_>,
    shelf: &NotedShelf<F>,
    stop: &NoRecords,
) {
    let Some(path) = log_of_stop(stop).and_then(|log| shelf.name_of(log)) else {
        return;
    };
    match stop {
        NoRecords::Malformed { log, bad } => {
            print_malformed_log(notes, asked, path.as_str(), *log, bad);
        }
        NoRecords::Stopped(Stop::ReadFault(_)) => {
            print_unread_log(notes, asked.program.word(), path.as_str());
        }
        NoRecords::Stopped(Stop::TooLong(_)) => {
            print_long_log(notes, asked.program, path.as_str());
        }
        NoRecords::Stopped(Stop::Memory) => {}
    }
}

/// Standard output, as a path.
const OUTPUT: &str = "/dev/stdout";

/// Says why a run of well-formed words ended above 1, if not with a keeper's fault: which log is at
/// fault; or that memory or the output was, unless a reader had enough of that.
pub fn print_end<N: Notes, F: Shelf>(
    notes: &N,
    asked: &Asked<'_>,
    status: Status,
    shelf: &NotedShelf<F>,
    stop: &Option<NoRecords>,
) {
    let program = asked.program.word();
    match status {
        Status::Memory => print_memory(notes, asked.program),
        Status::WriteFault => {
            // A write to a pipe fails where its reader has closed it.
            if !is_pipe(notes, OUTPUT) {
                let _written = eprintln!(notes; "{program}: standard output could not be written");
            }
        }
        Status::Malformed | Status::ReadFault | Status::TooLong => {
            if let Some(stop) = stop {
                print_stop(notes, asked, shelf, stop);
            }
        }
        Status::Accepted | Status::Rejected | Status::Usage => {}
    }
}

/// Says that memory ran out.
pub fn print_memory<N: Notes>(notes: &N, program: ProgramName) {
    let name = program.word();
    let _written = eprintln!(notes; "{name}: memory ran out");
}
