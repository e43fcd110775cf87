//! What is said of a database of cases.
use crate::database_faults::{DatabaseFault, database_fault};
use crate::notes::Notes;
use crate::word_parts::is_result;
use std::fs;

/// Whether there is no database under a path.
pub fn is_database_missing<N: Notes>(notes: &N, path: &str) -> bool {
    fs::metadata(notes, path).is_err()
}

/// Says that the database under a path was made, where it was missing and is there.
pub fn print_made_database<N: Notes>(notes: &N, program: &str, path: &str, was_missing: bool) {
    if was_missing && !is_database_missing(notes, path) {
        let _written = eprintln!(notes; "{program}: {path} was not there, and has been made");
    }
}

/// Says why a database could not be opened, read or written. One that is not there may be made,
/// or not.
pub fn print_database_fault<N: Notes>(notes: &N, program: &str, path: &str, may_make: bool) {
    let _written = match database_fault(notes, path) {
        DatabaseFault::NoPath => {
            eprintln!(notes;
                "{program}: no path '{path}': one that begins with - is written as ./-"
            )
        }
        DatabaseFault::NoFile => {
            eprintln!(notes;
                "{program}: '{path}' is no path of a file: one of that name is written as ./{path}"
            )
        }
        DatabaseFault::NotMade if may_make => {
            eprintln!(notes;
                "{program}: {path}: it could not be made: its folder may not be written, or the disk is full"
            )
        }
        DatabaseFault::NotMade => eprintln!(notes; "{program}: {path}: it is not there"),
        DatabaseFault::Missing => eprintln!(notes; "{program}: {path}: its folder is not there"),
        DatabaseFault::Refused(error) => eprintln!(notes; "{program}: {path}: {error}"),
        DatabaseFault::Unusual => eprintln!(notes; "{program}: {path}: it is no file"),
        DatabaseFault::OtherName => {
            eprintln!(notes; "{program}: {path}: the file has another name too, by a hard link")
        }
        DatabaseFault::Unwritable(error) => {
            eprintln!(notes; "{program}: {path}: it may not be written: {error}")
        }
        DatabaseFault::Journal => {
            eprintln!(notes;
                "{program}: {path}: {path}-journal is there: open it with sqlite3 first"
            )
        }
        DatabaseFault::NoDatabase => eprintln!(notes;
            "{program}: {path}: it is no database of SQLite"
        ),
        DatabaseFault::NoTable => {
            eprintln!(notes;
                "{program}: {path}: it is the database of another program, or its disk is full"
            )
        }
        DatabaseFault::BusyOrFull => {
            eprintln!(notes;
                "{program}: {path}: another process has it open, its disk is full, its folder may not be written, or a row of it is no case"
            )
        }
    };
}

/// Whether the words begin with `list` and one word that is a result's, and with no other of
/// that command.
fn lists_result(words: &[String]) -> bool {
    let mut rest = words.iter();
    match (rest.next(), rest.next(), rest.next()) {
        (Some(command), Some(name), None) => command.as_str() == "list" && is_result(name.as_str()),
        (Some(command), Some(name), Some(next)) => {
            command.as_str() == "list" && is_result(name.as_str()) && next.as_str() == "then"
        }
        _ => false,
    }
}

/// Says that a list of one word is that of a symbol, where the word is a result's.
pub fn print_listed_symbols<N: Notes>(notes: &N, words: &[String]) {
    let mut begins = true;
    for place in 1..words.len() {
        if begins && lists_result(&words[place..]) {
            let _written = eprintln!(notes;
                "casebook: list with one word is of a symbol of this name: give the symbol before the result"
            );
        }
        begins = words[place].as_str() == "then";
    }
}
