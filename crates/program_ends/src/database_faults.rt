//! Why a database cannot be used, as far as the system tells when it is asked once more, after the
//! run has let go of it. Nothing is made or changed for that, and nothing read but the beginning
//! of a file.
use crate::log_bytes::is_plain_file;
use crate::log_notes::refusal;
use crate::notes::Notes;
use command_words::word_forms::is_path;
use std::fs::{self, OpenOptions};
use std::io::{self, ErrorKind, Read};
use std::os::unix::fs::MetadataExt;

/// Why a database cannot be used.
pub(crate) enum DatabaseFault {
    /// The word is an option, or there is none.
    NoPath,
    /// The word is what SQLite takes for no file, or for more than one.
    NoFile,
    /// There is nothing under the path, and no folder for it.
    Missing,
    /// There is nothing under the path, and nothing could be made there.
    NotMade,
    /// The system refuses the file.
    Refused(io::Error),
    /// It is a device or a pipe.
    Unusual,
    /// The file has another name, by which another program may have it open.
    OtherName,
    /// The file may not be written.
    Unwritable(io::Error),
    /// SQLite left a journal beside it.
    Journal,
    /// The file is no database of SQLite.
    NoDatabase,
    /// It has no table of cases, and could not be given one.
    NoTable,
    /// What is left, which is not told apart: another process has it open, what was to be kept was
    /// not, or what was asked for is no case.
    BusyOrFull,
}

/// How many bytes of a database are read, among which the table of cases is where it has one.
const BEGINNING: usize = 65_536;

/// With what a database of SQLite begins.
const MAGIC: &[u8] = b"SQLite format 3\0";

/// What the making of the table of cases says, which stands among the first bytes of a database.
const TABLE: &[u8] = b"cases (number INTEGER PRIMARY KEY AUTOINCREMENT, label TEXT";

/// Whether bytes, of which there are some, stand among others.
fn has_text(bytes: &[u8], text: &[u8]) -> bool {
    if text.is_empty() {
        return false;
    }
    bytes.windows(text.len()).any(|window| window == text)
}

/// The fault that the first bytes of a file show.
fn fault_of_bytes(bytes: &[u8]) -> DatabaseFault {
    if bytes.is_empty() {
        DatabaseFault::BusyOrFull
    } else if !bytes.starts_with(MAGIC) {
        DatabaseFault::NoDatabase
    } else if !has_text(bytes, TABLE) {
        DatabaseFault::NoTable
    } else {
        DatabaseFault::BusyOrFull
    }
}

/// The fault that the first bytes of the file under a path show.
fn fault_in_bytes<N: Notes>(notes: &N, path: &str) -> io::Result<DatabaseFault> {
    let mut file = fs::open(notes, path)?;
    let mut bytes = [0; BEGINNING];
    let count = file.read(&mut bytes)?;
    Ok(fault_of_bytes(&bytes[..count]))
}

/// The fault of a file that may be read.
fn fault_of_file<N: Notes>(notes: &N, path: &str) -> DatabaseFault {
    if let Err(error) = OpenOptions::new().read(true).write(true).open(notes, path) {
        return DatabaseFault::Unwritable(error);
    }
    if notes.has_journal(path) {
        return DatabaseFault::Journal;
    }
    match fault_in_bytes(notes, path) {
        Ok(fault) => fault,
        Err(error) => DatabaseFault::Refused(error),
    }
}

/// The folder in which a path leads to something.
fn folder_of(path: &str) -> &str {
    match path.rsplit_once('/') {
        Some(("", _)) => "/",
        Some((folder, _)) => folder,
        None => ".",
    }
}

/// The fault where there is nothing under a path.
fn fault_of_nothing<N: Notes>(notes: &N, path: &str) -> DatabaseFault {
    match fs::metadata(notes, folder_of(path)) {
        Ok(found) if found.is_dir() => DatabaseFault::NotMade,
        _ => DatabaseFault::Missing,
    }
}

/// Whether the word is one of the two forms by which SQLite names what is no file, or more than
/// one.
fn is_special(path: &str) -> bool {
    path == ":memory:" || path.starts_with("file:")
}

/// The fault of what is under a path of a file.
fn fault_under<N: Notes>(notes: &N, path: &str) -> DatabaseFault {
    match fs::metadata(notes, path) {
        Err(error) if error.kind() == ErrorKind::NotFound => fault_of_nothing(notes, path),
        Err(error) => DatabaseFault::Refused(error),
        Ok(found) if found.is_file() && found.nlink() != 1 => DatabaseFault::OtherName,
        Ok(_) => match refusal(notes, path) {
            Some(error) => DatabaseFault::Refused(error),
            None if is_plain_file(notes, path) => fault_of_file(notes, path),
            None => DatabaseFault::Unusual,
        },
    }
}

/// Why the database under a path cannot be used.
pub(crate) fn database_fault<N: Notes>(notes: &N, path: &str) -> DatabaseFault {
    if !is_path(path) {
        DatabaseFault::NoPath
    } else if is_special(path) {
        DatabaseFault::NoFile
    } else {
        fault_under(notes, path)
    }
}
