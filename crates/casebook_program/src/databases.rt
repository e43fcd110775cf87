//! Databases in files: one is opened by its path, and closed.
//!
//! 512 pages (2 MB) in place of the crate's 2,000, whose room is taken at the open.
ghost use Rattle.std.specs.Prelude.{◌≡◌, false, is_ok};
ghost use Rattle.casebook_program.specs.Databases as spec;
ghost use Rattle.casebook_program.specs.Databases.{AsksForFiles, AsksForDatabase, ClosesDatabase, GoesOnToConnect, RemovesLogBehind};
ghost use Rattle.command_words.specs.WordForms.{is_path};

use crate::database_files::{DatabaseFile, open_when_free};
use crate::database_system::DatabaseSystem;
use case_keeper::keeper::KeepFault;
use case_sqlite::faults::fault_of;
use command_words::word_forms::{is_path, is_word};
use sqlite::Options;
use sqlite_std_file::OpenError;
use std::alloc::Global;
use std::io::ErrorKind;

/// How many pages of a database that were read are kept in memory: 2 MB, whose memory is taken at
/// the open. A casebook of ten thousand cases has 110 pages.
const KEPT_PAGES: usize = 512;

/// The fault of an opener that the system refused the files of a database.
fn refused(error: OpenError) -> KeepFault {
    match error {
        OpenError::OutOfMemory => KeepFault::Memory,
        OpenError::Io(error) if error.kind() == ErrorKind::OutOfMemory => KeepFault::Memory,
        _ => KeepFault::Failed,
    }
}

/// How the database is held: with a random number for the salts of its log, and few pages in
/// memory.
fn options(number: u64) -> Options {
    Options {
        cache_pages: KEPT_PAGES,
        ..Options::new(number)
    }
}

/// Whether it is one of the two forms by which SQLite names what is no file, or more than a file.
fn is_special(path: &str) -> bool
    ensures { result ≡ spec.is_special_name path.now }
{
    is_word(path, b":memory:") || path.as_bytes().starts_with(b"file:")
}

/// Whether a path names a file. An option does not, and neither do the two forms by which
/// SQLite names what is no file, or more than a file.
fn names_file(path: &str) -> bool
    ensures { result ≡ spec.names_file path.now }
{
    is_path(path) && !is_special(path)
}

/// The files of the database under a path, which are made where they are not there.
fn open_files<D: DatabaseSystem>(system: &mut D, path: &str) -> Result<D::Files, KeepFault>
    ensures refused { is_path path.now ≡ false → result ≡ Err KeepFault.Failed }
    ensures asked { AsksForFiles path.now (is_ok result) (D.calls system.old) (D.calls system.new) }
{
    if !names_file(path) {
        return Err(KeepFault::Failed);
    }
    match open_when_free(system, path) {
        Ok(files) => Ok(files),
        Err(error) => Err(refused(error)),
    }
}

/// Removes the log beside a database that was refused, where it is empty.
fn leave_no_log<D: DatabaseSystem>(alloc: Global, system: &mut D, path: &str)
    ensures { RemovesLogBehind path.now (D.calls system.old) (D.calls system.new) }
{
    if let Some(place) = DatabaseFile::of(alloc, system, path) {
        place.remove_empty_log(system);
    }
}

/// The connection to the database in these files, which were opened under a path.
fn connect<D: DatabaseSystem>(
    alloc: Global,
    system: &mut D,
    files: D::Files,
    path: &str,
) -> Result<D::Connection, KeepFault>
    ensures { GoesOnToConnect path.now (is_ok result) (D.calls system.old) (D.calls system.new) }
{
    let Ok(number) = system.draw_number() else {
        return Err(KeepFault::Failed);
    };
    match system.connect(files, options(number)) {
        Ok(connection) => Ok(connection),
        Err((error, held)) => {
            leave_no_log(alloc, system, path);
            drop(held);
            Err(fault_of(error))
        }
    }
}

/// The connection to the database under a path, which is made where there is none. One that
/// another process has open is waited for, about five seconds.
///
/// A path that is empty or begins with `-` is refused before any file is opened or made. A
/// database that is refused behind that is left as it was, and no log is left beside it.
pub fn open_database<D: DatabaseSystem>(
    alloc: Global,
    system: &mut D,
    path: &str,
) -> Result<D::Connection, KeepFault>
    ensures refused { is_path path.now ≡ false → result ≡ Err KeepFault.Failed }
    ensures asked { AsksForDatabase path.now (is_ok result)
        (D.calls system.old) (D.calls system.new) }
{
    let files = open_files(system, path)?;
    connect(alloc, system, files, path)
}

/// Closes a database, of which it is known where it is, if there was memory for that.
///
/// What was committed is in the database's files before this, so that a close that fails loses
/// nothing, and nothing is removed after it. After a close the database file has all of it alone,
/// and the log beside it is removed while nobody else can have opened it.
pub fn close_database<D: DatabaseSystem>(
    system: &mut D,
    place: &Option<DatabaseFile>,
    connection: D::Connection,
)
    ensures { ClosesDatabase place.now (D.calls system.old) (D.calls system.new) }
{
    if let Some(held) = system.close(connection) {
        if let Some(place) = place {
            place.remove_log(system);
        }
        drop(held);
    }
}
