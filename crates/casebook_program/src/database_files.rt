//! The files of a database: they are opened when no other process has them open, and the log is
//! removed after the last transaction that was in it. Nothing else is removed.
ghost use Rattle.std.specs.Prelude.{◌≡◌, is_ok, IfOk};
ghost use Rattle.std.specs.String.{string_bytes};
ghost use Rattle.casebook_program.specs.DatabaseFiles.{path_of_log, TriesToOpen, FindsPlace, LooksAtDatabase, RemovesLog, RemovesEmptyLog, is_database_file, is_empty_file};

use crate::database_system::{DatabaseSystem, FoundFile};
use sqlite_std_file::OpenError;
use std::alloc::{AllocError, Global};

/// How many pauses are made for a database that another process has open: five seconds in all.
const PAUSES: u32 = 100;

/// How long a pause is.
const PAUSE_MILLISECONDS: u64 = 50;

/// The files of the database under a path, which are made where they are not there. A database
/// that another process has open is waited for, about five seconds.
pub(crate) fn open_when_free<D: DatabaseSystem>(
    system: &mut D,
    path: &str,
) -> Result<D::Files, OpenError>
    ensures { TriesToOpen path.now (is_ok result) (D.calls system.old) (D.calls system.new) }
{
    for _ in 0..PAUSES {
        match system.open_files(path) {
            Err(OpenError::Busy) => system.pause(PAUSE_MILLISECONDS),
            outcome => return outcome,
        }
    }
    system.open_files(path)
}

/// Where a database that is open is, and which file it is.
#[derive(Drop)]
pub struct DatabaseFile {
    database: String,
    log: String,
    device: u64,
    number: u64,
}

/// The path of the log of a database.
fn log_path(alloc: Global, database: &str) -> Result<String, AllocError>
    ensures { IfOk result (λ log. string_bytes log ≡ path_of_log database.now) }
{
    let mut log = String::from_str(alloc, database)?;
    log.push_str("-wal")?;
    Ok(log)
}

/// Whether a file is there that is plain and has no byte.
fn is_empty(found: &Option<FoundFile>) -> bool
    ensures { result ≡ is_empty_file found.now }
{
    match found {
        Some(file) => file.is_plain && file.length == 0,
        None => false,
    }
}

impl DatabaseFile {
    /// Where the database under this path is, with no link in its path, and the log beside it. No
    /// file is changed. None where the path leads to no file, where a folder on it may not be
    /// searched, or out of memory.
    pub fn of<D: DatabaseSystem>(alloc: Global, system: &mut D, path: &str) -> Option<DatabaseFile>
        ensures { FindsPlace path.now result (D.calls system.old) (D.calls system.new) }
    {
        let database = system.resolve(path)?;
        let found = system.describe(database.as_str())?;
        let log = log_path(alloc, database.as_str()).ok()?;
        Some(DatabaseFile {
            database,
            log,
            device: found.device,
            number: found.number,
        })
    }

    /// Whether this is the database.
    fn is_found(&self, found: &Option<FoundFile>) -> bool
        ensures { result ≡ is_database_file self.now found.now }
    {
        match found {
            Some(file) => file.device == self.device && file.number == self.number,
            None => false,
        }
    }

    /// Whether the file of this name is still the database.
    fn is_there<D: DatabaseSystem>(&self, system: &mut D) -> bool
        ensures { LooksAtDatabase self.now result (D.calls system.old) (D.calls system.new) }
    {
        let found = system.describe(self.database.as_str());
        self.is_found(&found)
    }

    /// Removes the log. Whoever calls this still has the files open, so that nobody else has
    /// opened the log, and knows that the database file has all of it.
    pub(crate) fn remove_log<D: DatabaseSystem>(&self, system: &mut D)
        ensures { RemovesLog self.now (D.calls system.old) (D.calls system.new) }
    {
        if self.is_there(system) {
            system.remove(self.log.as_str());
        }
    }

    /// Removes the log where it is empty, as one is made beside a file that is then refused.
    /// Whoever calls this still has the files open.
    pub(crate) fn remove_empty_log<D: DatabaseSystem>(&self, system: &mut D)
        ensures { RemovesEmptyLog self.now (D.calls system.old) (D.calls system.new) }
    {
        let found = system.describe(self.log.as_str());
        if is_empty(&found) {
            self.remove_log(system);
        }
    }
}
