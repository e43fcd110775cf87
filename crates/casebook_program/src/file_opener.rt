//! The opener of the program: databases, each in a file under its path.
ghost use Rattle.std.specs.Prelude.{◌≡◌, false, is_ok, IfOk};
ghost use Rattle.casebook_program.specs.Databases.{AsksForDatabase, OpensUnderPath, ClosesDatabase};
ghost use Rattle.casebook_program.specs.FileOpeners.{file_opener_state, fresh_opener, RefusesPath};
ghost use Rattle.case_run.specs.Openers.{OpensCasebook};
ghost use Rattle.case_sqlite.specs.SqlKeepers.{sql_state};
ghost use Rattle.command_words.specs.WordForms.{is_path};

use crate::closing::Closing;
use crate::database_files::DatabaseFile;
use crate::database_system::DatabaseSystem;
use crate::databases::{close_database, open_database};
use case_keeper::keeper::KeepFault;
use case_run::opener::Opener;
use case_sqlite::sql_keeper::SqlKeeper;
use sqlite::{Alter, Connection};
use std::alloc::Global;

/// An opener over the files of a system, where a casebook is a database under its path,
/// which is made where there is none. Nothing is known of what is under a path. A path that is
/// not opened is counted as a fault, as one of a directory, of a file that is no database or
/// may not be written, or of a database that another process has open for longer than is waited
/// for. An opening that finds no memory is no fault.
///
/// A path that begins with `-` is one that was meant as an option: it is refused before any
/// file is opened or made. A file of such a name is given as `./-x`.
#[derive(Drop)]
pub struct FileOpener<D> {
    system: D,
    faults: u64,
    // Where the database is that was opened last, if there was memory for it.
    place: Option<DatabaseFile>,
    alloc: Global,
}

/// The keeper over the database under a path.
fn open_keeper<S: Alter, D: DatabaseSystem<Connection = Connection<S>>>(
    alloc: Global,
    system: &mut D,
    path: &str,
) -> Result<SqlKeeper<S>, KeepFault>
    ensures refused { is_path path.now ≡ false → result ≡ Err KeepFault.Failed }
    ensures asked { AsksForDatabase path.now (is_ok result)
        (D.calls system.old) (D.calls system.new) }
    ensures fresh { IfOk result (λ keeper. (sql_state keeper).faults ≡ 0) }
{
    let connection = open_database(alloc, system, path)?;
    Ok(SqlKeeper::new(alloc, connection))
}

impl FileOpener<HostRuntime> {
    /// An opener over the files of the runtime, with no fault counted.
    pub fn new(rt: HostRuntime) -> FileOpener<HostRuntime>
        ensures { file_opener_state result ≡ fresh_opener }
    {
        let alloc = rt.alloc();
        FileOpener::over(alloc, rt)
    }
}

impl<D: DatabaseSystem> FileOpener<D> {
    /// An opener over the files of this system, with no fault counted.
    pub fn over(alloc: Global, system: D) -> FileOpener<D>
        ensures state { file_opener_state result ≡ fresh_opener }
        ensures system { result.system ≡ system }
    {
        FileOpener {
            system,
            faults: 0,
            place: None,
            alloc,
        }
    }
}

impl<S: Alter + Drop, D: DatabaseSystem<Connection = Connection<S>>> Opener for FileOpener<D> {
    type Book = SqlKeeper<S>;

    ghost state = { file_opener_state };

    fn open_book(&mut self, path: &str) -> Result<SqlKeeper<S>, KeepFault>
        ensures opens { OpensCasebook sql_state (file_opener_state self.old) (file_opener_state self.new)
            path.now result }
        // A path that is empty or begins with `-` is refused, and counted as a fault.
        ensures refused { is_path path.now ≡ false → RefusesPath self.old self.new result }
        // The database is opened under this path and no other, and nothing but an empty log of one
        // that is refused is removed.
        ensures asked { OpensUnderPath path.now (is_ok result) self.new.place
            (D.calls self.old.system) (D.calls self.new.system) }
    {
        match open_keeper(self.alloc, &mut self.system, path) {
            Ok(keeper) => {
                self.place = DatabaseFile::of(self.alloc, &mut self.system, path);
                Ok(keeper)
            }
            Err(fault) => {
                if let KeepFault::Failed = fault {
                    self.faults = self.faults.saturating_add(1);
                }
                Err(fault)
            }
        }
    }
}

impl<S: Alter + Drop, D: DatabaseSystem<Connection = Connection<S>>> Closing for FileOpener<D> {
    // The database is closed that was opened last, and then its log is removed.
    ghost closes = { λ old new. ClosesDatabase old.place (D.calls old.system) (D.calls new.system) };

    fn close(&mut self, keeper: SqlKeeper<S>) {
        close_database(&mut self.system, &self.place, keeper.into_connection());
    }
}
