//! The opener of the program: databases, each in a file under its path.
ghost use Rattle.std.specs.Prelude.{◌≡◌, false, is_ok, IfOk};
ghost use Rattle.casebook_program.specs.Databases.{ClosesDatabase};
ghost use Rattle.command_words.specs.WordForms.{is_path};
ghost use Rattle.digest_database_files.specs.FileDigestOpeners.{AsksWhereItMay, OpensWhereItMay, MayOpen, digest_file_opener_state, fresh_digest_opener, RefusesDatabase};
ghost use Rattle.digest_sqlite.specs.SqlDigestKeepers.{sql_digest_state};
ghost use Rattle.desk_filing.specs.DigestOpeners.{OpensDatabase};

use crate::closing::ClosingDigests;
use case_keeper::keeper::KeepFault;
use casebook_program::database_files::DatabaseFile;
use casebook_program::database_system::DatabaseSystem;
use casebook_program::databases::{close_database, open_database};
use desk_filing::opener::{DigestOpener, MissingDatabase};
use digest_sqlite::sql_digest_keeper::SqlDigestKeeper;
use sqlite::{Alter, Connection};
use std::alloc::Global;

/// An opener over the files of a system, where what is on file is a database under its path.
/// Nothing is known of what is under a path. A path that is not opened is counted as a fault, as
/// one of a directory, of a file that is no database or may not be written, of a database that
/// another process has open for longer than is waited for, and one under which there is nothing
/// and nothing is to be made. An opening that finds no memory is no fault.
///
/// A path that begins with `-` is one that was meant as an option: it is refused before any
/// file is opened or made. A file of such a name is given as `./-x`.
#[derive(Drop)]
pub struct FileDigestOpener<D> {
    system: D,
    faults: u64,
    // Where the database is that was opened last, if there was memory for it.
    place: Option<DatabaseFile>,
    alloc: Global,
}

/// Whether a database may be opened under a path: there is a file, or one is to be made.
fn may_open<D: DatabaseSystem>(system: &mut D, path: &str, missing: MissingDatabase) -> bool
    ensures { MayOpen path.now missing result (D.calls system.old) (D.calls system.new) }
{
    match missing {
        MissingDatabase::Make => true,
        MissingDatabase::Refuse => system.look_for(path),
    }
}

/// The keeper over the database under a path.
fn open_keeper<S: Alter, D: DatabaseSystem<Connection = Connection<S>>>(
    alloc: Global,
    system: &mut D,
    path: &str,
    missing: MissingDatabase,
) -> Result<SqlDigestKeeper<S>, KeepFault>
    ensures refused { is_path path.now ≡ false → result ≡ Err KeepFault.Failed }
    ensures asked { AsksWhereItMay path.now missing (is_ok result)
        (D.calls system.old) (D.calls system.new) }
    ensures fresh { IfOk result (λ keeper. (sql_digest_state keeper).faults ≡ 0) }
{
    if !may_open(system, path, missing) {
        return Err(KeepFault::Failed);
    }
    let connection = open_database(alloc, system, path)?;
    Ok(SqlDigestKeeper::new(alloc, connection))
}

impl FileDigestOpener<HostRuntime> {
    /// An opener over the files of the runtime, with no fault counted.
    pub fn new(rt: HostRuntime) -> FileDigestOpener<HostRuntime>
        ensures { digest_file_opener_state result ≡ fresh_digest_opener }
    {
        let alloc = rt.alloc();
        FileDigestOpener::over(alloc, rt)
    }
}

impl<D: DatabaseSystem> FileDigestOpener<D> {
    /// An opener over the files of this system, with no fault counted.
    pub fn over(alloc: Global, system: D) -> FileDigestOpener<D>
        ensures state { digest_file_opener_state result ≡ fresh_digest_opener }
        ensures system { result.system ≡ system }
    {
        FileDigestOpener {
            system,
            faults: 0,
            place: None,
            alloc,
        }
    }
}

impl<S: Alter + Drop, D: DatabaseSystem<Connection = Connection<S>>> DigestOpener
    for FileDigestOpener<D> {
    type Book = SqlDigestKeeper<S>;

    ghost state = { digest_file_opener_state };

    fn open(
        &mut self,
        path: &str,
        missing: MissingDatabase,
    ) -> Result<SqlDigestKeeper<S>, KeepFault>
        ensures opens { OpensDatabase sql_digest_state (digest_file_opener_state self.old)
            (digest_file_opener_state self.new) path.now missing result }
        // A path that is empty or begins with `-` is refused, and counted as a fault.
        ensures refused { is_path path.now ≡ false → RefusesDatabase self.old self.new result }
        // The database is opened under this path and no other. Where none is to be made, nothing is
        // opened, and so made, before the system says that something is there.
        ensures asked { OpensWhereItMay path.now missing (is_ok result) self.new.place
            (D.calls self.old.system) (D.calls self.new.system) }
    {
        match open_keeper(self.alloc, &mut self.system, path, missing) {
            Ok(keeper) => {
                self.place = DatabaseFile::of(self.alloc, &mut self.system, path);
                Ok(keeper)
            }
            Err(fault) => {
                if let KeepFault::Failed = fault {
                    self.faults = self.faults.saturating_add(1);
                }
                Err(fault)
            }
        }
    }
}

impl<S: Alter + Drop, D: DatabaseSystem<Connection = Connection<S>>> ClosingDigests
    for FileDigestOpener<D> {
    // The database is closed that was opened last, and then its log is removed.
    ghost closes = { λ old new. ClosesDatabase old.place (D.calls old.system) (D.calls new.system) };

    fn close(&mut self, keeper: SqlDigestKeeper<S>) {
        close_database(&mut self.system, &self.place, keeper.into_connection());
    }
}
