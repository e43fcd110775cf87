//! Databases whose two files are on a disk in memory, and may stop.
//!
//! A function that has a database of files by its own type takes long to prove, since the proof
//! goes through all that a database is made of. They are these: what opens, does one command, and
//! closes. All else speaks of what the command says and of the files.
use crate::calls::{CommandAnswer, said_nothing};
use crate::commands::{AnswerAndConnection, Command, answer};
use audit_base::faults::NoMemory;
use sqlite::{Connection, FileStore, Files, Options};
use sqlite_disk::{Crash, Disk, Fuse, Memory};
use std::alloc::Global;
use std::process::Abort;

/// The log and the database file, each of which may stop.
pub(crate) type Disks = Files<Fuse<Memory>>;

/// Empty files, each of which stops after as many calls as given.
pub(crate) fn empty_files(alloc: Global, log_calls: u64, db_calls: u64) -> Disks {
    Files {
        log: Fuse::new(Memory::new(alloc), log_calls),
        db: Fuse::new(Memory::new(alloc), db_calls),
    }
}

/// How a database is held: with few pages in memory, whose room is taken at the open.
fn options() -> Options {
    Options {
        cache_pages: 64,
        ..Options::new(1)
    }
}

/// The connection to the database in the files, or what is left of them.
fn open<D: Disk + Drop>(
    alloc: Global,
    files: Files<D>,
) -> Result<Connection<FileStore<D>>, Files<D>> {
    if !files.log.may_be_used() || !files.db.may_be_used() {
        return Err(files);
    }
    match Connection::open_files(alloc, files, options()) {
        Ok(connection) => Ok(connection),
        Err((_, left)) => Err(left.into_files()),
    }
}

/// Whether the database was closed with no fault, and its files.
fn close<D: Disk + Drop>(connection: Connection<FileStore<D>>) -> (bool, Files<D>) {
    match connection.close_files() {
        Ok(files) => (true, files),
        Err((_, store)) => (false, store.close()),
    }
}

/// What a command came to: what it said, whether the database was closed with no fault, and the
/// files.
#[derive(Drop)]
pub(crate) struct CommandEnd<D: Disk> {
    pub(crate) said: Result<CommandAnswer, NoMemory>,
    pub(crate) closed: bool,
    pub(crate) files: Files<D>,
}

/// What a command comes to over files that cannot be opened: nothing is said, with the status of a
/// keeper that failed.
fn unopened<D: Disk>(alloc: Global, files: Files<D>) -> CommandEnd<D> {
    CommandEnd {
        said: Ok(said_nothing(alloc, 8)),
        closed: false,
        files,
    }
}

/// Closes the database after a command.
fn come_to<D: Disk + Drop>(answered: AnswerAndConnection<FileStore<D>>) -> CommandEnd<D> {
    let (said, connection) = answered;
    let (closed, files) = close(connection);
    CommandEnd {
        said,
        closed,
        files,
    }
}

fn come_over<R: AllocGlobal + Abort, D: Disk + Drop>(
    rt: &R,
    command: Command,
    files: Files<D>,
) -> CommandEnd<D> {
    match open(rt.alloc(), files) {
        Ok(connection) => come_to(answer(rt, command, connection)),
        Err(files) => unopened(rt.alloc(), files),
    }
}

/// Opens the database in the files, does the command and closes it.
pub(crate) fn come<R: AllocGlobal + Abort>(
    rt: &R,
    command: Command,
    files: Disks,
) -> CommandEnd<Fuse<Memory>> {
    come_over(rt, command, files)
}

/// The files as the machine finds them when it comes back.
pub(crate) fn after_crash(mut files: Disks) -> Disks {
    files.log.crash();
    files.db.crash();
    files
}
