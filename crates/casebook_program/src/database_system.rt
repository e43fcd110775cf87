//! What is asked of the system for databases in files, each by one call.
//!
//! What opens and closes databases is proved over every system that says which calls were made of
//! it. Of the runtime that is not known: that its calls do what they are called for is seen in the
//! code, one line each.
ghost use Rattle.std.specs.Prelude.{◌≡◌, List, [], ◌∷◌, Option, None, is_ok, is_some, option_map, IsTrue};
ghost use Rattle.std.specs.String.{string_bytes};
ghost use Rattle.casebook_program.specs.SystemCalls.{SystemCall, MakesCalls, LooksFor, OpensFiles, DrawsNumber, Connects, Resolves, Describes, Removes, Closes};

use sqlite::{Connection, Error, File, FileStore, Files, Options, Unknown};
use sqlite_disk::Disk;
use sqlite_std_file::{OpenError, open};
use std::fs::Metadata;
use std::hash::{BuildHasher, RandomState};
use std::os::unix::fs::MetadataExt;
use std::time::Duration;
use std::{fs, io, thread};

/// What the system tells of a file: which it is, whether it is a plain file, and how many bytes it
/// has.
#[derive(Clone, Copy, Debug, PartialEq, Eq)]
pub struct FoundFile {
    pub device: u64,
    pub number: u64,
    pub is_plain: bool,
    pub length: u64,
}

/// What opens, closes and removes the files of databases. Of some systems it is known which calls
/// were made of them, and how each was answered.
pub trait DatabaseSystem {
    /// Both files of a database, which nobody else can open while they are open.
    type Files: Drop;

    /// Files that stay open until they are dropped, and of which nothing more is asked.
    type Held: Drop;

    /// A connection to a database in files.
    type Connection: Drop;

    // The calls that were made, the last of them first, where they are known.
    ghost calls: { Self → Option (List SystemCall) };

    /// Whether something is under a path.
    fn look_for(&mut self, path: &str) -> bool
        ensures { MakesCalls (LooksFor path.now result ∷ []) (calls self.old) (calls self.new) };

    /// Opens both files of the database under a path, and makes those that are not there. `Busy`
    /// comes where another process has them open.
    fn open_files(&mut self, path: &str) -> Result<Self::Files, OpenError>
        ensures { MakesCalls (OpensFiles path.now (is_ok result) ∷ [])
            (calls self.old) (calls self.new) };

    /// Lets so many thousandths of a second pass.
    fn pause(&mut self, milliseconds: u64)
        ensures { calls self.new ≡ calls self.old };

    /// A random number.
    fn draw_number(&mut self) -> io::Result<u64>
        ensures { MakesCalls (DrawsNumber (is_ok result) ∷ []) (calls self.old) (calls self.new) };

    /// Connects to the database in these files, which is made where they are empty. Files that
    /// are no database are handed back.
    fn connect(
        &mut self,
        files: Self::Files,
        options: Options,
    ) -> Result<Self::Connection, (Error, Self::Held)>
        ensures { MakesCalls (Connects (is_ok result) ∷ []) (calls self.old) (calls self.new) };

    /// The path without links under which the file is to which a path leads. None where it leads
    /// to none, where a folder on it may not be searched, or out of memory.
    fn resolve(&mut self, path: &str) -> Option<String>
        ensures { MakesCalls (Resolves path.now (option_map string_bytes result) ∷ [])
            (calls self.old) (calls self.new) };

    /// What is under a path itself, where no link is followed, or nothing.
    fn describe(&mut self, path: &str) -> Option<FoundFile>
        ensures { MakesCalls (Describes path.now result ∷ []) (calls self.old) (calls self.new) };

    /// Removes the file under a path, if it can be.
    fn remove(&mut self, path: &str)
        ensures { MakesCalls (Removes path.now ∷ []) (calls self.old) (calls self.new) };

    /// Closes the database of a connection, after which its own file has all of it. Its files are
    /// handed back, or nothing where that failed.
    fn close(&mut self, connection: Self::Connection) -> Option<Self::Held>
        ensures { MakesCalls (Closes (is_some result) ∷ []) (calls self.old) (calls self.new) };
}

/// Both files of a database, of neither of which a sync has failed.
#[derive(Drop)]
pub struct LockedFiles {
    files: Files<File>,
    ghost usable: { IsTrue (⟦<File as Disk>⟧.is_usable files.log)
        × IsTrue (⟦<File as Disk>⟧.is_usable files.db) },
}

/// The system of the runtime. Which calls were made of it is not known.
impl DatabaseSystem for HostRuntime {
    type Files = LockedFiles;

    type Held = Files<File>;

    type Connection = Connection<FileStore<File>>;

    ghost calls = { λ _. None };

    fn look_for(&mut self, path: &str) -> bool {
        fs::metadata(&*self, path).is_ok()
    }

    fn open_files(&mut self, path: &str) -> Result<LockedFiles, OpenError> {
        let files = open(&*self, path, Unknown)?;
        Ok(LockedFiles { files })
    }

    fn pause(&mut self, milliseconds: u64) {
        thread::sleep(&*self, Duration::from_millis(milliseconds));
    }

    fn draw_number(&mut self) -> io::Result<u64> {
        Ok(RandomState::new(&*self)?.hash_one(&0u8))
    }

    fn connect(
        &mut self,
        files: LockedFiles,
        options: Options,
    ) -> Result<Connection<FileStore<File>>, (Error, Files<File>)> {
        let LockedFiles { files } = files;
        match Connection::open_files(self.alloc(), files, options) {
            Ok(connection) => Ok(connection),
            Err((error, left)) => Err((error, left.into_files())),
        }
    }

    fn resolve(&mut self, path: &str) -> Option<String> {
        let real = fs::canonicalize(&*self, path).ok()?;
        String::from_str(self.alloc(), real.as_str()).ok()
    }

    fn describe(&mut self, path: &str) -> Option<FoundFile> {
        let found = fs::symlink_metadata(&*self, path).ok()?;
        Some(FoundFile {
            device: found.dev(),
            number: found.ino(),
            is_plain: found.is_file(),
            length: found.len(),
        })
    }

    fn remove(&mut self, path: &str) {
        let _removed = fs::remove_file(&*self, path);
    }

    fn close(&mut self, connection: Connection<FileStore<File>>) -> Option<Files<File>> {
        match connection.close_files() {
            Ok(files) => Some(files),
            Err((_, store)) => {
                drop(store.close());
                None
            }
        }
    }
}
