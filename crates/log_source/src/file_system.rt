//! What a shelf over files asks of the system: one call, that opens the file under a path.
//!
//! A file system whose files are known has files that never change. A log that is written to while
//! it is read has no bytes of which an answer could speak.
ghost use Rattle.std.specs.Prelude.{ℕ, Bool, false, List, Option, None};
ghost use Rattle.log_source.specs.FileSystems.{OpensFile};

use std::io::Read;
use std::rt::Files;
use std::{fs, io};

/// Files that are opened by their paths.
///
/// Where its files are known (`tells`), so are the bytes under each path,
/// or that no file is there, and they never change.
pub trait FileSystem {
    /// An open file, which is closed where it is dropped. Its reads give what `Read` says.
    type File: Read + Drop;

    // Whether the bytes of its files are known.
    ghost tells: { Self → Bool };

    // The bytes of the file under a path, or nothing, where its files are known.
    ghost file_at: { Self → List ℕ → Option (List ℕ) };

    /// Opens the file under this path, to be read from its first byte. Err may come for any cause.
    fn open(&self, path: &str) -> io::Result<Self::File>
        ensures { let file = file_at self.now path.now in
            OpensFile (tells self.now) file Self.File.remaining result };
}

/// The files of the runtime. Contracts know nothing of what is under a path.
impl<R: Files> FileSystem for R {
    type File = R::File;

    ghost tells = { λ _. false };

    ghost file_at = { λ _ _. None };

    fn open(&self, path: &str) -> io::Result<R::File> {
        fs::open(self, path)
    }
}
