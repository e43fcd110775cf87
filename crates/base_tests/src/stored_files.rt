//! Files in memory whose bytes are known, for the shelf over files.
ghost use Rattle.std.specs.Prelude.{◌≡◌, true, find};
ghost use Rattle.std.specs.Option.{option_copied};
ghost use Rattle.base_tests.specs.StoredFiles.{bytes_of_path, has_path};

use log_source::file_system::FileSystem;
use std::io;
use std::io::ErrorKind;

/// A file and its path.
#[derive(Clone, Copy)]
pub struct StoredFile<'a> {
    pub path: &'a str,
    pub bytes: &'a [u8],
}

/// A file system of these files, in which the first of a path is found.
#[derive(Clone, Copy)]
pub struct StoredFiles<'a> {
    pub files: &'a [StoredFile<'a>],
}

/// Whether a file has this path.
fn is_at(file: &StoredFile<'_>, path: &str) -> bool
    ensures { result ≡ has_path path.now file.now }
{
    file.path == path
}

/// The first file of this path.
fn file_under<'a, 'b>(files: &'b [StoredFile<'a>], path: &str) -> Option<&'b StoredFile<'a>>
    ensures { option_copied result ≡ find (has_path path.now) files.now }
{
    files.iter().find(|file| is_at(file, path))
}

impl<'a> FileSystem for StoredFiles<'a> {
    type File = &'a [u8];

    ghost tells = { λ _. true };

    ghost file_at = { bytes_of_path };

    fn open(&self, path: &str) -> io::Result<&'a [u8]> {
        match file_under(self.files, path) {
            Some(file) => Ok(file.bytes),
            None => Err(io::Error::from(ErrorKind::NotFound)),
        }
    }
}
