//! Where notes go, and of whom it is asked why.
use std::fs;
use std::io::Eprint;
use std::rt::Files;

/// What writes to standard error, and tells why the system refuses a file. Of neither does any
/// contract speak. What a function is handed as such has no way to standard output, so that a note
/// is never part of an answer.
pub trait Notes: Eprint + Files {
    /// Whether a journal stands beside the database under a path, which SQLite alone can play back.
    fn has_journal(&self, path: &str) -> bool;
}

impl Notes for HostRuntime {
    fn has_journal(&self, path: &str) -> bool {
        match format!(in self.alloc(); "{path}-journal") {
            Ok(journal) => fs::metadata(self, journal.as_str()).is_ok(),
            Err(_) => false,
        }
    }
}
