//! What was asked of which program, as far as notes speak of it.
use audit_base::sizes::LONGEST_LOG;
use log_source::limits::LONGEST_READ;

/// A program that tells why it ended as it did.
#[derive(Clone, Copy, Debug, PartialEq, Eq)]
pub enum ProgramName {
    Auditor,
    Casebook,
    Desk,
}

impl ProgramName {
    /// The word by which it is called.
    pub fn word(self) -> &'static str {
        match self {
            ProgramName::Auditor => "auditor",
            ProgramName::Casebook => "casebook",
            ProgramName::Desk => "desk",
        }
    }

    /// The most bytes that a log may have.
    pub(crate) fn longest_log(self) -> u64 {
        match self {
            ProgramName::Auditor | ProgramName::Casebook => LONGEST_LOG as u64,
            ProgramName::Desk => LONGEST_READ,
        }
    }
}

/// A program, and the words that it was asked.
#[derive(Clone, Copy)]
pub struct Asked<'a> {
    pub program: ProgramName,
    pub words: &'a [String],
}

impl Asked<'_> {
    /// Whether one of the words is this one.
    pub(crate) fn has_word(&self, wanted: &str) -> bool {
        for word in self.words {
            if word.as_str() == wanted {
                return true;
            }
        }
        false
    }

    /// Whether the first word, which is that of the command, is this one.
    pub(crate) fn has_command(&self, wanted: &str) -> bool {
        match self.words.first() {
            Some(command) => command.as_str() == wanted,
            None => false,
        }
    }
}
