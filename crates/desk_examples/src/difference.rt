//! How an answer differs from the one that is wanted.
use std::fmt;

/// In what the answer to a line of words differs.
#[derive(Drop)]
pub(crate) enum Difference {
    /// The line was answered by the first status, and the second is wanted.
    Status(String, u8, String),
    /// Another text was written.
    Text(String),
}

impl fmt::Display for Difference {
    fn fmt<W: fmt::Write>(&self, f: &mut fmt::Formatter<W>) -> fmt::Result {
        match self {
            Difference::Status(line, status, wanted) => {
                write!(f, "{line}: the status is {status}, and {wanted} is wanted")
            }
            Difference::Text(line) => write!(f, "{line}: the text differs"),
        }
    }
}
