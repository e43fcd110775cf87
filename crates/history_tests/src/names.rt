//! Names and keys of records.
use audit_base::names::{Key, Name, read_name};
use std::process::Abort;

/// The name that the text is.
pub(crate) fn name(rt: &impl Abort, text: &str) -> Name {
    read_name(text.as_bytes()).expect(rt, "a name")
}

/// The key of a firm's record.
pub(crate) fn key(rt: &impl Abort, firm: &str, id: &str) -> Key {
    Key {
        firm: name(rt, firm),
        id: name(rt, id),
    }
}
