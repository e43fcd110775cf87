//! Runs over FIX logs that are cut at every length, and over a source that fails.

mod cuts;
pub(crate) mod messages;
mod source_faults;
