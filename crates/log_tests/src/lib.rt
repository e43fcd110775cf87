//! Tests of logs in their forms, in a crate of their own, so that no library is proved once more
//! with its tests: frames of messages, days in another dress, and feeds, each made by a literal of
//! its fields, which are all that it keeps. What lines, messages and logs are read as or refused
//! for is said by the folders of `crates/examples/data`.
#![tactic(auto)]

#[cfg(test)]
mod csv;
#[cfg(test)]
mod days;
#[cfg(test)]
mod fix_logs;
#[cfg(test)]
mod framing;
