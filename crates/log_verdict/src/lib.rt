//! The verdict on two logs of a shelf: each is read in its form, piece by piece, and handed
//! record by record to what is kept of it; what they give is judged.
//!
//! `sources` says where a log is and how it is read. `reading` hands the records of one log to a
//! collector; `both_logs` reads the order log and then the trade log, up to the rule, and hands their
//! records to whatever is kept beside it (`both`);
//! `verdicts::verdict_on` is the verdict on both. All commands that judge two logs use one of
//! these. `runs` is what a call leaves that does. `decoding` reads a log that is there as a whole.
//! In `specs/`, `LogVerdicts` has the verdict on the bytes of two logs, apart from how they were
//! read, and `Steps` what a call knows of a shelf.
#![tactic(auto)]

pub mod both;
pub mod both_logs;
pub mod decoding;
pub mod laws;
pub mod reading;
pub mod reading_through;
pub mod runs;
pub mod sources;
pub mod stops;
pub mod verdicts;
