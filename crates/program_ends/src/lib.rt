//! What the programs are handed by their machine: the arguments of a command line
//! (`command_line`), files and an output (`ends`). And one line on standard error where
//! a program ends above 1, for whoever runs it: which word is wrong and what may be there,
//! which file could not be read and why, at which byte, line or message a log is malformed.
//!
//! No contract speaks of these lines, and no program reads them: standard output has what the
//! contracts say, and nothing else. What they say is taken from the words of the command line, from
//! what the run hands on of how it stopped (`log_verdict::runs`), and from the names that its shelf
//! was asked for (`noted_shelf`).
#![tactic(auto)]

pub mod asked;
pub mod command_line;
mod command_parts;
mod database_faults;
pub mod database_notes;
pub mod ends;
mod log_bytes;
pub mod log_notes;
mod malformed_notes;
pub mod noted_shelf;
pub mod notes;
mod option_faults;
mod option_parts;
pub mod usage_notes;
mod word_parts;
