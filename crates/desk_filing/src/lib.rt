//! The commands `file`, `file-all` and `check` of the program `desk`: verdicts on two logs are
//! filed in a database, with the digests of the bytes that they are on, and logs are compared with
//! a case that was filed.
//!
//! Here: `running::run_filing` is the top call. It reads the words (`words`) into a request
//! (`requests`), judges the two logs while a shelf takes their digests (`judging`, by
//! `digested_verdicts`, in one pass over each), then opens the database (`opener`, `databases`) and
//! files the cases (`filing`), or tells what is not as a case has it (`checking`, `differences`).
//!
//! Proved: what one command leaves is said over the bytes of the logs and what is on file
//! (`specs/Turns`), and is one, and what was filed is found to be the same (`laws`). Not proved: what the database has on its disk.
#![tactic(auto)]

mod answers;
mod checking;
mod checking_databases;
mod databases;
mod days;
mod differences;
pub mod digested_verdicts;
mod filing;
mod judging;
pub mod laws;
mod lines;
pub mod map_digest_opener;
pub mod opener;
pub mod requests;
pub mod running;
pub mod words;
mod writing;
