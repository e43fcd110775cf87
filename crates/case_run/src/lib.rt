//! A run of the program `casebook`: commands that file the verdicts of audits under labels, list
//! and show them.
//!
//! `books::run_book` is the top call: it opens the casebook that the first word names (`opener`)
//! and hands the other words to `running::run_case`, which reads them (`words`) into commands
//! (`commands`) and does these in order. Each is answered whole (`answers`, over `verdicts`, which
//! reads and judges two logs, and `lines`), and then written (`writing`). The contracts of both
//! calls cite Play, which says over the bytes of the logs, the cases and the commands what is left
//! of all three.
#![tactic(auto)]

pub mod answers;
pub mod books;
mod commands;
pub mod halts;
pub mod laws;
pub mod lines;
pub mod map_opener;
pub mod opener;
pub mod running;
pub mod statuses;
mod verdicts;
mod words;
pub mod writing;
