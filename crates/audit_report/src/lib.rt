//! Verdicts and how they are written: the text that a desk reads, line by line, and the status that
//! the program ends with.
//!
//! Here: `verdicts` and `statuses` are what is told, `reports` and `lines` how; `summaries`,
//! `certificates` and `tables` have the lines of other commands. A day of symbols is written as the
//! line that counts them (`day_line`), then each report with its symbol before each line, so that a
//! line says of itself whose it is (`symbol_lines`).
//!
//! Proved: each text is exactly the function of its parts that `specs/` says. Nothing is computed
//! here that a rule decides.
#![tactic(auto)]

pub mod certificates;
pub mod day_line;
pub mod line_parts;
pub mod lines;
mod reasons;
pub mod reports;
pub mod statuses;
pub mod summaries;
pub mod symbol_lines;
pub mod tables;
pub mod verdicts;
pub mod words;
