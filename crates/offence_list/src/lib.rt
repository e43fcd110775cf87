//! The offences of a log: the findings behind the one that its verdict tells, which under a rule of
//! a call are those of its kind, and how they are written.
//!
//! Here: `offences` has what an offence is, and `kinds` what a first finding is of; `offence_lines`
//! writes the line of one, and that of how many there are. Lists are made by the crates above.
//!
//! Proved: the definitions are the findings of the rules, asked of each deal, or of each place of
//! continuous trading; the list begins with the finding of the verdict and is empty where the log
//! is accepted (`laws`); each line is exactly that of its finding.
#![tactic(auto)]

pub mod answers;
pub mod kinds;
pub mod laws;
pub mod offence_lines;
pub mod offences;
