//! The verdict on the records of two logs: what is asked of them, the stages in which it is
//! decided, and what is reported of an accepted log.
//!
//! `questions` has what is asked, `scopes` what of it a reading needs to know. `before_rule` has
//! what two logs give before the rule is looked at, `rules` hands sound trades to the audit of
//! the rule, `tables` makes the table of an accepted log, and `verdicts` puts them together.
//! `judging` is the same for records that are there as a whole, `laws` has what follows, and
//! `existence` that there is a verdict. Nothing here reads a log: that is for `log_verdict`,
//! which is built on this crate.
#![tactic(auto)]

pub mod before_rule;
pub mod existence;
pub mod judging;
pub mod laws;
pub mod questions;
pub mod rules;
pub mod scopes;
mod tables;
pub mod verdicts;
