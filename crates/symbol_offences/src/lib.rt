//! The offences of one symbol, from the two logs of a shelf to the text that tells them.
//!
//! The two logs are read as for an audit (`log_verdict::both_logs`). Beside what the verdict needs,
//! `order_log` and `trade_log` are handed their records and keep, where that is asked for, the
//! records of the symbol and the times of its trades; `reading` puts both together. `answers` judges
//! what they give, and `verdict_answers` tells it: an accepted log as an audit does, a rejected one
//! with a line for each offence (`listing`), or for each trade that fails a further check
//! (`further`), and behind each line the records that a letter quotes (`quotes`, `record_lines`,
//! found by `places`). A symbol that no record has is told to be absent, which `laws` leads back to
//! what is found of it.
#![tactic(auto)]

pub mod answers;
mod further;
pub mod laws;
mod listing;
pub mod order_log;
mod places;
pub mod questions;
mod quotes;
pub mod reading;
mod record_lines;
pub mod symbol_before_rule;
pub mod trade_log;
mod verdict_answers;
