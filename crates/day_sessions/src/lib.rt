//! The sessions of a day: each symbol of a share is judged by the phases of a trading day, as by
//! itself, and its memory is freed before the next. A symbol that conforms is then looked at by the
//! further checks that are asked for.
#![tactic(auto)]

pub mod answers;
pub mod judged_sessions;
pub mod laws;
pub mod questions;
