//! Fairness: an order that trades is not outranked by an order of its side that is short.
#![tactic(auto)]

pub mod checking;
pub mod laws;
mod passing;
