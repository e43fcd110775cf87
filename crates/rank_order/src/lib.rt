//! Price-time priority: which of two orders of a side is better, and the orders of a side from the
//! best to the worst.
#![tactic(auto)]

pub mod comparing;
pub mod ranking;
pub mod ranks;
