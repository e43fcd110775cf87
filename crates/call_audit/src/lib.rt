//! What the rules of a call share: a fair matching and its totals, and, for the rules that ask for
//! the greatest volume, the audit against it with its finding and the quantities that are due.
#![tactic(auto)]

pub mod auditing;
mod dues;
pub mod fair_matchings;
