//! Two checks beyond the five rules, for who asks for them: that each trade has the price of its
//! resting order, and that none is earlier than its orders.
//!
//! `findings` has what is told, `failing` asks one deal, `checking` all of them, `texts` writes a
//! finding as the other findings are written, `symbol_findings` has a finding of a rule or of a
//! check. `laws` has what holds of them.
#![tactic(auto)]

pub mod checking;
mod failing;
pub mod findings;
pub mod laws;
pub mod symbol_findings;
pub mod texts;
