//! Trading days: calls and continuous phases over one history. Orders that a phase leaves are
//! carried into the next one.
//!
//! Here: `phases` has the phases, `days` what an audit of a day answers, `auditing` the audit,
//! which goes over the phases once and judges each by the audit of its rule, over its own order
//! list and the deals whose cause lies in it. `instants` looks for orders that a call does not
//! admit, `entering` makes the order list of a phase, `dealing` picks its deals, `judging` calls
//! the audit of its rule, `leaving` says what is left of each order, `progress` joins these, and
//! `chains` adds up what the chain of each order has traded. `questions` has what is asked of a
//! symbol. `verdicts` judges what two logs give of it, whether they were read for it alone or with
//! a whole day; `texts` writes a day that conforms.
//!
//! Proved: a day conforms exactly where each phase does and no call has an order that does not
//! rest, else the first offence is given, and both are one (`laws`, `session_laws`). Costs: a pass
//! over all orders for each phase.
#![tactic(auto)]

pub mod auditing;
mod chains;
pub mod days;
mod dealing;
mod entering;
mod instants;
mod judging;
pub mod laws;
mod leaving;
pub mod phases;
mod progress;
pub mod questions;
pub mod session_laws;
pub mod texts;
pub mod verdicts;
