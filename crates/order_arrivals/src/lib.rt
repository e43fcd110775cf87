//! What is known of the orders of continuous trading, whatever the deals are.
//!
//! Here: `arrivals` gives Before, Entered and Size of each order in one pass, `totals` what each
//! has traded in the deals of the first orders, `resting` whether an order rests then. Before is a
//! sum along a chain of replacements: two records may replace one order, and an amount may be
//! added to an order that has been replaced, so one running total a chain is not enough.
//! `families` numbers the orders so that those that come from one by replacements are one range,
//! `prefix_sums` adds up the amounts before a number in a tree, and `sums` joins them.
//!
//! Proved: each number is that of its definition, for any deals. Costs: log n steps for each order
//! and for each deal.
#![tactic(auto)]

pub mod arrivals;
pub mod dealt_orders;
mod families;
mod prefix_sums;
pub mod resting;
pub mod sums;
pub mod totals;
