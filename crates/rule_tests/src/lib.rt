//! Tests of calls below all texts of logs that no program makes by themselves: the trades that are
//! expected of an order list, and whether an order is passed over. They are in a crate of their own,
//! so that no audit is proved once more with its tests. What else the rules find is said by the
//! folders of `crates/examples/data`.
//!
//! `records` makes the records of these logs, and what the audits are handed of them.
//! `expected_trades` has the trades that the audits of calls accept, and `fair_matchings` the check of
//! an order that is passed over.
#![tactic(auto)]

#[cfg(test)]
mod expected_trades;
#[cfg(test)]
mod fair_matchings;
#[cfg(test)]
mod records;
