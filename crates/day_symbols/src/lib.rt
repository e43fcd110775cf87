//! The symbols of a day: which there are and in what order, and how they are dealt into shares.
//!
//! A day is two logs of many symbols. Its symbols have numbers, from 1, in the order in which
//! each appears first, and a share of the day is every n-th of them.
#![tactic(auto)]

pub mod laws;
pub mod shares;
pub mod symbols;
