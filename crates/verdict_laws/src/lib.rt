//! The laws of a verdict under the five rules together: what the definitions imply for the records
//! of every two logs, whatever rule is asked for.
//!
//! `histories` has what holds of the order list of every history, `existence` that some
//! trades conform and that there is one verdict. They rest on the laws of a call and on those
//! of continuous trading, and call them. Nothing is computed here: a law is the contract
//! of a function, so that the check proves it, and a caller has it by a call that costs nothing.
#![tactic(auto)]

pub mod existence;
pub mod histories;
