//! The laws of a call auction, in which all orders meet at once: what the definitions of the rules
//! imply for every order list and every list of deals.
//!
//! Nothing is computed here. Each law is the contract of a function with no body, so that the check
//! proves it, and a caller has it by a call that costs nothing.
#![tactic(auto)]

pub mod existence;
pub mod laws;
pub mod optimum;
