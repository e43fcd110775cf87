//! A large order log to try things on: the records of one symbol, made from a first number,
//! the same at each run. Their history is well-formed, so that they can be audited and matched.
//!
//! `fields` makes what one record holds, from the record's number and the state of the generator;
//! `generator` goes from state to state.
#![tactic(auto)]

mod fields;
pub mod generator;
