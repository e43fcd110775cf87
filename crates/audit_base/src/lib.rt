//! The words of a double auction: what an order and a trade are, the forms they are written in,
//! and what a finding about them says. Every other crate speaks in these types, and the
//! definitions of the auction rules are in this crate's `specs/`.
#![tactic(auto)]

pub mod columns;
pub mod digits;
pub mod faults;
pub mod field_texts;
pub mod findings;
pub mod flaws;
pub mod names;
pub mod numbers;
pub mod order_lines;
pub mod orders;
pub mod ranges;
pub mod records;
pub mod sizes;
pub mod stamp_reader;
pub mod stamps;
pub mod terms;
pub mod texts;
