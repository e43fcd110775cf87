//! The picture of the rule that a verdict is by: of a call the orders of both sides as steps, of
//! continuous trading the best limits by record, and the book right before the offending one.
//!
//! `pictures` picks the picture by the rule, and `offending` has the place that it is about.
#![tactic(auto)]

mod offending;
pub mod pictures;
