//! What the picture of a call shows, as numbers: the orders of each side as steps in rank order,
//! the volume and the price.
//!
//! `steps` makes the steps of a side, `windows` chooses those that are drawn where there are too
//! many, and `pictures` puts both sides together. Where a step lies on the paper is not said here.
#![tactic(auto)]

pub mod pictures;
pub mod steps;
pub mod windows;
