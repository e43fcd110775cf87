//! Short orders: those that are not fully traded (LeavesQty > 0). `ranked` finds the best of a side
//! along its rank, `searching` without one.
#![tactic(auto)]

pub mod ranked;
pub mod searching;
