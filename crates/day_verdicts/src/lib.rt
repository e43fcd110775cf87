//! The verdicts on the symbols of a day, and its text.
//!
//! A symbol is judged as by itself: `symbol_walk` hands its records to a judge, which makes its
//! orders and deals of them, and its memory is freed before the next. The audit of a rule judges
//! it, and where that accepts it, the further checks that are asked for (`symbol_reports`).
//! What is kept of it is its lines (`judging`), or what a list of verdicts keeps (`verdict_lists`).
#![tactic(auto)]

pub mod judging;
pub mod laws;
pub mod symbol_reports;
pub mod symbol_walk;
pub mod verdict_lists;
