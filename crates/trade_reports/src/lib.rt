//! The trade reports of a FIX log, and the trades that they pair into:
//! a trade is two reports with one SecondaryExecID (tag 527), one of each side.
//!
//! `reports` has the report, and those of a trade, which `laws` says to pair into the trade again.
//! `pairing_draft` is handed reports one after another and hands on the trades of their pairs;
//! `first_reports` has the reports that wait for a second one, all but the last of them in
//! `earlier_reports`, by their ids; `pairs` says what two reports give. `pairing` pairs the reports
//! of a whole log, and has what a trade log gives. How reports are paired is said in
//! `specs/Pairings`.
#![tactic(auto)]

mod earlier_reports;
mod first_reports;
pub mod laws;
pub mod pairing;
pub mod pairing_draft;
mod pairs;
pub mod reports;
