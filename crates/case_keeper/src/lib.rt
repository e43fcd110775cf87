//! Cases on file: a keeper holds the verdicts of audits under their labels, and a casebook
//! files them, shows one and lists those that pass a filter. Of a keeper whose cases are known,
//! contracts say which they are; of every keeper they say why a call failed.
#![tactic(auto)]

pub mod case;
pub mod case_list;
pub mod casebook;
mod indexed_cases;
pub mod keeper;
pub mod map_keeper;
