//! The rule `uniform` of a call: a fair matching of one price, and none of one price has a greater
//! volume.
#![tactic(auto)]

pub mod auditing;
pub mod expecting;
