//! The rule `maximum` of a call: a fair matching, and none has a greater volume.
#![tactic(auto)]

pub mod auditing;
pub mod expecting;
