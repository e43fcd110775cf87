//! Cases on file with the digests of their logs: a keeper adds cases with digests, all of a list
//! or none, and finds a case with its digests by its label. A case that was filed without
//! digests is found without them.
#![tactic(auto)]

pub mod digested;
pub mod keeper;
pub mod map_digest_keeper;
