//! What maps of names are keyed by: short texts in one block, and hashes that begin with a seed.
//!
//! Whoever writes a log chooses the names in it. If their hashes were known beforehand,
//! names could be chosen that all hash alike, and each search in a map would
//! compare with all of them: a log of `n` records would take `n` squared steps.
//! So the hashes begin with a seed that is drawn when the program starts.
//!
//! A block is eight words, each times a secret factor drawn by SipHash-1-3. Longer names keep
//! SipHash-1-3, since they would want as many secrets.
#![tactic(auto)]

pub mod blocks;
pub mod laws;
pub mod seed;
pub mod short_pairs;
