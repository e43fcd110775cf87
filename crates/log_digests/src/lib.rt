//! The SHA-256 digest of a log (FIPS 180-4): which bytes it was that a shelf gave.
//!
//! `digests::digest_log` reads a log of a shelf to its end and gives its digest, whatever bytes
//! it has. It takes no memory for them: `feeds` has the feed that keeps the hash of what it is
//! handed, and one that keeps it beside another feed. `digest_shelf` has the shelf that takes the
//! digests of both logs in the pass in which something else reads them, and `same_logs` one
//! that is handed back with the logs that it had. `digits` and `lines` write digests.
#![tactic(auto)]

pub mod digest_shelf;
pub mod digests;
pub mod digits;
pub mod feeds;
pub mod lines;
pub mod same_logs;
