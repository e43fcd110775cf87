//! FIX messages on the bytes of a log. A message is in a frame: its version, as `8=FIX.4.4`, the
//! length of its body, the body, and a checksum. This crate finds the frames of a log exactly,
//! whole or piece by piece, and names the first test that a broken one fails.
//!
//! `headers` has the versions that a log may have: FIX 4.4 alone, or any. `frames` looks at bytes
//! that are all there, `framer` at bytes that come in pieces, `breaks` at the line ends between
//! messages, and `writing` makes a frame of FIX 4.4.
#![tactic(auto)]

pub mod breaks;
pub mod framer;
pub mod frames;
pub mod headers;
pub mod laws;
pub mod writing;
