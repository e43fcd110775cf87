//! What every prefix of a message is told to be.
use fix_framing::frames::{FrameFault, frame_at};
use fix_framing::headers::Headers;
use std::process::Abort;

/// Each proper prefix of the message is truncated.
pub(crate) fn assert_prefixes_truncated<H: Headers>(rt: &impl Abort, message: &[u8]) {
    for size in 0..message.len() {
        assert!(rt; frame_at::<H>(&message[..size], 0) == Err(FrameFault::Truncated));
    }
}
