//! Why no further message of a day is read.
use fix_framing::frames::FrameFault;

/// The first bad message of a day.
#[derive(Clone, Copy, Debug, PartialEq, Eq)]
pub struct BadMessage {
    /// One more than the number of messages before it.
    pub place: u32,
    /// The offset of its first byte in the day's bytes.
    pub offset: u64,
    /// The first test of a frame that fails there.
    pub fault: FrameFault,
}
