//! What is read of a day.
use crate::faults::BadMessage;

/// A day that is read to its end, or to its first bad message.
#[derive(Drop)]
pub struct ReadDay<B> {
    /// What has been handed the bodies of the messages, in order, up to the first bad one.
    pub bodies: B,
    /// The first bad message, if there is one.
    pub bad: Option<BadMessage>,
}

/// A day that was ended: how many bodies were handed on, up to the first bad message, and that, if
/// there is one.
#[derive(Clone, Copy, Debug)]
pub struct DayCount {
    /// Below 2^32.
    pub bodies: u32,
    /// The first bad message, if there is one.
    pub bad: Option<BadMessage>,
}
