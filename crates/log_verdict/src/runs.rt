//! What a call over logs leaves.
use crate::stops::NoRecords;

/// What a call leaves: its status; why it has no records of its logs, where it has none, for
/// whoever tells it; and what it hands back to its caller.
#[derive(Drop)]
pub struct RunEnd<S, B> {
    pub status: S,
    pub stop: Option<NoRecords>,
    pub back: B,
}
