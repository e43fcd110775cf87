//! What is asked of one symbol of a day of phases.
use crate::phases::Phase;
use audit_base::names::Name;

/// What is asked of a symbol: whether its trades conform phase by phase.
#[derive(Clone, Copy, Debug)]
pub struct PhaseQuestion<'a> {
    pub symbol: Name,
    pub phases: &'a [Phase],
    /// Whether a line of each order is wanted, in the text of a session that conforms.
    pub table: bool,
}
