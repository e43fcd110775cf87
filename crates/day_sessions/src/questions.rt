//! What is asked of a day of phases.
use day_symbols::shares::DayShare;
use further_checks::findings::FurtherChecks;
use session_audit::phases::Phase;

/// What is asked of a day of phases: the sessions of the symbols of a share, and of those that
/// conform whether they pass the further checks.
#[derive(Clone, Copy, Debug)]
pub struct SessionQuestion<'a> {
    pub phases: &'a [Phase],
    /// Whether the tables of symbols that conform are asked for.
    pub table: bool,
    /// Which of the further checks are asked for.
    pub checks: FurtherChecks,
    pub share: DayShare,
}
