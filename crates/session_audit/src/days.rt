//! What an audit of a day answers.
use audit_base::findings::Finding;
use matching_core::totals::Totals;

/// What each order has traded over a day, and the volume of the day.
pub type DayTotals = Totals;

/// Whether a day conforms.
#[derive(Debug, Drop)]
pub enum Day {
    Conforms(DayTotals),
    /// It does not, and this is the first offence.
    Broken(Finding),
}
