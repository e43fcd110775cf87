//! The verdict on two logs.
ghost use Rattle.std.specs.Prelude.{◌≡◌};
ghost use Rattle.audit_report.specs.Statuses.{verdict_status};

use super::statuses::Status;
use super::tables::Table;
use audit_base::faults::BadPlace;
use audit_base::findings::Finding;
use audit_base::names::Name;
use audit_base::orders::Cut;
use audit_base::terms::{Rule, Which};

/// What is reported of a log that conforms.
#[derive(Debug, Drop)]
pub struct Accepted {
    pub rule: Rule,
    pub symbol: Name,
    /// How many new orders and replacements of the symbol there are.
    pub orders: u32,
    /// How many trades of the symbol there are.
    pub trades: u32,
    /// The sum of their quantities.
    pub volume: u128,
    /// The price that shows that the volume is the greatest, for the rules `Uniform` and `Maximum`.
    pub bound: Option<Cut>,
    pub table: Table,
}

/// The one answer of an audit.
#[derive(Debug, Drop)]
pub enum Verdict {
    /// The log conforms to the rule.
    Accepted(Accepted),
    /// It does not conform, and this is the one finding: of a log,
    /// or the first offence under the rule.
    Rejected(Finding),
    /// A log is not in its grammar, and this is its first bad place.
    Malformed { log: Which, bad: BadPlace },
}

/// The status of the verdict: `Accepted`, `Rejected` or `Malformed`.
pub fn status_of(verdict: &Verdict) -> Status
    ensures { result ≡ verdict_status verdict.now }
{
    match verdict {
        Verdict::Accepted(_) => Status::Accepted,
        Verdict::Rejected(_) => Status::Rejected,
        Verdict::Malformed { .. } => Status::Malformed,
    }
}
