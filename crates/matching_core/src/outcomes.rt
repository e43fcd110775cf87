//! What an audit of a rule answers.
ghost use Rattle.matching_core.specs.declared.outcomes.CheckFault.TheVariants.{Found, Memory};
ghost use Rattle.std.specs.Prelude.{◌≡◌};

use super::totals::Totals;
use audit_base::faults::NoMemory;
use audit_base::findings::Finding;
use audit_base::orders::Cut;
use thiserror::Error;

/// Why deals are not taken.
#[derive(Clone, Copy, Debug, PartialEq, Eq, Error)]
pub enum CheckFault {
    /// The first finding.
    #[error("the trades break the rule")]
    Found(Finding),
    #[error("out of memory")]
    Memory,
}

impl From<Finding> for CheckFault {
    ghost from_gives = { λ finding fault. fault ≡ Found finding };

    fn from(finding: Finding) -> CheckFault {
        CheckFault::Found(finding)
    }
}

impl From<NoMemory> for CheckFault {
    ghost from_gives = { λ _ fault. fault ≡ Memory };

    fn from(_fault: NoMemory) -> CheckFault {
        CheckFault::Memory
    }
}

/// What each order traded in deals that conform, and the volume.
#[derive(Debug, Drop)]
pub struct Reached {
    pub traded: Totals,
    /// The price that shows that the volume is the greatest, for the rules that ask for that.
    pub bound: Option<Cut>,
}

/// Whether the deals conform to a rule.
#[derive(Debug, Drop)]
pub enum Outcome {
    Conforms(Reached),
    /// They do not, and this is the first offence.
    Broken(Finding),
}
