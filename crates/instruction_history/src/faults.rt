//! Why a history has no order list.
ghost use Rattle.instruction_history.specs.declared.faults.HistoryFault.TheVariants.{Found, Memory};
ghost use Rattle.std.specs.Prelude.{◌≡◌};

use audit_base::faults::NoMemory;
use audit_base::findings::Finding;
use thiserror::Error;

/// Why a history has no order list.
#[derive(Clone, Copy, Debug, PartialEq, Eq, Error)]
pub enum HistoryFault {
    /// It is not well-formed: its first finding, of number 1, 2 or 3.
    #[error("the history is not well-formed")]
    Found(Finding),
    /// There was not enough memory.
    #[error("out of memory")]
    Memory,
}

impl From<Finding> for HistoryFault {
    ghost from_gives = { λ finding fault. fault ≡ Found finding };

    fn from(finding: Finding) -> HistoryFault {
        HistoryFault::Found(finding)
    }
}

impl From<NoMemory> for HistoryFault {
    ghost from_gives = { λ _ fault. fault ≡ Memory };

    fn from(_fault: NoMemory) -> HistoryFault {
        HistoryFault::Memory
    }
}
