//! Why a generated log was not written to its end.
ghost use Rattle.std.specs.Prelude.{◌≡◌};

use audit_base::faults::NoMemory;
use log_source::shelf::Failed;

/// Why a generated log was not written to its end. What was written is a beginning of it.
#[derive(Clone, Copy, Debug, PartialEq, Eq)]
pub enum GenerateFault {
    /// A write failed.
    Sink,
    Memory,
}

impl From<NoMemory> for GenerateFault {
    ghost use Rattle.written_logs.specs.declared.generated_faults.GenerateFault.TheVariants.{Memory};

    ghost from_gives = { λ _ made. made ≡ Memory };

    fn from(_fault: NoMemory) -> GenerateFault {
        GenerateFault::Memory
    }
}

impl From<Failed> for GenerateFault {
    ghost use Rattle.written_logs.specs.declared.generated_faults.GenerateFault.TheVariants.{Sink};

    ghost from_gives = { λ _ made. made ≡ Sink };

    fn from(_fault: Failed) -> GenerateFault {
        GenerateFault::Sink
    }
}
