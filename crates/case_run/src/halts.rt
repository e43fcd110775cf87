//! Why a command of a casebook has no answer.
use audit_base::faults::NoMemory;
use audit_base::terms::Which;
use case_keeper::keeper::KeepFault;
use log_verdict::stops::{NoRecords, Stop};

/// Why a command has no answer. No case was changed.
#[derive(Clone, Copy, Debug, PartialEq, Eq)]
pub enum Halt {
    /// The log could not be read.
    ReadFault(Which),
    /// The log has more bytes than it may have.
    TooLong(Which),
    Memory,
    /// The keeper of the cases failed.
    KeeperFault,
}

impl Halt {
    /// Why there are no records of the logs of the command, where that is why it has no answer.
    pub fn stop(self) -> Option<NoRecords> {
        match self {
            Halt::ReadFault(log) => Some(NoRecords::Stopped(Stop::ReadFault(log))),
            Halt::TooLong(log) => Some(NoRecords::Stopped(Stop::TooLong(log))),
            Halt::Memory => Some(NoRecords::Stopped(Stop::Memory)),
            Halt::KeeperFault => None,
        }
    }
}

impl From<NoMemory> for Halt {
    ghost use Rattle.std.specs.Prelude.{◌≡◌};
    ghost use Rattle.case_run.specs.declared.halts.Halt.TheVariants.{Memory};

    ghost from_gives = { λ _ made. made ≡ Memory };

    fn from(_fault: NoMemory) -> Halt {
        Halt::Memory
    }
}

impl From<KeepFault> for Halt {
    ghost use Rattle.std.specs.Prelude.{◌≡◌};
    ghost use Rattle.case_run.specs.Turns.{halt_of_keeper};

    ghost from_gives = { λ fault made. made ≡ halt_of_keeper fault };

    fn from(fault: KeepFault) -> Halt {
        match fault {
            KeepFault::Failed => Halt::KeeperFault,
            KeepFault::Memory => Halt::Memory,
        }
    }
}

impl From<Stop> for Halt {
    ghost use Rattle.std.specs.Prelude.{◌≡◌};
    ghost use Rattle.case_run.specs.Turns.{halt_of_stop};

    ghost from_gives = { λ stop made. made ≡ halt_of_stop stop };

    fn from(stop: Stop) -> Halt {
        match stop {
            Stop::ReadFault(log) => Halt::ReadFault(log),
            Stop::TooLong(log) => Halt::TooLong(log),
            Stop::Memory => Halt::Memory,
        }
    }
}
