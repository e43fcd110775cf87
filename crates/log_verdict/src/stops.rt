//! Why nothing is known of two logs, and why they were not read into records.
ghost use Rattle.std.specs.Prelude.{◌≡◌};
ghost use Rattle.log_verdict.specs.BothLogs.{no_records};

use crate::reading::ReadingFault;
use audit_base::faults::{BadPlace, NoMemory};
use audit_base::terms::Which;

/// Why nothing is known of two logs: no verdict, and no report.
#[derive(Clone, Copy, Debug, PartialEq, Eq)]
pub enum Stop {
    /// The log could not be read.
    ReadFault(Which),
    /// The log has more bytes than it may have.
    TooLong(Which),
    Memory,
}

impl From<NoMemory> for Stop {
    ghost use Rattle.std.specs.Prelude.{◌≡◌};
    ghost use Rattle.log_verdict.specs.declared.stops.Stop.TheVariants.{Memory};

    ghost from_gives = { λ _ made. made ≡ Memory };

    fn from(_fault: NoMemory) -> Stop {
        Stop::Memory
    }
}

/// Why two logs were not read into records.
#[derive(Clone, Copy, Debug, PartialEq, Eq)]
pub enum NoRecords {
    /// A log is not in its grammar, and this is its first bad place.
    Malformed { log: Which, bad: BadPlace },
    /// Nothing is known of the logs.
    Stopped(Stop),
}

impl NoRecords {
    /// Why two logs were not read into records, where this one was not.
    pub fn at(log: Which, unread: ReadingFault) -> NoRecords
        ensures { result ≡ no_records log unread }
    {
        match unread {
            ReadingFault::Bad(bad) => NoRecords::Malformed { log, bad },
            ReadingFault::ReadFault => NoRecords::Stopped(Stop::ReadFault(log)),
            ReadingFault::TooLong => NoRecords::Stopped(Stop::TooLong(log)),
            ReadingFault::Memory => NoRecords::Stopped(Stop::Memory),
        }
    }
}
