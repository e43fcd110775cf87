//! The statuses that the program ends with.
ghost use Rattle.std.specs.Prelude.{◌≡◌};
ghost use Rattle.case_run.specs.Statuses.{case_status_number, ends_run};

/// How a run of commands ended. The numbers of the statuses are 0 to 8, in this order.
#[derive(Clone, Copy, Debug, PartialEq, Eq, Hash)]
pub enum CaseStatus {
    /// The last command was done.
    Done,
    /// The last command was refused. Of `casebook`: the label to file under has a case, or the
    /// label to show has none. Of `desk`: nothing was filed, since a label has a case or is too
    /// long, or the reports of the trade log do not pair; or the label to check has no case, or one
    /// without digests, or the logs are not as that case has them.
    Refused,
    /// The words of the command line are not well-formed.
    Usage,
    /// A log is not in its grammar.
    Malformed,
    /// A log could not be read.
    ReadFault,
    /// The text could not be written in full.
    WriteFault,
    /// A log has more bytes than the program reads: 67,108,864 for `casebook`, 34,359,738,368 for
    /// `desk`.
    TooLong,
    /// There was not enough memory.
    Memory,
    /// The keeper of the cases failed.
    KeeperFault,
}

impl CaseStatus {
    /// The number of the status, from 0 to 8. Takes no memory.
    pub fn number(self) -> u8
        ensures { result ≡ case_status_number self }
    {
        match self {
            CaseStatus::Done => 0,
            CaseStatus::Refused => 1,
            CaseStatus::Usage => 2,
            CaseStatus::Malformed => 3,
            CaseStatus::ReadFault => 4,
            CaseStatus::WriteFault => 5,
            CaseStatus::TooLong => 6,
            CaseStatus::Memory => 7,
            CaseStatus::KeeperFault => 8,
        }
    }

    /// Whether no further command is run: the status is above 1.
    pub(crate) fn ends_run(self) -> bool
        ensures { result ≡ ends_run self }
    {
        match self {
            CaseStatus::Done | CaseStatus::Refused => false,
            _ => true,
        }
    }
}
