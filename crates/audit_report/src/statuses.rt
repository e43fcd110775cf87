//! The statuses that the program ends with.
ghost use Rattle.std.specs.Prelude.{◌≡◌};
ghost use Rattle.audit_report.specs.Statuses.{status_number};

/// How a command ended. The numbers of the statuses are 0 to 7, in this order.
#[derive(Clone, Copy, Debug, PartialEq, Eq, Hash)]
pub enum Status {
    /// The command was done in full; for an audit, the log conforms.
    Accepted,
    /// There is a finding; for `verify`, a line of the certificate does not agree.
    Rejected,
    /// The words of the command line are not well-formed.
    Usage,
    /// A log is not in its grammar.
    Malformed,
    /// A log could not be read.
    ReadFault,
    /// The text could not be written in full.
    WriteFault,
    /// A log has more bytes than the program reads: 67,108,864 for `auditor`, 34,359,738,368 for
    /// `desk`.
    TooLong,
    /// There was not enough memory.
    Memory,
}

impl Status {
    /// The number of the status, from 0 to 7.
    pub fn number(self) -> u8
        ensures { result ≡ status_number self }
    {
        match self {
            Status::Accepted => 0,
            Status::Rejected => 1,
            Status::Usage => 2,
            Status::Malformed => 3,
            Status::ReadFault => 4,
            Status::WriteFault => 5,
            Status::TooLong => 6,
            Status::Memory => 7,
        }
    }
}
