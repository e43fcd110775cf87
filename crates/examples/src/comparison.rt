//! What a run answered, beside what its example wants.
ghost use Rattle.std.specs.Prelude.{◌≡◌, ◌↔◌, IsNone};
ghost use Rattle.examples.specs.Comparisons as spec;

use audit_report::statuses::Status;
use std::fmt;

/// How a run differs from its example.
#[derive(Clone, Copy, Debug, PartialEq, Eq)]
pub(crate) enum Difference {
    /// It answered the first status, and the second is wanted.
    Status(u8, u8),
    /// It wrote another report.
    Report,
}

impl fmt::Display for Difference {
    fn fmt<W: fmt::Write>(&self, f: &mut fmt::Formatter<W>) -> fmt::Result {
        match self {
            Difference::Status(status, wanted) => {
                write!(f, "the status is {status}, and {wanted} is wanted")
            }
            Difference::Report => f.write_str("the report differs"),
        }
    }
}

/// The status that goes with a report, by its first word.
fn status_of(report: &[u8]) -> Status
    ensures { result ≡ spec.status_of_report report.now }
{
    if report.starts_with(b"rejected,") {
        return Status::Rejected;
    }
    if report.starts_with(b"refused,") {
        return Status::Rejected;
    }
    if report.starts_with(b"usage:") {
        return Status::Usage;
    }
    if report.starts_with(b"malformed,") {
        return Status::Malformed;
    }
    if report.starts_with(b"readfault,") {
        return Status::ReadFault;
    }
    if report.starts_with(b"toolong,") {
        return Status::TooLong;
    }
    Status::Accepted
}

/// How a run that answered this status and wrote this differs from what the example's report wants.
pub(crate) fn compare(report: &[u8], status: Status, written: &[u8]) -> Option<Difference>
    ensures { IsNone result ↔ ((status ≡ spec.status_of_report report.now) × (written.now ≡ report.now)) }
{
    let wanted = status_of(report);
    if status != wanted {
        return Some(Difference::Status(status.number(), wanted.number()));
    }
    if written != report {
        return Some(Difference::Report);
    }
    None
}
