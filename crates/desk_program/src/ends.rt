//! What a run of the program ends with: the status of the call that was asked.
ghost use Rattle.std.specs.Prelude.{◌≡◌};
ghost use Rattle.std.specs.Process.{exit_status};
ghost use Rattle.desk_program.specs.Answers.{desk_end_number};

use audit_report::statuses::Status;
use case_run::statuses::CaseStatus;
use std::process::ExitCode;

/// How a run ended, by the call that was asked.
#[derive(Clone, Copy, Debug, PartialEq, Eq)]
pub enum DeskEnd {
    /// `run_desk` or `run_page`, which open no database.
    Run(Status),
    /// `run_filing`, which files or checks cases.
    Filed(CaseStatus),
}

impl DeskEnd {
    /// The number of the status.
    fn number(self) -> u8
        ensures { result ≡ desk_end_number self }
    {
        match self {
            DeskEnd::Run(status) => status.number(),
            DeskEnd::Filed(status) => status.number(),
        }
    }
}

/// The exit code of a run: the number of its status.
pub(crate) fn exit_code(end: DeskEnd) -> ExitCode
    ensures { exit_status result ≡ desk_end_number end }
{
    ExitCode::from(end.number())
}
