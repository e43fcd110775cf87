//! The program `auditor`, as `command_run` speaks of programs.
use audit_report::reports::usage_text;
use command_run::programs::Program;
use command_words::requests::Request;

/// The program `auditor`: which command each request asks for, and its usage line.
pub struct Auditor;

impl Program for Auditor {
    ghost use Rattle.audit_report.specs.Lines.{auditor_usage_line};
    ghost use Rattle.audit_run.specs.Requests.{auditor_command_of};

    type Request = Request;

    ghost command = { auditor_command_of };

    ghost usage = { auditor_usage_line };

    fn usage_line() -> &'static [u8] {
        usage_text()
    }
}
