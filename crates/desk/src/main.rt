//! The program `desk`. What it does is `run_desk_program` of `desk_program`.
#![tactic(auto)]

use desk_program::run_desk_program;
use std::process::ExitCode;

/// Ends with the number of the status.
fn main(rt: HostRuntime) -> ExitCode {
    run_desk_program(rt)
}
