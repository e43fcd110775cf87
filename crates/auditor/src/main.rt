//! The program `auditor`. What it does is `run_auditor` of `auditor_program`, which the gate runs
//! a second time over logs that are rejected (`auditor_rejects`).
#![tactic(auto)]

use auditor_program::run_auditor;
use std::process::ExitCode;

/// Ends with the number of the status.
fn main(rt: HostRuntime) -> ExitCode {
    run_auditor(rt)
}
