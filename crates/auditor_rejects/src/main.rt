//! A program of the gate: what `auditor` does, over logs that are rejected, with status 1. The
//! stored run of `auditor` itself is of logs that are accepted, and a program has one.
#![tactic(auto)]

use auditor_program::run_auditor;
use std::process::ExitCode;

/// Ends with the number of the status.
fn main(rt: HostRuntime) -> ExitCode {
    run_auditor(rt)
}
