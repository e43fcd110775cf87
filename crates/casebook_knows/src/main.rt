//! A program of the gate: what `casebook` does, over logs that are rejected and a label that
//! has a case, with status 1. The stored run of `casebook` itself ends with 0, and a program
//! has one.
#![tactic(auto)]

use casebook_program::program::run_casebook;
use std::process::ExitCode;

/// Ends with the number of the status.
fn main(rt: HostRuntime) -> ExitCode {
    run_casebook(rt)
}
