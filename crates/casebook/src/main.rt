//! The program `casebook`: files the verdicts of audits under labels in a database, and lists
//! and shows them.
//!
//! What it does is `run_casebook` of `casebook_program`, which the gate runs a second time with a
//! label that is known (`casebook_knows`).
#![tactic(auto)]

use casebook_program::program::run_casebook;
use std::process::ExitCode;

/// Ends with the number of the status.
fn main(rt: HostRuntime) -> ExitCode {
    run_casebook(rt)
}
