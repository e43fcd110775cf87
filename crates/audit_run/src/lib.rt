//! The auditor: from the words of a command line and two logs to the answer, a status and a text.
//!
//! `running::run` is the top call. It reads the words (`command_words`), makes the whole answer
//! of the command (`commands`) and hands it to `command_run`, which writes it, or one line, and
//! says what follows for every command (`program` and `given_logs` say what the auditor's are).
//! `audit` is the verdict on two logs (`log_verdict`);
//! `judged_answers`, `verifying` and `sessions` go their own way from
//! what is known of two logs before the rule is looked at; `expecting`, `converting` and
//! `generating` are the commands that write logs. The contract of `run` is the claim of the
//! project, composed from the contracts of the crates below; `laws` has what one call makes of
//! what another wrote; `corollaries` has what follows over a shelf or a sink in memory.
//!
//! The face of the library for a caller with logs of its own, which no program of this repository
//! is: `requests` (the words), `decoding` and `judging`.
#![tactic(auto)]

mod commands;
mod converting;
pub mod corollaries;
mod expecting;
mod generating;
mod given_logs;
pub mod in_memory;
mod judged_answers;
pub mod laws;
pub mod program;
pub mod running;
mod sessions;
mod verifying;

pub use command_words::requests;
pub use log_verdict::decoding;
pub use record_verdict::judging;
