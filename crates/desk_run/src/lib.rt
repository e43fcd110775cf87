//! What the program `desk` does: from the words of a command line and the two logs of a day to the
//! answer, a status and a text.
//!
//! `running::run_desk` is the top call. It reads the words (`desk_words`), makes the whole answer
//! of the command (`commands`, `days`, `offences`, `digests`, `converting`, `contents`) and hands it
//! to `command_run`, which writes it, or one line, and says what follows for every command
//! (`program` and `given_days` say what those of `desk` are). `plain` and `generated` write their
//! text while they make it. A day is judged symbol by symbol, by a rule (`day_logs`) or by phases
//! (`day_sessions`), and each of its logs may have 34,359,738,368 bytes.
//! The offences of a symbol are told by `offences`, over `symbol_offences`.
//! The digests of two logs are those of `log_digests`, whatever is in them. What is in two logs is
//! told by `contents`, over `log_contents`.
#![tactic(auto)]

mod commands;
mod contents;
mod converting;
mod days;
mod digests;
mod generated;
mod given_days;
mod offences;
mod plain;
pub mod program;
pub mod running;
mod sources;
