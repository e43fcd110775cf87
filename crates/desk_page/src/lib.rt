//! The command `page` of the program `desk`: the verdict on one symbol of two logs is written as a
//! page, with the digests of the very bytes that it is on.
//!
//! `running::run_page` is the top call. It reads the words (`words`) into a request
//! (`requests`), judges the two logs while a shelf takes their digests (`answers`), and writes
//! the page: `pages` is the page by what the logs give, `page_logs` has the names and the
//! digests of the logs, and `drawings` says what makes the picture of a rule. Whoever asks for a
//! page picks that, so that what is said of answers does not depend on how anything is drawn. A
//! symbol that no record has is told to be absent, and a log that is not in its grammar is
//! answered as by an audit. `program` says what `page` is to `command_run`, which says what
//! follows for every command, and `laws` that the words on a page ask for its verdict.
#![tactic(auto)]

mod answers;
pub mod drawings;
pub mod laws;
pub mod page_logs;
mod pages;
pub mod program;
pub mod requests;
pub mod running;
pub mod words;
