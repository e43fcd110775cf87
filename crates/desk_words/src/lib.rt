//! The words of the program `desk`: what it is asked, read by hand, and what it writes for words
//! alone.
//!
//! Exactly the well-formed words are taken, and words that are not well-formed take no memory.
//! `requests` has what words may ask for, and `read_desk_words`, which says what they do;
//! `commands` reads the words of each command, by `options` (what follows the other words),
//! `share_words` (a share of a day), `further_words` (further checks), `offence_words` (what follows
//! the words of `offences`), `word_order` (words that stand behind `--`), `dress_words` (how the
//! messages of a day are dressed), `log_words` (the commands that write logs) and the crate
//! `command_words`, whose words the others are. `texts` has the usage line, the help and the version.
//! `laws` says that words without `--` are read as they stand.
#![tactic(auto)]

pub mod commands;
pub mod dress_words;
mod further_words;
pub mod laws;
mod log_words;
mod offence_words;
mod options;
pub mod requests;
mod share_words;
pub mod texts;
pub mod word_order;
