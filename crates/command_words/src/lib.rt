//! The words of a command line: what the programs of the auditor are asked, read by hand.
//!
//! Exactly the well-formed words are taken, each word is read once, and words that are not
//! well-formed take no memory. `arguments` has the words of the command line, which are the
//! program's arguments; `requests` what they may ask for, and `read_words`, which says what
//! they do; `commands` reads the words of each command, by `word_forms` (what a single word
//! is), `options` (what follows the other words), `phase_words` (the phases of a day) and
//! `paths` (words that name logs). Programs with other commands read theirs by the same words.
#![tactic(auto)]

pub mod arguments;
mod commands;
pub mod options;
pub mod paths;
pub mod phase_words;
pub mod requests;
pub mod word_forms;
