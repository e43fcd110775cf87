//! A whole day from the two logs of a shelf: each is read once, piece by piece, in its form, and
//! its records are handed to what is kept of all symbols; what they give is judged, symbol by
//! symbol.
//!
//! `reading::read_day` reads the order log and then the trade log, up to the rule;
//! `answers::verdicts_on` judges what they give. A log that is out of its grammar is answered
//! by its first bad place, and reports that do not pair by finding 4: both are of the logs, and of
//! no symbol.
#![tactic(auto)]

pub mod answers;
pub mod before_rule;
pub mod laws;
pub mod reading;
pub mod texts;
