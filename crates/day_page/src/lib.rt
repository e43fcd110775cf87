//! The page of a day, from the day's text: its counts in a sentence, and a table with a row for
//! each symbol. It is made of the text alone, so that what it says is what the text says.
//!
//! `lines` cuts the text into lines and fields, `property_words` says what is broken, `file_names`
//! has the name of the page of a symbol, `rows` the rows, and `day_pages` the page. `laws` says that
//! no two symbols have one page, that a link leads to its page, and that each symbol of a day has
//! its rows.
#![tactic(auto)]

pub mod day_pages;
pub mod file_names;
pub mod laws;
mod lines;
mod links;
mod property_words;
mod rows;
