//! What was read of two logs and what was passed over: how many messages or records of each kind a
//! log has, of which symbols its records are, and from when to when.
//!
//! Here: `day_reading` reads a log of a shelf in its form. A FIX log goes message by message
//! through `message_feed`, where the kind of one that is passed over is counted too; of a CSV log
//! the contents are a collector (`csv_contents`). `contents` has what is known so far:
//! `record_facts` what the records say (`time_spans`), `kind_counts` how often each kind is there,
//! `message_kinds` why a message is passed over, by the values of its fields (`message_values`).
//! `summaries` has what is told, and `contents_text` the text of two logs.
//!
//! Proved: the counts, symbols and times are those of the definitions in `specs/`, and nothing is
//! left out or counted twice (`laws`). Costs: no record is kept; memory goes by the symbols.
#![tactic(auto)]

pub mod contents;
pub mod contents_text;
pub mod csv_contents;
pub mod day_reading;
pub mod kind_counts;
pub mod laws;
pub mod message_feed;
mod message_kinds;
mod message_values;
pub mod record_facts;
pub mod summaries;
pub mod time_spans;
