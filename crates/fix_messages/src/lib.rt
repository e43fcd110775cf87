//! What the messages of a FIX 4.4 log mean: the record of an order or of a report of a trade,
//! nothing, or the first test that the message fails; and how records are written as messages.
//!
//! `orders` and `reports` read one message by the table of its type, `meanings` has their
//! answers, and `entries` is the trait by which both kinds of log are read from their bodies: by
//! `feeds` in pieces, by `logs` as a whole; `reading_laws` says that each log is read in one way.
//! `writers` writes messages, and `laws` says that they are read again. `pairing` and
//! `pairing_draft`, which make trades of reports, are re-exported from `trade_reports`. What the
//! tables are is in `specs/`: `Rows` (how a tag is tested and read), `OrderTables`,
//! `ReportTable`, `Bodies` (what a body says, its fields' faults included) and `Written` (what is
//! written).
#![tactic(auto)]

pub mod entries;
pub mod feeds;
mod heads;
pub mod laws;
pub mod logs;
pub mod meanings;
mod message;
mod name_text;
mod order_texts;
pub mod orders;
pub mod reading_laws;
pub mod reports;
mod rows;
pub mod writers;

pub use trade_reports::{pairing, pairing_draft};
