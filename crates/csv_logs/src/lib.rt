//! Logs of an exchange as comma-separated values: the orders or the trades that they hold, or the
//! first bad line; and how such logs are written.
//!
//! `logs` reads a log that is there as a whole, `feeds` one that comes in pieces, and `writers`
//! writes one; `laws` says that each log is read in one way, with numbers in range. A log is cut
//! into lines at each LF before quotes are read, so no field spans two lines. The fields of a
//! line are what the crate `csv` reads from it, and the forms of the fields are those of
//! `audit_base`. What contracts say of lines, fields and logs is in `specs/`: `Lines` (how a log
//! is cut), `Columns`, `OrderLines` and `TradeLines` (what nine fields mean), `Logs` (good and
//! bad logs), `Feeds` (what a feed stands for) and `Written` (the canonical log); `Steps`,
//! `Readers`, `FieldBytes`, `NineFields` and `WrittenLines` have the words of private functions.
#![tactic(auto)]

mod columns;
pub mod entries;
pub mod feeds;
pub mod fields;
pub mod laws;
mod lines;
pub mod log_text;
pub mod logs;
pub mod nine_fields;
mod orders;
mod reader;
mod trades;
pub mod writers;
mod written_lines;
