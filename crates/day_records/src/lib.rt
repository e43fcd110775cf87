//! What is kept of each symbol of a day: its order records, then its trades, each log in one pass
//! over the records of all symbols.
//!
//! Here: `kept_orders` and `kept_trades` keep the records of one symbol small; `day_orders` and
//! `day_trades` keep those of every symbol of a share, found by one look-up of its hash; when a
//! symbol is judged, its judge gets them as `symbol_records`, of which `kept_records` and
//! `symbol_during_trades` make its orders and deals.
//!
//! Proved: what is kept is the records, in their order and with their places; what is made of them
//! is what the logs give of this symbol alone. Not proved: how much memory that takes.
//!
//! Costs: an order record 56 bytes and its names, in two vectors, since an order with its key in a
//! table touches a dozen places in memory. Of a symbol outside the share the name alone is kept.
#![tactic(auto)]

pub mod day_orders;
pub mod day_trades;
pub mod kept_orders;
pub mod kept_records;
pub mod kept_trades;
mod name_rows;
pub mod symbol_during_trades;
pub mod symbol_records;
