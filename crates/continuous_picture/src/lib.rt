//! What the picture of continuous trading shows, as numbers: the best limits of both sides after
//! each record, in columns where there are many places, and the book right before a record.
//!
//! One walk over the places (`walks`) takes the orders as they come and keeps what they have
//! traded. Its books hold all orders that are active, and maybe others: an order that is not active
//! any more never is again, so it is taken out when it stands in front. `columns` notes the least
//! and the greatest best limit of some places each, with the prices of the trades there (`prices`),
//! and `books_at` has the ten best orders of a side that rest before a record. `pictures` has both.
#![tactic(auto)]

mod active;
pub mod books_at;
pub mod columns;
pub mod pictures;
mod prices;
pub mod quotes;
pub mod ranges;
mod walks;
