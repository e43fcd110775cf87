//! Order lists, as audits read them. An order has 48 bytes, with a number in place of its key: the
//! names are asked for where a text shows them.
//!
//! Here: `stored` is what is kept of an order, and `keys` the one table of names, with the key of
//! each number and, until the list is made, the number of each key. `listed` is one order as audits
//! read it, `lists` the list, and `changed` a list of its orders with other terms, as a phase of a
//! day has them. `findings` gives a flaw its names, and `kept_seen` says what of a key is kept.
//!
//! Proved: what is read of the list is what the order list of the records has. Not proved: how large
//! it is in memory.
#![tactic(auto)]

pub mod changed;
mod findings;
mod kept_seen;
pub mod keys;
pub mod listed;
pub mod lists;
pub mod stored;
