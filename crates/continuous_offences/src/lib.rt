//! Every offence in continuous trading: of each place at which the rule fails, the finding that the
//! audit would tell if it were the first.
//!
//! An audit stops at the first offence, and may rest what it keeps on a log that conforms so far.
//! Here what is kept follows from the deals as they stand, those of places that failed too. One
//! pass over the orders gives Before, Entered and Size of each (`order_arrivals`). A second pass
//! asks each place for its first finding (`listing`): of its deals by themselves (`scanning`), of a
//! better order that waits (`passing`), and of an order that meets one of the other side
//! (`crossing`). The books may hold orders that do not rest any more: these are taken out when they
//! come to the front (`books`).
#![tactic(auto)]

mod books;
mod crossing;
mod deal_offence;
pub mod listing;
mod passing;
mod scanning;
mod state;
mod state_after_deals;
