//! How great a volume can be. At each price from 0 to 10^18 units there are the demand (what the
//! bids with limit at least that price ask for), the supply (what the asks with limit at most it
//! offer) and the cut (the demand, and what the asks with limit below it offer). Orders that a
//! record cancels do not count.
//!
//! No matching has a volume above a cut, and none of one price has one above the executable volume
//! at that price, the smaller of demand and supply. So the least cut bounds every matching, and the
//! greatest executable volume every matching of one price.
//!
//! `direct` adds up the orders for one price, in one pass and with no memory. `sums` sorts both
//! sides once and then adds up the limits to any price, and from there to the next. `extremes`
//! finds the least cut and the greatest executable volume over all prices: they are reached at the
//! limits of one side, so it asks there alone, by rising limit, and adds each limit once. `laws`
//! says what holds of every order list.
#![tactic(auto)]

mod active_orders;
mod adding;
pub mod direct;
pub mod extremes;
pub mod laws;
mod limits;
pub mod sums;
