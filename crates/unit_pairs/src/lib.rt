//! The Expected trades of a call under the rules `uniform` and `maximum`: the units of quantity of
//! the bids and of the asks, numbered in rank order (price-time priority), meet one by one.
//!
//! Each side's part of the volume is a list of lots, one for an order. One pass along two
//! lists of lots gives the pairs, which are then sorted: n log n for n orders, and no more
//! pairs than orders.
#![tactic(auto)]

mod lots;
mod meeting;
mod numbering;
pub mod pairing;
