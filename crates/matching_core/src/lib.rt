//! Deals, their totals, and whether they are a matching: the first part of every rule of a call.
//!
//! Here: `resolving` makes deals of sound trades that are there as a list, each with its bid and its
//! ask. `deals_draft` is handed the trades of a log one after another: `deals_so_far` is what it
//! knows of those of its symbol, `trade_ids` finds an id that came before, by `rising_ids` while ids
//! rise and by `mapped_ids` where they do not; `deals_or_flaw` and `sound_deals` are what comes of
//! them. `totals` adds up what each order has traded, `checking` says whether deals are a matching,
//! `deal_flaws` what is wrong with one of them (findings 7 to 11), and `outcomes` what an audit of
//! any rule answers.
//!
//! Proved: the deals are exactly those of the symbol's trades, or the first finding among these is
//! told; and a list of deals is found to be a matching exactly where it is one, else its first
//! finding. Not proved: how many steps it takes. It is one pass, with a search in a table for each
//! trade whose id does not rise.
#![tactic(auto)]

pub mod checking;
mod deal_flaws;
pub mod deals_draft;
pub mod deals_or_flaw;
mod deals_so_far;
mod mapped_ids;
pub mod outcomes;
pub mod resolving;
mod rising_ids;
mod sound_deals;
pub mod totals;
mod trade_ids;
