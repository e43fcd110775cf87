//! Deals in one canonical form: what each pair of a bid and an ask trades, whatever deals it is
//! made of; and the trade records that deals are written as.
#![tactic(auto)]

mod parts;
pub mod shares;
pub mod trades;
