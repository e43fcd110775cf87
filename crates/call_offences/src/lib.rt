//! Every offence under a rule of a call: the findings that stand behind the first one.
//!
//! An audit stops at the first offence. The passes here go on: `matching` asks each deal for the
//! first of the findings 7 to 11, `priority` for 12 and 13, and `listing` takes the one that the
//! first offence asks for. `totals` adds up what each order trades. Each is one pass over the
//! deals, and priority one more over the orders for each side.
#![tactic(auto)]

mod deal_offence;
pub mod listing;
pub mod matching;
mod passed_over;
pub mod priority;
pub mod totals;
