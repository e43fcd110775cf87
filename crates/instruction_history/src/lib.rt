//! The history of one symbol: which new orders and replacements an order log holds, what each
//! replaces, and which record ends it. A history that is not well-formed gives its first finding.
//!
//! A record is named by its firm and its id (FIX 4.4, tags 49 and 11). A cancel or a replacement
//! (messages F and G) names its target by the same firm and the target's id (tag 41).
//!
//! One pass over the records keeps a draft: the orders so far, and for each key what it named. An
//! order's `cancelled` so far says whether it is still there, so nothing else has to be remembered.
//! Keys are found by their hash, which has a seed, in constant time on average, and what is kept
//! goes by the orders and keys of the symbol, whatever else the log holds.
#![tactic(auto)]

pub mod faults;
mod findings;
pub mod history;
pub mod history_draft;
pub mod history_or_flaw;
pub mod history_orders;
mod history_so_far;
