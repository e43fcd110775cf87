//! The rule of continuous trading: whether deals conform to it, else the first offence, and the
//! Expected trades.
//!
//! Here: `auditing` has the audit, which goes over the order records once and looks at each with
//! the deals of which it is the cause. `indexed_deals` says which deals these are, and
//! `incoming_deals` in which order they stand. Of one record `arrival` says how its order arrives,
//! `scanning` and `checking` whether its deals keep their limits and the sizes of their orders
//! (conservation), `passing` whether an order ahead is passed over (priority), `spreading` whether
//! it meets one that rests (spread); `endings` has the orders that it ends. `state` and
//! `dealing_state` are what is known between records, `books` the orders that rest, `leaving` what
//! is left of them, `order_numbers` and `chains` what each order and its chain have traded.
//! `expecting` makes the Expected trades: `expected_trades` goes over the records, `book_fills` and
//! `fills` let an order trade with the best of the other side, `pairs` puts the deals in order.
//!
//! Proved: the audit accepts exactly where the rule holds at every record, and else tells the first
//! offence with what shows it; the Expected trades are those of the definition. The definitions are
//! `Continuous`, `ContinuousRules`, `ContinuousOffences` and `Expected` of `audit_base`; that the
//! Expected trades conform, and alone, are laws (`continuous_laws`). Not proved: how many steps it
//! takes. It is one pass over records and deals, with a step in a book for each order that comes,
//! goes or trades.
#![tactic(auto)]

mod arrival;
pub mod auditing;
mod book_fills;
mod books;
mod chains;
mod checking;
mod dealing_state;
mod endings;
mod expected_trades;
pub mod expecting;
mod fills;
pub mod incoming_deals;
mod indexed_deals;
mod leaving;
mod order_numbers;
mod pairs;
mod passing;
mod scanning;
mod spreading;
mod state;
