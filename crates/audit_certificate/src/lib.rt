//! Certificates of calls. A certificate is a short text that shows, to whoever has the two logs,
//! that the trades conform to `uniform` or `maximum`: each of its lines is checked by counting,
//! with no matching made and no trust in who wrote it.
//!
//! `certify` writes the certificate of deals that conform, `verify` checks any text line by line,
//! and `laws` says why a text that agrees shows that the deals conform, and `one_answer` that there
//! is one certificate and one answer to a text. `counting` adds up what each order trades, `heads`,
//! `bounds`, `last_orders` and `order_lines` have the four kinds of lines, `texts` writes them and
//! `lines` cuts a text into lines.
#![tactic(auto)]

mod bounds;
pub mod certifying;
mod counting;
pub mod faults;
mod heads;
mod last_orders;
pub mod laws;
mod lines;
pub mod one_answer;
mod order_lines;
mod texts;
pub mod verifying;
