//! What `plain` makes of a day: each message that is read of it, in whatever dress, as a line of a
//! FIX log of FIX 4.4, with the same body, in the same order.
//!
//! `logs` reads a day of a shelf by a feed of `fix_days`, and writes the text of its messages
//! while it reads; `day_ends` is what is left to be written, with the first bad message, if there
//! is one, or why the day was not written up to its end. `feeds` gives the text that comes with
//! each piece, and `lines` is the taker that makes it of the bodies. `laws` has what holds of every
//! day: what is written is read again as these bodies, and made plain once more it stays the same.
//!
//! Of a day on lines bad messages may be left out, or reported. Then `alone` reads each line alone,
//! `day_writers` says what is written of good and of bad messages, and `by_lines` puts both
//! together to a feed as the others are.
#![tactic(auto)]

mod alone;
mod by_lines;
pub mod day_ends;
mod day_writers;
mod feeds;
pub mod laws;
mod lines;
pub mod logs;
