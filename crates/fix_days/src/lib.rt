//! The messages of a day in a form that FIX logs often have: FIX 4.0 to 4.4 and FIXT 1.1, each
//! message of its own version, read from pieces to bodies.
//!
//! `framed` reads messages one after another, as in a FIX log, after a byte order mark if there is
//! one. `lines` reads messages that stand on lines, after anything, and in which a text may stand
//! for SOH. Each hands each body to a taker (`bodies`), and gives at the end the taker and the
//! first bad message (`faults`), if there is one (`read_day`). `laws` has what holds of every day.
//!
//! Of a line, `beginnings` finds where a message may begin, `undressing` makes the bytes that the
//! line stands for, and `looking` says what they are.
#![tactic(auto)]

mod beginnings;
pub mod bodies;
pub mod faults;
pub mod framed;
pub mod laws;
pub mod lines;
mod looking;
mod messages;
pub mod read_day;
mod runs;
mod undressing;
