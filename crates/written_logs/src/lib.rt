//! Logs written in either form: canonical CSV, or FIX messages.
//!
//! Here: `texts` writes order records, the whole log or what stands before and in it; `converting`
//! writes the records of a log of a shelf in another form, by the collector `message_log`;
//! `generating` writes the generated order log while it is made, for whoever feeds it to an engine
//! of their own.
//!
//! Proved: what is written is read again as the same records, and has the verdicts of the log that
//! it came from (`laws`, `generated_laws`). Costs: a converted log is held as text, a generated one
//! goes out block by block, so its memory does not go by its length.
#![tactic(auto)]

pub mod converting;
pub mod generated_faults;
pub mod generated_laws;
pub mod generating;
pub mod laws;
mod message_log;
pub mod texts;
