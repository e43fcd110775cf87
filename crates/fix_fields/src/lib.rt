//! The fields of a FIX 4.4 message body: `tag=value` and SOH (0x01), one after another.
//!
//! `split` reads a body as its list of fields, each with the range of its value: `fields` makes a
//! list, and `read_fields` uses one again. `note_front_fields` makes none: it notes where the
//! values of some tags are, which is what a log of many messages wants. Both are a `taker` that
//! is handed the fields as they are read. `find` looks a tag up in a list, `notes` has what was
//! noted, and `write` appends a field. The value of a data field may hold any byte: it is read by
//! the length field right before it, for the pairs of tags in `pairs`. `laws` says what holds of
//! every body.
#![tactic(auto)]

mod ends;
pub mod field;
pub mod find;
pub mod laws;
mod marks;
pub mod notes;
mod pairs;
pub mod split;
mod tags;
mod taker;
mod values;
pub mod write;
