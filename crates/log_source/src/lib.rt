//! Where the logs come from and where the report goes: shelves that give two logs piece by piece,
//! sinks that take a text piece by piece, and the calls that take a log whole or pump it into
//! a feed. What a shelf holds in memory is known to contracts. Of a shelf over files and a sink
//! over a writer they know what is known of the files and of the writer. Nothing is known of the
//! runtime's files and of standard output: over these the causes of every failure are claimed, and
//! nothing of content.
#![tactic(auto)]

pub mod collector;
pub mod counter;
mod cursors;
pub mod endless_shelf;
pub mod feed;
pub mod file_shelf;
pub mod file_system;
mod in_memory;
pub mod limits;
pub mod memory_shelf;
pub mod memory_sink;
pub mod output;
pub mod pump;
pub mod put;
pub mod quiet_shelf;
pub mod shelf;
pub mod sink;
pub mod std_sink;
pub mod take;
