//! What a call does with a command that reads logs of a shelf one by one and writes one text,
//! apart from which command it is.
//!
//! A program says which commands its words may ask for (`programs`): of each, which log it starts
//! after those that it has read, and what it answers to all of them. It makes the whole answer
//! (`answers`) and hands it to `writing::write_answer`, whose contract says each status with its
//! cause, for every command of the program and every reading that the answer comes from. `laws`
//! lead from what is read of logs to what a command answers, and to completeness: where the shelf
//! holds the logs and nothing fails, the answer is written, or memory ran out. `given_logs` is
//! what two logs give a command that reads both; `corollaries` has what follows over a shelf or a
//! sink in memory.
#![tactic(auto)]

pub mod answers;
pub mod corollaries;
pub mod given_logs;
pub mod laws;
pub mod programs;
pub mod writing;
