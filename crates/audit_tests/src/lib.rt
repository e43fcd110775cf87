//! Tests of the auditor as a whole, where files do not say them: sources and sinks that fail,
//! logs that are cut, that are too long or that come in pieces, and large generated logs. They
//! are in a crate of their own, so that a change of a row proves no code again, and `audit_run`
//! is not proved once more with its tests. What the auditor answers over files is said by the
//! folders of `crates/examples/data`.
//!
//! `checks` has what a row is and the runs that check it, `day_logs` and `staircase` have logs
//! that several modules take. `pieces` has logs in pieces of each size, `cuts` logs that end too
//! early, `source_faults` and `sink_faults` sources and sinks that fail, `endless` and `longest`
//! sources that are too long, `fix` the same of FIX logs. `expected_trades` and `large` have
//! trades that `expect` writes and `audit` accepts. `memory_rows` has the call over logs in memory,
//! and `decoded` logs that are read into records and judged.
#![tactic(auto)]

#[cfg(test)]
mod checks;
#[cfg(test)]
mod cuts;
#[cfg(test)]
mod day_logs;
#[cfg(test)]
mod decoded;
#[cfg(test)]
mod endless;
#[cfg(test)]
mod expected_trades;
#[cfg(test)]
mod fix;
#[cfg(test)]
mod large;
#[cfg(test)]
mod longest;
#[cfg(test)]
mod memory_rows;
#[cfg(test)]
mod pieces;
#[cfg(test)]
mod sink_faults;
#[cfg(test)]
mod source_faults;
#[cfg(test)]
mod staircase;
