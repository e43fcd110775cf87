//! Tests of what all else is built on: values and their texts, reports of bad places, the fields of
//! FIX bodies, the reading and writing of logs, seeds of hashes, and casebooks in memory. They stand
//! in a crate of their own, so that no crate that they try is proved once more with its tests. A test
//! is proved as all code is, so one goes through many rows.
//!
//! `values` has names, numbers, prices and times, `bodies` bodies of FIX messages with their fields,
//! and `tags` what is found and written in them.
//! `taking` reads logs from shelves, `opening` reads them from the files in memory of `stored_files`,
//! and `putting` writes to sinks. `seeds` has seeds of hashes, and `casebooks` files cases.
#![tactic(auto)]

#[cfg(test)]
mod bodies;
#[cfg(test)]
mod casebooks;
#[cfg(test)]
mod opening;
#[cfg(test)]
mod putting;
#[cfg(test)]
mod reports;
#[cfg(test)]
mod seeds;
pub mod stored_files;
#[cfg(test)]
mod tags;
#[cfg(test)]
mod taking;
#[cfg(test)]
mod values;
