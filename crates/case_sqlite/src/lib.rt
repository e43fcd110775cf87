//! Cases on file in a database: a keeper that has them in the table `cases` of any store of
//! `sqlite`, a file that other programs open or memory. Its cases are not known to contracts.
//! What it gives is a case, has the label or passes the filter that was asked for, and each
//! refusal is counted.
#![tactic(auto)]

pub mod answers;
pub mod case_rows;
mod codes;
pub mod faults;
pub mod laws;
pub mod sql_keeper;
mod table;
