//! Cases on file with the digests of their logs in a database: the table `digests` beside the
//! table `cases` of a casebook. What is added is added in one transaction, and each row that is
//! read is tested against what was asked for. What the database holds is not known to contracts;
//! they say which statements ran, and which rows these showed.
#![tactic(auto)]

mod digest_rows;
pub mod sql_digest_keeper;
mod statements;
mod transactions;
