//! Casebooks in files, for the program `casebook`: an opener of databases by their paths, a run
//! after which the database is closed, and what the program does with what its machine gives it.
#![tactic(auto)]

pub mod closing;
pub mod database_files;
pub mod database_system;
pub mod databases;
pub mod file_opener;
pub mod program;
