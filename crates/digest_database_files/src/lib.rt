//! Databases of cases with digests in files, for the commands that file and check cases: an
//! opener of them by their paths, which makes one that is not there only where it is asked to, and
//! the call of filing, after which the database is closed.
#![tactic(auto)]

pub mod closing;
pub mod file_opener;
