//! Tests of databases of cases, with digests and without, as texts: what `desk` and `casebook` say
//! over one, and the rows that are in it. The database is on a disk in memory whose files may stop.
#![tactic(auto)]

#[cfg(test)]
mod calls;
#[cfg(test)]
mod commands;
#[cfg(test)]
mod connection_opener;
#[cfg(test)]
mod disk_rows;
#[cfg(test)]
mod disks;
#[cfg(test)]
mod keepers;
#[cfg(test)]
mod logs;
#[cfg(test)]
mod stopped_rows;
#[cfg(test)]
mod tables;
