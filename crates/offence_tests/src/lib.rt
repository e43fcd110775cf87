//! Every offence in continuous trading over random small logs, beside a slow reading of the rules in
//! code. It is a crate of its own, so that no library is proved once more with its tests.
#![tactic(auto)]

#[cfg(test)]
mod every_place;
#[cfg(test)]
mod random_logs;
#[cfg(test)]
mod records;
#[cfg(test)]
mod slow_rules;
