//! Tests of a whole day: the verdicts on the symbols of its shares, as they are written. They stand
//! in a crate of their own, so that no crate of a day is proved once more with its tests.
#![tactic(auto)]

#[cfg(test)]
mod day_texts;
#[cfg(test)]
mod each_symbol;
#[cfg(test)]
mod large_days;
#[cfg(test)]
mod symbol_names;
#[cfg(test)]
mod two_logs;
