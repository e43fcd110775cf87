//! Tests of pages, in a crate of their own, so that no library is proved once more with its tests.
#![tactic(auto)]

#[cfg(test)]
mod checks;
#[cfg(test)]
mod days;
#[cfg(test)]
mod markup;
#[cfg(test)]
mod names;
#[cfg(test)]
mod verdicts;
