//! Tests of the picture of continuous trading, in a crate of their own, so that no library is
//! proved once more with its tests.
#![tactic(auto)]

#[cfg(test)]
mod continuous_pages;
#[cfg(test)]
mod continuous_rows;
#[cfg(test)]
mod many_places;
#[cfg(test)]
mod records;
