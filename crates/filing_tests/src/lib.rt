//! Tests of filing, over logs, an opener or a casebook, and a sink in memory: whole calls of
//! `run_filing` and of `run_case`, and the digests of logs that are filed with a verdict.
#![tactic(auto)]

#[cfg(test)]
mod calls;
#[cfg(test)]
mod case_rows;
#[cfg(test)]
mod check_rows;
#[cfg(test)]
mod digest_rows;
#[cfg(test)]
mod fault_rows;
#[cfg(test)]
mod file_all_rows;
#[cfg(test)]
mod word_rows;
