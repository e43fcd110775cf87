//! Runs over generated logs of up to 400,000 records, each within the time of a test.

mod accepted_runs;
mod summaries;
