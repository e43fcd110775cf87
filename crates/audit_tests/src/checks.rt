//! What a row is, the run that checks it, and why it does not hold: a row is the words of a
//! command line, two logs, and the status and the text that the command answers.
//!
//! `rows` checks a row over a source that never fails, `certificates` one of `verify`, `cuts`
//! one whose log ends too early, `source_faults` and `sink_faults` one whose source or sink
//! fails.

pub(crate) mod answers;
pub(crate) mod certificates;
pub(crate) mod cuts;
pub(crate) mod inputs;
pub(crate) mod rows;
pub(crate) mod sink_faults;
pub(crate) mod source_faults;
