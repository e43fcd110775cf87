//! What a row is, the call that checks it, and why it does not hold: a row is the words of a
//! command, two logs, and the status and the text that the command answers.

pub(crate) mod answers;
pub(crate) mod cuts;
pub(crate) mod faults;
pub(crate) mod inputs;
pub(crate) mod rows;
