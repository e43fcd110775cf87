//! What judging two logs comes to before a database is opened.
use case_run::answers::CaseAnswer;
use digest_keeper::digested::DigestedCase;

/// What two logs come to.
#[derive(Drop)]
pub(crate) enum FilingOutcome {
    /// To cases that are to be filed, all of them or none.
    Cases(Vec<DigestedCase>),
    /// To an answer with which nothing is filed.
    Refused(CaseAnswer),
}
