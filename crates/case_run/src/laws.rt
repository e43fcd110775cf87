//! That Play is one.
ghost use Rattle.case_run.specs.Laws.{OnePlay};

use log_verdict::laws::one_verdict;

/// Over the same logs and from the same cases, the same commands leave one list of cases, one text
/// and one status: so what the contract of a run says of Play is one answer.
pub fn one_play()
    ensures { OnePlay }
{
    one_verdict();
}
