//! What follows of the session of a symbol, as a contract that computes nothing.
ghost use Rattle.session_audit.specs.VerdictLaws.{SessionIsOne};

use crate::laws::one_day_offence;

/// By the same phases, the same records have one session of a symbol: it conforms, or it does not,
/// and its text is one.
pub fn one_session()
    ensures { SessionIsOne }
{
    one_day_offence();
}
