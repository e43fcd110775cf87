//! What follows of a day that is judged by phases, as contracts that compute nothing.
ghost use Rattle.day_sessions.specs.Laws.{OneSessionAnswer, SharesOfPhasesAreTheDay};

use day_symbols::laws::shares_are_the_day;
use log_verdict::laws::records_are_in_range;
use session_audit::session_laws::one_session;

/// Two answers to a question about two logs, by phases, have one text and one status, whatever
/// forms the logs are in.
pub fn one_session_answer()
    ensures { OneSessionAnswer }
{
    one_session();
    records_are_in_range();
}

/// By phases, however many shares a day has, each of its symbols is in exactly one of them, with the
/// very lines that it has without a share, those of the further checks too.
pub fn shares_of_phases_are_the_day()
    ensures { SharesOfPhasesAreTheDay }
{
    one_session();
    records_are_in_range();
    shares_are_the_day();
}
