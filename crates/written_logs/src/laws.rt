//! Laws of logs that are written, apart from the code. Nothing is computed here: a law is a
//! function's contract, so that the check proves it.
ghost use Rattle.written_logs.specs.Laws.{OrdersAreReadAgain, TradesAreReadAgain, WrittenLogsHaveTheVerdict};

use fix_messages::laws as fix_laws;
use log_verdict::laws::forms_agree;

/// A log that is written of orders, or of trades, whose parts are in their forms is good in either
/// form, and has exactly these records.
pub fn written_logs_are_read_again()
    ensures orders { OrdersAreReadAgain }
    ensures trades { TradesAreReadAgain }
{
    fix_laws::written_logs_are_read_again();
}

/// Two logs that were written of the records of two others, in whatever forms, have the verdict of
/// those on each question, under each rule.
pub fn written_logs_have_the_verdict()
    ensures { WrittenLogsHaveTheVerdict }
{
    forms_agree();
}
