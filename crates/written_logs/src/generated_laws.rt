//! Laws of generated logs, apart from the code. Nothing is computed here: a law is a function's
//! contract, so that the check proves it.
ghost use Rattle.written_logs.specs.GeneratedLaws.{GeneratedLogsAreRead};

use crate::laws::written_logs_are_read_again;

/// The generated log of each START and COUNT is good in either form, and has exactly the generated
/// records.
pub fn generated_logs_are_read()
    ensures { GeneratedLogsAreRead }
{
    written_logs_are_read_again();
}
