//! The verdict on two logs of a shelf.
ghost use Rattle.std.specs.Prelude.{◌≡◌, IfOk};
ghost use Rattle.audit_report.specs.Texts.{IsVerdictInRange};
ghost use Rattle.log_verdict.specs.BothLogs.{GivesVerdictOrStop, HaveOneLimit, StaysWithin, verdict_without};
ghost use Rattle.log_verdict.specs.Steps.{reading_by, KeepsShelfLogs, FaultsNeverFall};

use crate::both_logs::read_both;
use crate::sources::Source;
use crate::stops::{NoRecords, Stop};
use audit_report::verdicts::Verdict;
use log_source::shelf::Shelf;
use record_verdict::questions::Question;
use record_verdict::verdicts::verdict_after;
use std::alloc::Global;

/// The verdict on two logs that were not read into records: the first bad place, or there is none.
fn verdict_without(why: NoRecords) -> Result<Verdict, Stop>
    ensures answer { result ≡ verdict_without why }
    ensures in_range { IfOk result IsVerdictInRange }
{
    match why {
        NoRecords::Malformed { log, bad } => Ok(Verdict::Malformed { log, bad }),
        NoRecords::Stopped(stop) => Err(stop),
    }
}

/// The verdict on two logs, or why there is none. The order log is read first, piece by piece,
/// and the trade log only where that is in its grammar; a log that is not is still read to its
/// end. What is kept is the history of the symbol and its deals, and nothing of the logs' bytes.
///
/// Both logs have one limit, the greatest number of bytes that each may have. `ReadFault` comes
/// only where a log could not be read, `TooLong` only where one has more bytes than the limit,
/// and `Memory` where memory ran out. Whatever the answer, what the shelf has under its names
/// stays as it was, and either slot may be started anew. The seeds decide no answer: one that
/// nobody knows beforehand keeps who writes the logs from choosing names that hash alike.
pub fn verdict_on<F: Shelf>(
    alloc: Global,
    shelf: &mut F,
    question: &Question,
    orders: &Source<'_>,
    trades: &Source<'_>,
) -> Result<Verdict, Stop>
    requires limit { HaveOneLimit orders.now trades.now }
    ensures logs { KeepsShelfLogs F.Shelf shelf.old shelf.new }
    ensures later { FaultsNeverFall (reading_by orders.now F.Shelf shelf.old shelf.new) }
    ensures decides { GivesVerdictOrStop (reading_by orders.now F.Shelf shelf.old shelf.new)
        question.now orders.now trades.now result }
    ensures in_range { IfOk result IsVerdictInRange }
    ensures within { StaysWithin (reading_by orders.now F.Shelf shelf.old shelf.new) result }
{
    // A match and no `?`: after a `?`, each way out drops what was read, case by case, and
    // the proof of the answer is lost among them.
    match read_both(alloc, shelf, &question.scope(), orders, trades) {
        Ok(given) => Ok(verdict_after(alloc, question, &given)?.into_verdict()),
        Err(why) => verdict_without(why),
    }
}
