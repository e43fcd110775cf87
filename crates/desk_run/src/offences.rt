//! The answer to `offences`: the offences of a symbol in two logs.
ghost use Rattle.command_run.specs.Deciding.{DecidesAnswer};
ghost use Rattle.desk_run.specs.Deciding.{request_for_offences};
ghost use Rattle.desk_run.specs.Requests.{desk_command_of};
ghost use Rattle.log_verdict.specs.BothLogs.{HaveOneLimit, StaysWithin};
ghost use Rattle.log_verdict.specs.Steps.{reading_by, FaultsNeverFall, KeepsShelfLogs};

use super::given_days::GivenOffences;
use super::program::Desk;
use command_run::answers::Answer;
use command_run::laws::both_logs_decide;
use log_source::shelf::Shelf;
use log_verdict::sources::Source;
use log_verdict::stops::Stop;
use std::alloc::Global;
use symbol_offences::answers::offences_on;
use symbol_offences::questions::OffenceQuestion;

/// The answer to `offences`.
pub(crate) fn answer_offences<F: Shelf>(
    alloc: Global,
    shelf: &mut F,
    question: &OffenceQuestion,
    orders: &Source<'_>,
    trades: &Source<'_>,
) -> Result<Answer, Stop>
    requires limit { HaveOneLimit orders.now trades.now }
    ensures logs { KeepsShelfLogs F.Shelf shelf.old shelf.new }
    ensures later { FaultsNeverFall (reading_by orders.now F.Shelf shelf.old shelf.new) }
    ensures decides { DecidesAnswer (reading_by orders.now F.Shelf shelf.old shelf.new)
        (desk_command_of (request_for_offences question.now orders.now trades.now)) result }
    ensures within { StaysWithin (reading_by orders.now F.Shelf shelf.old shelf.new) result }
{
    both_logs_decide::<Desk, GivenOffences>();
    offences_on(alloc, shelf, question, orders, trades)
}
