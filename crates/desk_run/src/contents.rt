//! The answer to `contents`: what is in both logs.
ghost use Rattle.std.specs.Prelude.{◌≤◌};
ghost use Rattle.command_run.specs.Deciding.{DecidesAnswer, DecidesBytes};
ghost use Rattle.log_contents.specs.DayItems.{trade_log_items};
ghost use Rattle.desk_run.specs.Contents.{IsAnswerAfterOrders, request_of_contents};
ghost use Rattle.desk_run.specs.Requests.{desk_command_of};
ghost use Rattle.log_contents.specs.Summaries.{IsSummaryOf, LogItems};
ghost use Rattle.log_source.specs.Sources.{longest_read};
ghost use Rattle.log_verdict.specs.BothLogs.{HaveOneLimit, StaysWithin, StaysWithinAt};
ghost use Rattle.log_verdict.specs.Collecting.{TouchesOnly};
ghost use Rattle.log_verdict.specs.Steps.{reading_by, FaultsNeverFall, KeepsShelfLogs};

use super::given_days::GivenVerdicts;
use super::program::Desk;
use audit_base::terms::Which;
use command_run::answers::{Answer, done_answer, unread_answer};
use command_run::laws::{both_logs_decide, read_logs_decide, readings_in_turn_are_one};
use log_contents::contents_text::contents_text;
use log_contents::day_reading::{summary_of_orders, summary_of_trades};
use log_contents::summaries::Summary;
use log_source::shelf::Shelf;
use log_verdict::sources::Source;
use log_verdict::stops::Stop;
use std::alloc::Global;

/// The answer after an order log of which this is told: the trade log is read.
fn answer_after_orders<F: Shelf>(
    alloc: Global,
    shelf: &mut F,
    orders: Summary,
    trades: &Source<'_>,
) -> Result<Answer, Stop>
    requires limit { trades.now.limit ≤ longest_read }
    ensures logs { KeepsShelfLogs F.Shelf shelf.old shelf.new }
    ensures only { TouchesOnly (reading_by trades.now F.Shelf shelf.old shelf.new) Which.Trades }
    ensures decides { (items : LogItems) → IsSummaryOf items orders
        → DecidesBytes (reading_by trades.now F.Shelf shelf.old shelf.new) Which.Trades
        trades.now.name.now
        (λ bytes. IsAnswerAfterOrders items (trade_log_items trades.now.form bytes)) result }
    ensures within { StaysWithinAt (reading_by trades.now F.Shelf shelf.old shelf.new)
        Which.Trades result }
{
    match summary_of_trades(alloc, shelf, trades) {
        Ok(trades) => Ok(done_answer(contents_text(alloc, orders, trades)?)),
        Err(unread) => unread_answer(alloc, Which::Trades, unread),
    }
}

/// The answer to `contents`. The order log is read first, and the trade log where that is good.
pub(crate) fn answer_contents<F: Shelf>(
    alloc: Global,
    shelf: &mut F,
    orders: &Source<'_>,
    trades: &Source<'_>,
) -> Result<Answer, Stop>
    requires limit { HaveOneLimit orders.now trades.now }
    ensures logs { KeepsShelfLogs F.Shelf shelf.old shelf.new }
    ensures later { FaultsNeverFall (reading_by orders.now F.Shelf shelf.old shelf.new) }
    ensures decides { DecidesAnswer (reading_by orders.now F.Shelf shelf.old shelf.new)
        (desk_command_of (request_of_contents orders.now trades.now)) result }
    ensures within { StaysWithin (reading_by orders.now F.Shelf shelf.old shelf.new) result }
{
    // Laws that the answer rests on. They compute nothing.
    both_logs_decide::<Desk, GivenVerdicts>();
    read_logs_decide::<Desk>();
    readings_in_turn_are_one();
    match summary_of_orders(alloc, shelf, orders) {
        Ok(summary) => answer_after_orders(alloc, shelf, summary, trades),
        Err(unread) => unread_answer(alloc, Which::Orders, unread),
    }
}
