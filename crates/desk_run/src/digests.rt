//! The answer to `digest`: the digests of both logs, whatever is in them.
ghost use Rattle.command_run.specs.Deciding.{DecidesAnswer, DecidesBytes};
ghost use Rattle.desk_run.specs.Digesting.{GivesDigest, IsDigestAnswer, stop_of_take};
ghost use Rattle.desk_run.specs.Requests.{desk_command_of};
ghost use Rattle.desk_run.specs.TopCall.{desk_reading};
ghost use Rattle.desk_words.specs.declared.requests.DeskRequest.TheVariants.{Whole};
ghost use Rattle.desk_words.specs.declared.requests.WholeRequest.TheVariants.{Digest};
ghost use Rattle.log_verdict.specs.BothLogs.{StaysWithin, StaysWithinAt};
ghost use Rattle.log_verdict.specs.Collecting.{TouchesOnly};
ghost use Rattle.log_verdict.specs.Steps.{FaultsNeverFall, KeepsShelfLogs};
ghost use Rattle.std.specs.Prelude.{◌≡◌};

use super::program::Desk;
use audit_base::terms::Which;
use command_run::answers::{Answer, done_answer};
use command_run::laws::{any_two_logs_decide, readings_in_turn_are_one};
use command_words::paths::PathText;
use log_digests::digests::{LogDigest, digest_log};
use log_digests::lines::digest_text;
use log_source::limits::LONGEST_READ;
use log_source::shelf::Shelf;
use log_source::take::TakeFault;
use log_verdict::stops::Stop;
use std::alloc::Global;

/// Why there is no answer to a log that was not read to its end.
pub(crate) fn stop_of_take(log: Which, fault: TakeFault) -> Stop
    ensures { result ≡ stop_of_take log fault }
{
    match fault {
        TakeFault::Fault => Stop::ReadFault(log),
        TakeFault::TooLong => Stop::TooLong(log),
        TakeFault::Memory => Stop::Memory,
    }
}

/// The digest of one log, or why there is none.
fn digest_of_log<F: Shelf>(shelf: &mut F, log: Which, path: &PathText) -> Result<LogDigest, Stop>
    ensures logs { KeepsShelfLogs F.Shelf shelf.old shelf.new }
    ensures only { TouchesOnly (desk_reading F.Shelf shelf.old shelf.new) log }
    ensures digest { GivesDigest (desk_reading F.Shelf shelf.old shelf.new) log path.now result }
    ensures within { StaysWithinAt (desk_reading F.Shelf shelf.old shelf.new) log result }
{
    match digest_log(shelf, log, path.as_str(), LONGEST_READ) {
        Ok(digest) => Ok(digest),
        Err(fault) => Err(stop_of_take(log, fault)),
    }
}

/// The answer after an order log of this digest: the trade log is read.
fn answer_after<F: Shelf>(
    alloc: Global,
    shelf: &mut F,
    orders: &LogDigest,
    trades: &PathText,
) -> Result<Answer, Stop>
    ensures logs { KeepsShelfLogs F.Shelf shelf.old shelf.new }
    ensures only { TouchesOnly (desk_reading F.Shelf shelf.old shelf.new) Which.Trades }
    ensures decides { DecidesBytes (desk_reading F.Shelf shelf.old shelf.new) Which.Trades
        trades.now (IsDigestAnswer orders.now) result }
    ensures within { StaysWithinAt (desk_reading F.Shelf shelf.old shelf.new)
        Which.Trades result }
{
    match digest_of_log(shelf, Which::Trades, trades) {
        Ok(trades) => Ok(done_answer(digest_text(alloc, orders, &trades)?)),
        Err(stop) => Err(stop),
    }
}

/// The answer to `digest`. Both logs are read, the order log first.
pub(crate) fn answer_digest<F: Shelf>(
    alloc: Global,
    shelf: &mut F,
    orders: &PathText,
    trades: &PathText,
) -> Result<Answer, Stop>
    ensures logs { KeepsShelfLogs F.Shelf shelf.old shelf.new }
    ensures later { FaultsNeverFall (desk_reading F.Shelf shelf.old shelf.new) }
    ensures decides { DecidesAnswer (desk_reading F.Shelf shelf.old shelf.new)
        (desk_command_of (Whole (Digest orders.now trades.now))) result }
    ensures within { StaysWithin (desk_reading F.Shelf shelf.old shelf.new) result }
{
    // Laws that the answer rests on. They compute nothing.
    any_two_logs_decide::<Desk>();
    readings_in_turn_are_one();
    match digest_of_log(shelf, Which::Orders, orders) {
        Ok(digest) => answer_after(alloc, shelf, &digest, trades),
        Err(stop) => Err(stop),
    }
}
