//! What holds of every command, whichever it is. Each law is the contract of a call that does
//! nothing, for the requests of one program.
ghost use Rattle.std.specs.Prelude.{◌≢◌, Option};
ghost use Rattle.command_run.specs.Laws.{BothLogsDecide, BothLogsStop, BothLogsUnread, CallsAgree};
ghost use Rattle.command_run.specs.Laws.{FirstLogStops, SecondLogDecides};
ghost use Rattle.command_run.specs.Laws.{HeldLogsAreAnswered, HeldLogsAreRead};
ghost use Rattle.command_run.specs.Laws.{InTurnFaultsNeverFall, InTurnStaysWithin};
ghost use Rattle.command_run.specs.Laws.{NoLogDecides, OneLogDecides, ReadLogsDecide};
ghost use Rattle.command_run.specs.Runs.{AnswersHeldLogs, AnswersWithCause};
ghost use Rattle.log_source.specs.Sinks.{SinkState};
ghost use Rattle.log_verdict.specs.Steps.{Reading};

use super::given_logs::GivenByLogs;
use super::programs::Program;
use audit_report::statuses::Status;

/// Where the shelf holds all the logs that a command needs, each within the limit, and nothing
/// fails, whatever was answered with its cause is the command's answer to these logs, written
/// whole, or memory ran out. And where it is known what the shelf has, the answer to the logs that
/// were read is that to the logs that it holds.
pub fn held_logs_are_answered<P: Program>()
    ensures written { (request : P.Request) → HeldLogsAreAnswered (P.command request) }
    ensures read { (request : P.Request) → HeldLogsAreRead (P.command request) }
{}

/// Where a command has one answer to the same logs, two calls that wrote an answer to them answered
/// the same status and wrote the same text, or one ran out of memory: whatever shelves and sinks
/// they have, and however the bytes are cut.
pub fn calls_agree<P: Program>()
    ensures { (request : P.Request) → CallsAgree (P.command request) }
{}

/// The answer to all the logs that a command needs, each of which was read to its end, is what
/// their reading decides.
pub fn read_logs_decide<P: Program>()
    ensures { (request : P.Request) → ReadLogsDecide (P.command request) }
{}

/// What is decided of the one log that a command reads is decided of the whole call.
pub fn one_log_decides<P: Program>()
    ensures { (request : P.Request) → OneLogDecides (P.command request) }
{}

/// A command that needs no log answers without one.
pub fn no_log_decides<P: Program>()
    ensures { (request : P.Request) → NoLogDecides (P.command request) }
{}

/// What both logs give decides a command that reads both, where it answers by the records of both
/// or by the first bad place; and so does why nothing is known of both, or why both were not read
/// into records.
pub fn both_logs_decide<P: Program, G: GivenByLogs>()
    ensures answers { (request : P.Request)
        → BothLogsDecide G.of_records G.of_bad (P.command request) }
    ensures stops { (request : P.Request) → BothLogsStop (P.command request) }
    ensures unread { (request : P.Request) → BothLogsUnread (P.command request) }
{}

/// What is read of one log after the other, whatever is in them, decides a command that answers
/// by the bytes of both; and so does why one of them was not read.
pub fn any_two_logs_decide<P: Program>()
    ensures first { (request : P.Request) → FirstLogStops (P.command request) }
    ensures second { (request : P.Request) → SecondLogDecides (P.command request) }
{}

/// Two readings in turn, of the order log and of the trade log, let no count of faults fall, and
/// where neither log is too long, neither slot ends past the limit.
pub fn readings_in_turn_are_one()
    ensures later { InTurnFaultsNeverFall }
    ensures within { InTurnStaysWithin }
{}

/// Where memory ran out for well-formed words, and nothing was done to the sink, that is an answer
/// with its cause, whatever the shelf holds.
pub fn memory_is_answered<P: Program>()
    ensures causes { (asked : Option P.Request) (r : Reading) (old : SinkState) → asked ≢ None
        → AnswersWithCause P.command P.usage asked r old old Status.Memory }
    ensures held { (asked : Option P.Request) (r : Reading) (old : SinkState)
        → AnswersHeldLogs P.command asked r old old Status.Memory }
{}
