//! The answer to each command. A command is an arm of `answer_whole`.
ghost use Rattle.std.specs.Prelude.{IfOk};
ghost use Rattle.audit_report.specs.declared.statuses.Status.TheVariants as status;
ghost use Rattle.command_run.specs.Deciding.{DecidesAnswer, IsAnswerOfKind};
ghost use Rattle.command_run.specs.VerdictAnswers.{IsAnswerWith};
ghost use Rattle.desk_run.specs.Requests.{desk_command_of};
ghost use Rattle.desk_run.specs.TopCall.{desk_reading};
ghost use Rattle.desk_words.specs.declared.requests.DeskRequest.TheVariants.{Whole};
ghost use Rattle.desk_words.specs.Texts.{help_text, version_text};
ghost use Rattle.desk_words.specs.Words.{MayBeAskedWhole};
ghost use Rattle.log_verdict.specs.BothLogs.{StaysWithin};
ghost use Rattle.log_verdict.specs.Steps.{FaultsNeverFall, KeepsShelfLogs};

use super::contents::answer_contents;
use super::converting::answer_convert;
use super::days::{answer_audit, answer_session};
use super::digests::answer_digest;
use super::offences::answer_offences;
use super::program::Desk;
use super::sources::{share_asked, sources_of};
use audit_base::faults::NoMemory;
use command_run::answers::{Answer, done_answer};
use command_run::laws::no_log_decides;
use day_logs::answers::DayQuestion;
use day_sessions::questions::SessionQuestion;
use desk_words::commands::DeskCommand;
use desk_words::requests::WholeRequest;
use desk_words::texts::{append_help, version_text};
use log_source::shelf::Shelf;
use log_verdict::sources::Source;
use log_verdict::stops::Stop;
use seeded_hash::seed::HashSeed;
use std::alloc::Global;
use symbol_offences::questions::OffenceQuestion;

/// The answer to `help`, or to `help` and a command.
fn answer_help(alloc: Global, about: Option<DeskCommand>) -> Result<Answer, NoMemory>
    ensures { IfOk result (IsAnswerOfKind (IsAnswerWith status.Accepted (help_text about))) }
{
    let mut text = Vec::new(alloc);
    append_help(about, &mut text)?;
    Ok(done_answer(text))
}

/// The answer to `--version`.
fn answer_version(alloc: Global) -> Result<Answer, NoMemory>
    ensures { IfOk result (IsAnswerOfKind (IsAnswerWith status.Accepted version_text)) }
{
    let mut text = Vec::new(alloc);
    text.extend_from_slice(version_text())?;
    Ok(done_answer(text))
}

/// The answer to a command that makes the whole of it before it is written.
pub(crate) fn answer_whole<F: Shelf>(
    alloc: Global,
    seed: HashSeed,
    shelf: &mut F,
    request: &WholeRequest,
) -> Result<Answer, Stop>
    requires { MayBeAskedWhole request.now }
    ensures logs { KeepsShelfLogs F.Shelf shelf.old shelf.new }
    ensures later { FaultsNeverFall (desk_reading F.Shelf shelf.old shelf.new) }
    ensures decides { DecidesAnswer (desk_reading F.Shelf shelf.old shelf.new)
        (desk_command_of (Whole request.now)) result }
    ensures within { StaysWithin (desk_reading F.Shelf shelf.old shelf.new) result }
{
    // A law that the answers without a log rest on. It computes nothing.
    no_log_decides::<Desk>();
    match request {
        WholeRequest::Audit {
            rule,
            logs,
            table,
            share,
            checks,
            page,
        } => {
            let question = DayQuestion {
                rule: *rule,
                table: *table,
                checks: *checks,
                share: share_asked(*share),
            };
            let sources = sources_of(logs, seed);
            answer_audit(
                alloc,
                shelf,
                &question,
                *page,
                &sources.orders,
                &sources.trades,
            )
        }
        WholeRequest::Session {
            phases,
            logs,
            table,
            share,
            checks,
            page,
        } => {
            let share = share_asked(*share);
            let sources = sources_of(logs, seed);
            let question = SessionQuestion {
                phases: phases.as_slice(),
                table: *table,
                checks: *checks,
                share,
            };
            answer_session(
                alloc,
                shelf,
                &question,
                *page,
                &sources.orders,
                &sources.trades,
            )
        }
        WholeRequest::Offences {
            rule,
            symbol,
            logs,
            records,
            checks,
        } => {
            let question = OffenceQuestion {
                rule: *rule,
                symbol: *symbol,
                records: *records,
                checks: *checks,
            };
            let sources = sources_of(logs, seed);
            answer_offences(alloc, shelf, &question, &sources.orders, &sources.trades)
        }
        WholeRequest::Digest { orders, trades } => answer_digest(alloc, shelf, orders, trades),
        WholeRequest::Convert {
            log,
            from,
            path,
            into,
        } => {
            let source = Source::of_day(path.as_str(), *from, seed);
            answer_convert(alloc, shelf, *log, &source, *into)
        }
        WholeRequest::Contents { logs } => {
            let sources = sources_of(logs, seed);
            answer_contents(alloc, shelf, &sources.orders, &sources.trades)
        }
        WholeRequest::Help(about) => Ok(answer_help(alloc, *about)?),
        WholeRequest::Version => Ok(answer_version(alloc)?),
    }
}
