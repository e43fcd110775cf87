//! The answer to `plain`: the messages of a day, each as a line of a FIX log, or a report of its bad
//! ones, written while the day is read.
ghost use Rattle.std.specs.Prelude.{◌≡◌, ◌++◌, IfOk, IsTrue, MatchResult};
ghost use Rattle.audit_report.specs.declared.statuses.Status.TheVariants as status;
ghost use Rattle.command_run.specs.Deciding.{IsAnswerOfKind};
ghost use Rattle.command_run.specs.Runs.{AnswersCommand, AnswersTooLong};
ghost use Rattle.command_run.specs.VerdictAnswers.{IsAnswerWith};
ghost use Rattle.desk_run.specs.PlainAnswers.{bad_line, bad_place_of, day_reading, day_writes, lines_reading, lines_writes, plain_status, text_for_soh};
ghost use Rattle.desk_run.specs.PlainMessages.{WritesMessages};
ghost use Rattle.desk_run.specs.PlainWriting.{WritesDay, WritesWithin};
ghost use Rattle.desk_run.specs.Requests.{desk_command_of};
ghost use Rattle.desk_run.specs.TopCall.{desk_reading};
ghost use Rattle.desk_words.specs.DressWords.{HasSohWord};
ghost use Rattle.desk_words.specs.declared.requests.DeskRequest.TheVariants.{Early};
ghost use Rattle.desk_words.specs.declared.requests.EarlyRequest.TheVariants.{Plain};
ghost use Rattle.fix_days.specs.Framed.{IsFramedReading};
ghost use Rattle.fix_days.specs.Laws.{written_line};
ghost use Rattle.fix_days.specs.Lines.{is_soh_text};
ghost use Rattle.log_source.specs.Sinks.{SinkStays};
ghost use Rattle.log_verdict.specs.declared.stops.Stop.TheVariants as stop;
ghost use Rattle.log_verdict.specs.Collecting.{TouchesOnly};
ghost use Rattle.log_verdict.specs.Steps.{FaultsNeverFall, KeepsShelfLogs};

use super::digests::stop_of_take;
use super::program::Desk;
use audit_base::faults::{BadPlace, NoMemory};
use audit_base::sizes::SOH;
use audit_base::terms::Which;
use audit_report::statuses::Status;
use command_run::answers::{Answer, done_answer, malformed_answer};
use command_run::writing::write_answer;
use command_words::paths::PathText;
use desk_words::dress_words::{BadMessages, DayDress, SohWord};
use fix_days::faults::BadMessage;
use fix_days::lines::SohGhost;
use fix_messages::feeds::frame_reason;
use log_source::limits::LONGEST_READ;
use log_source::shelf::Shelf;
use log_source::sink::Sink;
use log_source::take::TakeFault;
use log_verdict::runs::RunEnd;
use log_verdict::stops::Stop;
use plain_logs::day_ends::{DayEnd, PlainFault};
use plain_logs::logs::{
    DaySource, write_bad_report, write_framed, write_good_on_lines, write_on_lines,
};
use std::alloc::Global;
use std::marker::Brand;

/// The place of a bad message, as a report tells it.
fn bad_place(bad: &BadMessage) -> BadPlace
    ensures { result ≡ bad_place_of bad.now }
{
    BadPlace {
        place: bad.place,
        offset: bad.offset,
        reason: frame_reason(bad.fault),
    }
}

/// What is left of the answer at the end of a day.
fn end_answer(alloc: Global, end: DayEnd) -> Result<Answer, NoMemory>
    ensures { IfOk result (IsAnswerOfKind
        (IsAnswerWith (plain_status end.bad) (end.text.items ++ bad_line end.bad))) }
{
    let DayEnd { mut text, bad } = end;
    match bad {
        None => Ok(done_answer(text)),
        Some(bad) => {
            let line = malformed_answer(alloc, Which::Orders, &bad_place(&bad))?;
            text.extend_from_slice(&line.text)?;
            Ok(Answer {
                status: line.status,
                text,
                stop: line.stop,
            })
        }
    }
}

/// The same, or that memory ran out.
fn end_or_stop(alloc: Global, end: DayEnd) -> Result<Answer, Stop>
    ensures { MatchResult result (IsAnswerOfKind
        (IsAnswerWith (plain_status end.bad) (end.text.items ++ bad_line end.bad)))
        (λ why. why ≡ stop.Memory) }
{
    Ok(end_answer(alloc, end)?)
}

/// Writes a day whose messages are framed, up to its end.
fn write_day_framed<F: Shelf, K: Sink>(
    alloc: Global,
    shelf: &mut F,
    out: &mut K,
    day: &PathText,
) -> Result<DayEnd, PlainFault>
    ensures logs { KeepsShelfLogs F.Shelf shelf.old shelf.new }
    ensures only { TouchesOnly (desk_reading F.Shelf shelf.old shelf.new) Which.Orders }
    ensures stays { SinkStays (K.state out.old) (K.state out.new) }
    ensures writes { WritesDay (desk_reading F.Shelf shelf.old shelf.new) written_line IsFramedReading day.now
        (K.state out.old) (K.state out.new) result }
    ensures within { WritesWithin (desk_reading F.Shelf shelf.old shelf.new) result }
{
    let day = DaySource {
        which: Which::Orders,
        name: day.as_str(),
        limit: LONGEST_READ,
    };
    write_framed(alloc, shelf, &day, out)
}

/// Writes a day whose messages stand on lines, up to its end, by what is done with bad messages. The
/// text of `S`, which is `soh`, stands for SOH in them.
fn write_day_lines<S: SohGhost, F: Shelf, K: Sink>(
    alloc: Global,
    shelf: &mut F,
    out: &mut K,
    day: &PathText,
    soh: Vec<u8>,
    bad: BadMessages,
) -> Result<DayEnd, PlainFault>
    requires soh { soh.items ≡ S.text }
    requires is { IsTrue (is_soh_text S.text) }
    ensures logs { KeepsShelfLogs F.Shelf shelf.old shelf.new }
    ensures only { TouchesOnly (desk_reading F.Shelf shelf.old shelf.new) Which.Orders }
    ensures stays { SinkStays (K.state out.old) (K.state out.new) }
    ensures writes { WritesDay (desk_reading F.Shelf shelf.old shelf.new) (lines_writes bad)
        (lines_reading bad S.text) day.now (K.state out.old) (K.state out.new) result }
    ensures within { WritesWithin (desk_reading F.Shelf shelf.old shelf.new) result }
{
    let day = DaySource {
        which: Which::Orders,
        name: day.as_str(),
        limit: LONGEST_READ,
    };
    match bad {
        BadMessages::EndDay => write_on_lines::<S, F, K>(alloc, shelf, &day, soh, out),
        BadMessages::LeftOut => write_good_on_lines::<S, F, K>(alloc, shelf, &day, soh, out),
        BadMessages::Reported => write_bad_report::<S, F, K>(alloc, shelf, &day, soh, out),
    }
}

/// The same, whatever text stands for SOH.
fn write_day_on_lines<F: Shelf, K: Sink>(
    alloc: Global,
    shelf: &mut F,
    out: &mut K,
    day: &PathText,
    soh: Vec<u8>,
    bad: BadMessages,
) -> Result<DayEnd, PlainFault>
    requires { IsTrue (is_soh_text soh.items) }
    ensures logs { KeepsShelfLogs F.Shelf shelf.old shelf.new }
    ensures only { TouchesOnly (desk_reading F.Shelf shelf.old shelf.new) Which.Orders }
    ensures stays { SinkStays (K.state out.old) (K.state out.new) }
    ensures writes { WritesDay (desk_reading F.Shelf shelf.old shelf.new) (lines_writes bad)
        (lines_reading bad soh.items) day.now (K.state out.old) (K.state out.new) result }
    ensures within { WritesWithin (desk_reading F.Shelf shelf.old shelf.new) result }
{
    write_day_lines::<Brand, F, K>(alloc, shelf, out, day, soh, bad)
}

/// The text that stands for SOH: the word that is given, or SOH itself.
fn soh_of(word: &Option<SohWord>) -> &[u8]
    ensures { result.now ≡ text_for_soh word.now }
{
    match word {
        Some(word) => word.as_bytes(),
        None => &[SOH],
    }
}

/// Writes a day in its dress, up to its end. The day is read as the order log.
fn write_day<F: Shelf, K: Sink>(
    alloc: Global,
    shelf: &mut F,
    out: &mut K,
    day: &PathText,
    dress: &DayDress,
) -> Result<DayEnd, PlainFault>
    requires { HasSohWord dress.now }
    ensures logs { KeepsShelfLogs F.Shelf shelf.old shelf.new }
    ensures only { TouchesOnly (desk_reading F.Shelf shelf.old shelf.new) Which.Orders }
    ensures stays { SinkStays (K.state out.old) (K.state out.new) }
    ensures writes { WritesDay (desk_reading F.Shelf shelf.old shelf.new) (day_writes dress.now)
        (day_reading dress.now) day.now (K.state out.old) (K.state out.new) result }
    ensures within { WritesWithin (desk_reading F.Shelf shelf.old shelf.new) result }
{
    match dress {
        DayDress::Framed => write_day_framed(alloc, shelf, out, day),
        DayDress::OnLines(word, bad) => match Vec::from_slice(alloc, soh_of(word)) {
            Ok(soh) => write_day_on_lines(alloc, shelf, out, day, soh, *bad),
            Err(_) => Err(PlainFault::Log(TakeFault::Memory)),
        },
    }
}

/// Answers `plain`: the text of the day is written while it is read, and then what is left of it.
/// Where a write fails, the day is not read on.
pub(crate) fn run_plain<F: Shelf, K: Sink>(
    alloc: Global,
    shelf: &mut F,
    out: &mut K,
    day: &PathText,
    dress: &DayDress,
) -> RunEnd<Status, ()>
    requires { HasSohWord dress.now }
    ensures logs { KeepsShelfLogs F.Shelf shelf.old shelf.new }
    ensures later { FaultsNeverFall (desk_reading F.Shelf shelf.old shelf.new) }
    ensures stays { SinkStays (K.state out.old) (K.state out.new) }
    ensures answers { AnswersCommand (desk_reading F.Shelf shelf.old shelf.new)
        (desk_command_of (Early (Plain day.now dress.now)))
        (K.state out.old) (K.state out.new) result.status }
    ensures messages { WritesMessages (desk_reading F.Shelf shelf.old shelf.new)
        (day_writes dress.now) (day_reading dress.now) day.now (K.state out.old) (K.state out.new)
        result.status }
    ensures too_long { AnswersTooLong (desk_reading F.Shelf shelf.old shelf.new)
        result.status }
{
    match write_day(alloc, shelf, out, day, dress) {
        Ok(end) => write_answer::<Desk, K>(out, end_or_stop(alloc, end)),
        Err(PlainFault::Log(fault)) => {
            write_answer::<Desk, K>(out, Err(stop_of_take(Which::Orders, fault)))
        }
        Err(PlainFault::Sink) => RunEnd {
            status: Status::WriteFault,
            stop: None,
            back: (),
        },
    }
}
