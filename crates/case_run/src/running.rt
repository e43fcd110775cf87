//! A run: the commands that the words ask for, in order, over a casebook.
//!
//! A run is a trace: one turn for each command that was done, begun where the one before left
//! shelf, sink and keeper, and an ending. The turns so far are the invariant of the loop. That they
//! are Play's is one induction.
ghost use Rattle.std.specs.Prelude.{map};
ghost use Rattle.std.specs.String.{string_bytes};
ghost use Rattle.log_verdict.specs.Steps.{reading};
ghost use Rattle.case_run.specs.Commands.{commands_of};
ghost use Rattle.case_run.specs.Laws.{OnePlay};
ghost use Rattle.case_run.specs.Runs.{EndsWithinOrTooLong, IsCaseRun, RunsCommands};
ghost use Rattle.case_run.specs.Runs.{known_logs, run_state};
ghost use Rattle.case_run.specs.Turns.{KeepsAll};

use super::answers::take_turn;
use super::commands::CaseCommand;
use super::laws::one_play;
use super::lines::usage_text;
use super::statuses::CaseStatus;
use super::words::read_commands;
use super::writing::write_text;
use case_keeper::casebook::Casebook;
use case_keeper::keeper::Keeper;
use command_words::requests::WordsFault;
use log_source::shelf::Shelf;
use log_source::sink::Sink;
use log_verdict::runs::RunEnd;
use seeded_hash::seed::HashSeed;
use std::alloc::Global;

/// Does the commands in order. The first that has a status above 1 is the last.
fn run_commands<F: Shelf, K: Sink, B: Keeper>(
    alloc: Global,
    seed: HashSeed,
    commands: &[CaseCommand],
    shelf: &mut F,
    out: &mut K,
    book: &mut Casebook<B>,
) -> RunEnd<CaseStatus, ()>
    ensures keeps { KeepsAll F.Shelf shelf.old shelf.new (K.state out.old) (K.state out.new)
        (B.state book.old) (B.state book.new) }
    ensures runs { RunsCommands (known_logs F.Shelf shelf.old)
        (run_state F.Shelf shelf.old (K.state out.old) (B.state book.old))
        (run_state F.Shelf shelf.new (K.state out.new) (B.state book.new)) commands.now
        result.status }
    ensures length { EndsWithinOrTooLong (reading F.Shelf shelf.old shelf.new) result.status }
{
    let mut ran = RunEnd {
        status: CaseStatus::Done,
        stop: None,
        back: (),
    };
    for command in commands {
        ran = take_turn(alloc, seed, command, shelf, out, book);
        if ran.status.ends_run() {
            return ran;
        }
    }
    ran
}

/// Runs the commands that the words ask for over a casebook, and writes the text of each. The
/// status is answered: that of the last command, or the first above 1, which ends the run.
///
/// The words are one or more commands with the word `then` between them: `file LABEL RULE SYMBOL
/// FORM ORDERS TRADES`, `list`, `list SYMBOL`, `list SYMBOL RESULT`, `show LABEL`. `Usage` comes
/// only where they are not well-formed (`WriteFault` where the usage line could not be written,
/// `Memory` where memory ran out while the words were read). `file` audits two logs and files the
/// verdict under the label, unless that has a case, which is then written (`Refused`). `ReadFault`
/// comes only where a log that the last command names could not be read, `TooLong` where it has
/// more than 67,108,864 bytes, `KeeperFault` only where the book's faults rose, `WriteFault` only
/// where the sink's did, and `Memory` where memory ran out. A command's text is made before the
/// book is changed, and written after: where writing fails, the case stays filed; after `Memory`
/// and `KeeperFault` the last command has filed none. What the commands answer, and which cases
/// they leave, is one (`one_play`).
///
/// The hashes by which names are found begin with the fixed seed: see `run_case_seeded` for logs
/// whose names may have been chosen to make this slow.
pub fn run_case<F: Shelf, K: Sink, B: Keeper>(
    alloc: Global,
    words: &[String],
    shelf: &mut F,
    out: &mut K,
    book: &mut Casebook<B>,
) -> CaseStatus
    ensures run { IsCaseRun F.Shelf (commands_of (map string_bytes words.now)) shelf.old shelf.new
        (K.state out.old) (K.state out.new) (B.state book.old) (B.state book.new) result }
    ensures one { OnePlay }
{
    run_case_seeded(alloc, HashSeed::fixed(), words, shelf, out, book).status
}

/// The same as `run_case`, with hashes of this seed, and with why there are no records of the logs
/// of the last command, where there are none. No answer depends on the seed. One that nobody knows
/// beforehand keeps who writes the logs from choosing names that hash alike.
pub fn run_case_seeded<F: Shelf, K: Sink, B: Keeper>(
    alloc: Global,
    seed: HashSeed,
    words: &[String],
    shelf: &mut F,
    out: &mut K,
    book: &mut Casebook<B>,
) -> RunEnd<CaseStatus, ()>
    ensures run { IsCaseRun F.Shelf (commands_of (map string_bytes words.now)) shelf.old shelf.new
        (K.state out.old) (K.state out.new) (B.state book.old) (B.state book.new)
        result.status }
    ensures one { OnePlay }
{
    one_play();
    match read_commands(alloc, words) {
        Ok(commands) => run_commands(alloc, seed, &commands, shelf, out, book),
        Err(WordsFault::Usage) => RunEnd {
            status: write_text(out, usage_text(), CaseStatus::Usage),
            stop: None,
            back: (),
        },
        Err(WordsFault::Memory) => RunEnd {
            status: CaseStatus::Memory,
            stop: None,
            back: (),
        },
    }
}
