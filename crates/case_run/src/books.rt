//! The top call: a run over the casebook that the first word names.
ghost use Rattle.std.specs.Prelude.{map};
ghost use Rattle.std.specs.Option.{option_map};
ghost use Rattle.std.specs.String.{string_bytes};
ghost use Rattle.log_verdict.specs.Steps.{KeepsShelfLogs};
ghost use Rattle.log_source.specs.Sinks.{SinkStays};
ghost use Rattle.case_run.specs.NamedCasebooks.{RunsWords};
ghost use Rattle.case_run.specs.Openers.{KeepsCasebooks};

use super::halts::Halt;
use super::lines::usage_text;
use super::opener::Opener;
use super::running::run_case_seeded;
use super::statuses::CaseStatus;
use super::writing::{write_halt, write_text};
use case_keeper::casebook::Casebook;
use log_source::shelf::Shelf;
use log_source::sink::Sink;
use log_verdict::runs::RunEnd;
use seeded_hash::seed::HashSeed;
use std::alloc::Global;

/// How a run ended: its status, and the casebook, where it was opened.
#[derive(Drop)]
pub struct CaseRunEnd<B> {
    pub status: CaseStatus,
    pub book: Option<Casebook<B>>,
}

/// Opens the casebook that the first word names, and runs the commands that the other words ask for
/// over it, as `run_case` does, with the fixed seed. The casebook is handed back.
///
/// With no word nothing is opened, and the answer is `Usage`. The path is opened before the other
/// words are looked at. Where it is not opened the answer is `Memory`, with nothing written, or
/// `KeeperFault`, which comes only where the opener's faults rose or where it is known that it has
/// nothing under the path; there is then no casebook.
pub fn run_book<F: Shelf, K: Sink, O: Opener>(
    alloc: Global,
    words: &[String],
    shelf: &mut F,
    out: &mut K,
    opener: &mut O,
) -> CaseRunEnd<O::Book>
    ensures logs { KeepsShelfLogs F.Shelf shelf.old shelf.new }
    ensures sink { SinkStays (K.state out.old) (K.state out.new) }
    ensures books { KeepsCasebooks (O.state opener.old) (O.state opener.new) }
    ensures runs { RunsWords F.Shelf shelf.old shelf.new (O.state opener.old) (O.state opener.new)
        (map string_bytes words.now) (K.state out.old) (K.state out.new)
        (option_map O.Book.state result.book) result.status }
{
    let ran = run_book_seeded(alloc, HashSeed::fixed(), words, shelf, out, opener);
    CaseRunEnd {
        status: ran.status,
        book: ran.back,
    }
}

/// The same as `run_book`, with hashes of this seed, and with why there are no records of the logs
/// of the last command, where there are none. No answer depends on the seed.
pub fn run_book_seeded<F: Shelf, K: Sink, O: Opener>(
    alloc: Global,
    seed: HashSeed,
    words: &[String],
    shelf: &mut F,
    out: &mut K,
    opener: &mut O,
) -> RunEnd<CaseStatus, Option<Casebook<O::Book>>>
    ensures logs { KeepsShelfLogs F.Shelf shelf.old shelf.new }
    ensures sink { SinkStays (K.state out.old) (K.state out.new) }
    ensures books { KeepsCasebooks (O.state opener.old) (O.state opener.new) }
    ensures runs { RunsWords F.Shelf shelf.old shelf.new (O.state opener.old) (O.state opener.new)
        (map string_bytes words.now) (K.state out.old) (K.state out.new)
        (option_map O.Book.state result.back) result.status }
{
    let Some((path, rest)) = words.split_first() else {
        return RunEnd {
            status: write_text(out, usage_text(), CaseStatus::Usage),
            stop: None,
            back: None,
        };
    };
    match opener.open_book(path.as_str()) {
        Ok(keeper) => {
            let mut book = Casebook::new(keeper);
            let ran = run_case_seeded(alloc, seed, rest, shelf, out, &mut book);
            RunEnd {
                status: ran.status,
                stop: ran.stop,
                back: Some(book),
            }
        }
        Err(fault) => RunEnd {
            status: write_halt(out, Halt::from(fault)),
            stop: None,
            back: None,
        },
    }
}
