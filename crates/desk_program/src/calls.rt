//! Which of three calls is asked: that of filing, whose database is then closed, that of a page, or
//! `run_desk`.
ghost use Rattle.std.specs.Prelude.{map};
ghost use Rattle.std.specs.String.{string_bytes};
ghost use Rattle.desk_program.specs.Answers.{DeskAnswersWords};

use crate::ends::DeskEnd;
use crate::pictures::RulePictures;
use desk_page::running::run_page_seeded;
use desk_run::running::run_desk_seeded;
use desk_words::commands::{asks_filing, asks_page};
use digest_database_files::closing::{ClosingDigests, file_and_close};
use log_source::shelf::Shelf;
use log_source::sink::Sink;
use log_verdict::runs::RunEnd;
use seeded_hash::seed::HashSeed;
use std::alloc::Global;

/// Asks the call that the first word is for. The shelf that its logs were read from is handed back.
pub(crate) fn ask_call<F: Shelf, K: Sink, O: ClosingDigests>(
    alloc: Global,
    seed: HashSeed,
    words: &[String],
    shelf: F,
    out: &mut K,
    opener: &mut O,
) -> RunEnd<DeskEnd, F>
    ensures { DeskAnswersWords F.Shelf O.state O.closes (map string_bytes words.now)
        (record { shelf = shelf; opener = opener.old; sink = K.state out.old })
        (record { shelf = result.back; opener = opener.new; sink = K.state out.new })
        result.status }
{
    if asks_filing(words) {
        let filed = file_and_close(alloc, seed, words, shelf, out, opener);
        return RunEnd {
            status: DeskEnd::Filed(filed.status),
            stop: filed.stop,
            back: filed.back,
        };
    }
    if asks_page(words) {
        let page = run_page_seeded::<RulePictures, F, K>(alloc, seed, words, shelf, out);
        return RunEnd {
            status: DeskEnd::Run(page.status),
            stop: page.stop,
            back: page.back,
        };
    }
    let mut shelf = shelf;
    let ran = run_desk_seeded(alloc, seed, words, &mut shelf, out);
    RunEnd {
        status: DeskEnd::Run(ran.status),
        stop: ran.stop,
        back: shelf,
    }
}
