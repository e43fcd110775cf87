//! The run of the commands, and the close of the database after it.
//!
//! The database's log is removed while the files are still locked, and only under the name that was
//! opened. A close that fails removes nothing.
ghost use Rattle.std.specs.Prelude.{◌≡◌, map};
ghost use Rattle.std.specs.String.{string_bytes};
ghost use Rattle.casebook_program.specs.ClosedRuns.{RunsThenCloses};

use case_run::books::run_book_seeded;
use case_run::opener::Opener;
use case_run::statuses::CaseStatus;
use log_source::shelf::Shelf;
use log_source::sink::Sink;
use log_verdict::runs::RunEnd;
use seeded_hash::seed::HashSeed;
use std::alloc::Global;

/// An opener that closes what it has opened, once nothing more is asked of it.
///
/// What handles a keeper by this knows nothing of what it is made of. A function that has a
/// database by its own type is proved by way of all that the database is made of, which takes
/// half a minute or more.
pub trait Closing: Opener {
    // What a close is, between the opener before it and after it.
    ghost closes: { Self → Self → Type 0 };

    /// Closes the keeper that was opened last. What it has kept stays kept, also where the
    /// close fails.
    fn close(&mut self, keeper: Self::Book)
        ensures closed { closes self.old self.new }
        ensures stays { Self.Opener.state self.new ≡ Self.Opener.state self.old };
}

/// Runs the commands over the casebook that the first word names, as `run_book_seeded` does,
/// and closes it. The status is that of the commands.
pub fn run_and_close<F: Shelf, K: Sink, O: Closing>(
    alloc: Global,
    seed: HashSeed,
    words: &[String],
    shelf: &mut F,
    out: &mut K,
    opener: &mut O,
) -> RunEnd<CaseStatus, ()>
    ensures { RunsThenCloses F.Shelf O.state O.closes shelf.old shelf.new
        opener.old opener.new (map string_bytes words.now)
        (K.state out.old) (K.state out.new) result.status }
{
    let RunEnd { status, stop, back } = run_book_seeded(alloc, seed, words, shelf, out, opener);
    if let Some(book) = back {
        opener.close(book.into_keeper());
    }
    RunEnd {
        status,
        stop,
        back: (),
    }
}
