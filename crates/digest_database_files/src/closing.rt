//! The call that files or checks, and the close of the database after it.
ghost use Rattle.std.specs.Prelude.{◌≡◌, map};
ghost use Rattle.std.specs.String.{string_bytes};
ghost use Rattle.digest_database_files.specs.ClosedFilings.{FilesThenCloses};

use case_run::statuses::CaseStatus;
use desk_filing::opener::DigestOpener;
use desk_filing::running::{ShelfAndKeeper, run_filing_seeded};
use log_source::shelf::Shelf;
use log_source::sink::Sink;
use log_verdict::runs::RunEnd;
use seeded_hash::seed::HashSeed;
use std::alloc::Global;

/// An opener that closes what it has opened, once nothing more is asked of it.
///
/// What handles a keeper by this knows nothing of what it is made of, so that its proof does not
/// go by way of all that a database is made of.
pub trait ClosingDigests: DigestOpener {
    // What a close is, between the opener before it and after it.
    ghost closes: { Self → Self → Type 0 };

    /// Closes the keeper that was opened last. What it has kept stays kept, also where the
    /// close fails.
    fn close(&mut self, keeper: Self::Book)
        ensures closed { closes self.old self.new }
        ensures stays { Self.DigestOpener.state self.new ≡ Self.DigestOpener.state self.old };
}

/// Does what the words ask for, as `run_filing_seeded` does, and closes the database, where it was
/// opened. The shelf is handed back.
pub fn file_and_close<F: Shelf, K: Sink, O: ClosingDigests>(
    alloc: Global,
    seed: HashSeed,
    words: &[String],
    shelf: F,
    out: &mut K,
    opener: &mut O,
) -> RunEnd<CaseStatus, F>
    ensures { FilesThenCloses F.Shelf O.state O.closes shelf result.back opener.old opener.new
        (map string_bytes words.now) (K.state out.old) (K.state out.new) result.status }
{
    let RunEnd { status, stop, back } = run_filing_seeded(alloc, seed, words, shelf, out, opener);
    let ShelfAndKeeper { shelf, keeper } = back;
    if let Some(keeper) = keeper {
        opener.close(keeper);
    }
    RunEnd {
        status,
        stop,
        back: shelf,
    }
}
