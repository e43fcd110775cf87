//! The verdict on two logs, and the digests of the bytes that it is on.
ghost use Rattle.std.specs.Prelude.{IfOk};
ghost use Rattle.desk_filing.specs.DigestedVerdicts.{verdict_alone, AreDigestsOfGiven};
ghost use Rattle.audit_report.specs.Texts.{IsVerdictInRange};
ghost use Rattle.log_verdict.specs.BothLogs.{GivesVerdictOrStop, HaveOneLimit, StaysWithin};
ghost use Rattle.log_verdict.specs.Steps.{reading_by, KeepsShelfLogs, FaultsNeverFall};

use audit_base::terms::Which;
use audit_report::verdicts::Verdict;
use log_digests::digest_shelf::DigestShelf;
use log_digests::digests::LogDigests;
use log_source::shelf::Shelf;
use log_verdict::sources::Source;
use log_verdict::stops::Stop;
use log_verdict::verdicts::verdict_on;
use record_verdict::questions::Question;
use std::alloc::Global;

/// The verdict on two logs and the digests of their bytes. Where the order log is not in its
/// grammar, the trade log is not read, and its digest says nothing.
#[derive(Debug, Drop)]
pub struct DigestedVerdict {
    pub verdict: Verdict,
    pub digests: LogDigests,
}

/// The verdict on two logs, as `verdict_on` gives it, with the digests of the bytes that it is
/// on; or why there is none. Each log is read once.
pub fn digested_verdict_on<'a, F: Shelf>(
    alloc: Global,
    shelf: &mut DigestShelf<'a, F>,
    question: &Question,
    orders: &Source<'_>,
    trades: &Source<'_>,
) -> Result<DigestedVerdict, Stop>
    requires limit { HaveOneLimit orders.now trades.now }
    ensures logs { KeepsShelfLogs ⟦<DigestShelf<'a, F> as Shelf>⟧ shelf.old shelf.new }
    ensures later { let shelves = ⟦<DigestShelf<'a, F> as Shelf>⟧ in
        FaultsNeverFall (reading_by orders.now shelves shelf.old shelf.new) }
    ensures decides { let shelves = ⟦<DigestShelf<'a, F> as Shelf>⟧ in
        GivesVerdictOrStop (reading_by orders.now shelves shelf.old shelf.new)
        question.now orders.now trades.now (verdict_alone result) }
    ensures digests { let shelves = ⟦<DigestShelf<'a, F> as Shelf>⟧ in
        let r = reading_by orders.now shelves shelf.old shelf.new in
        IfOk result (λ made. AreDigestsOfGiven r made.digests) }
    ensures within { let shelves = ⟦<DigestShelf<'a, F> as Shelf>⟧ in
        StaysWithin (reading_by orders.now shelves shelf.old shelf.new) result }
    ensures in_range { IfOk result (λ made. IsVerdictInRange made.verdict) }
{
    let verdict = verdict_on(alloc, shelf, question, orders, trades)?;
    Ok(DigestedVerdict {
        verdict,
        digests: LogDigests {
            orders: shelf.digest(Which::Orders),
            trades: shelf.digest(Which::Trades),
        },
    })
}
