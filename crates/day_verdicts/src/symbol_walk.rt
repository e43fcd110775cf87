//! The walk over the symbols of a share: each is judged by its records, one after another. What is
//! looked for in a symbol, and what is kept of it, is for a judge to say: a rule with the checks
//! behind it (`judging`), a rule alone (`verdict_lists`), or the phases of a day.
ghost use Rattle.std.specs.Prelude.{[], ℕ, List, IfOk, OnOk};
ghost use Rattle.audit_base.specs.declared.records.OrderRecord.{OrderRecord};
ghost use Rattle.audit_base.specs.declared.records.TradeRecord.{TradeRecord};
ghost use Rattle.day_verdicts.specs.SymbolWalks.{HasJudgedShare, IsNext, JudgesNext, TradesFitPlaces};
ghost use Rattle.record_verdict.specs.declared.scopes.Admission.{Admission};

use audit_base::faults::NoMemory;
use audit_base::names::Name;
use day_records::day_trades::DayRecords;
use day_records::symbol_records::SymbolRecords;
use day_symbols::shares::DayShare;
use std::alloc::Global;

/// A judge of the symbols of a day, which is handed one after another with its records, and keeps of
/// them what it needs in a `K`. Its meaning is the symbols that may have been judged since what is
/// kept was what it was at first, and the records that they were judged over.
pub trait SymbolJudge<K> {
    // Which orders it admits.
    ghost admission: { Self → Admission };

    // Since what is kept was the first of these, and until it was the second, exactly these symbols
    // were judged, over these records.
    ghost has_judged: { Self → K → K → List OrderRecord → List TradeRecord → List (List ℕ)
        → Type 0 };

    /// Judges the next symbol by its records, and frees their memory. After `NoMemory` nothing is
    /// known of what is kept.
    fn judge(
        &self,
        alloc: Global,
        symbol: &Name,
        records: SymbolRecords,
        kept: &mut K,
    ) -> Result<(), NoMemory>
        requires { let next = IsNext (admission self.now) in
            next (has_judged self.now) symbol.now records kept.old }
        ensures { let judges = JudgesNext (admission self.now) in OnOk result
            (judges (has_judged self.now) symbol.now records kept.old kept.new) };
}

/// Hands the symbols of a share to a judge, in their order, each with its records. What a symbol
/// took is freed before the next is judged.
pub fn judge_each<K: Drop, J: SymbolJudge<K>>(
    alloc: Global,
    judge: &J,
    share: DayShare,
    ended: DayRecords,
    first: K,
) -> Result<K, NoMemory>
    requires few { TradesFitPlaces share (J.admission judge.now) ended }
    requires fresh { (entries : List OrderRecord) (trades : List TradeRecord)
        → J.has_judged judge.now first first entries trades [] }
    ensures { let has_judged = J.has_judged judge.now first in
        IfOk result (HasJudgedShare (J.admission judge.now) has_judged share ended) }
{
    let DayRecords {
        symbols,
        kept,
        count,
        seed,
        admission,
    } = ended;
    let mut judged = first;
    let mut share_index: usize = 0;
    for records in kept {
        let Some(symbol) = share.symbol_at(&symbols, share_index) else {
            unreachable!();
        };
        let own = SymbolRecords {
            records,
            count,
            seed,
            admission,
        };
        judge.judge(alloc, symbol, own, &mut judged)?;
        share_index += 1;
    }
    Ok(judged)
}
