//! The verdict on each symbol of a share, handed on one after another.
ghost use Rattle.std.specs.Prelude.{[], ℕ, List, IfOk, OnOk};
ghost use Rattle.audit_report.specs.declared.verdicts.Verdict.{Verdict as VerdictSpec};
ghost use Rattle.day_verdicts.specs.DayVerdicts.{RuleTradesFitPlaces};
ghost use Rattle.day_verdicts.specs.VerdictLists.{HasTakenShare, HasTakenVerdicts, TakesVerdict};
ghost use Rattle.record_verdict.specs.RecordVerdict.{as_verdict};
ghost use Rattle.record_verdict.specs.Scopes.{admission_of};

use crate::symbol_walk::{SymbolJudge, judge_each};
use audit_base::faults::NoMemory;
use audit_base::names::Name;
use audit_base::terms::Rule;
use day_records::day_trades::DayRecords;
use day_records::symbol_records::SymbolRecords;
use day_symbols::shares::DayShare;
use record_verdict::questions::Question;
use record_verdict::verdicts::{RecordVerdict, verdict_after};
use std::alloc::Global;

/// What is handed the verdicts on symbols in their order, one by one, and keeps what it needs of
/// them. Its meaning is the symbols and the verdicts that it may have been handed since it was
/// what it was at first.
pub trait VerdictList: Drop {
    // Since it was the first of these, it has been handed exactly these verdicts, on these symbols.
    ghost has_taken: { Self → Self → List (List ℕ) → List VerdictSpec → Type 0 };

    /// Hands on the verdict on the next symbol. A list that has answered `NoMemory` is given up:
    /// nothing is known of it afterwards.
    fn take(&mut self, symbol: &Name, judged: &RecordVerdict) -> Result<(), NoMemory>
        ensures { OnOk result ((first : Self) → TakesVerdict (has_taken first self.old)
            (has_taken first self.new) symbol.now (as_verdict judged.now)) };
}

/// A rule judges the symbols of a day for a list, without tables.
impl<L: VerdictList> SymbolJudge<L> for Rule {
    ghost admission = { admission_of };

    ghost has_judged = { λ rule first list entries trades symbols.
        HasTakenVerdicts (L.has_taken first) rule entries trades symbols list };

    fn judge(
        &self,
        alloc: Global,
        symbol: &Name,
        records: SymbolRecords,
        list: &mut L,
    ) -> Result<(), NoMemory> {
        let question = Question {
            rule: *self,
            symbol: *symbol,
            table: false,
        };
        let given = records.before_rule(alloc)?;
        let judged = verdict_after(alloc, &question, &given)?;
        list.take(symbol, &judged)
    }
}

/// Hands the verdicts of a rule on the symbols of a share to a list, in their order, without
/// tables. The orders and deals of a symbol are made when it is judged, and its memory is freed
/// before the next is judged.
pub fn hand_verdicts<L: VerdictList>(
    alloc: Global,
    rule: Rule,
    share: DayShare,
    ended: DayRecords,
    list: L,
) -> Result<L, NoMemory>
    requires few { RuleTradesFitPlaces rule share ended }
    requires fresh { L.has_taken list list [] [] }
    ensures { IfOk result (HasTakenShare (L.has_taken list) rule share ended) }
{
    judge_each(alloc, &rule, share, ended, list)
}
