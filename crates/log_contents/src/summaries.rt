//! What is told of a log, whatever its records are.
ghost use Rattle.std.specs.Prelude.{ℕ, List};
ghost use Rattle.log_contents.specs.Contents.{HasKinds, HasRecords};
ghost use Rattle.log_contents.specs.Summaries.{IsSummaryOf, log_items};

use crate::contents::Contents;
use crate::kind_counts::KindCounts;
use crate::record_facts::TimedRecord;
use crate::time_spans::TimeSpan;
use day_symbols::symbols::Symbols;

/// What is told of a log: how often each kind is there, the symbols of its records, and from when
/// to when they are, where there are any.
#[derive(Drop)]
pub struct Summary {
    pub kinds: KindCounts,
    pub symbols: Symbols,
    pub times: Option<TimeSpan>,
}

impl<R: TimedRecord> Contents<R> {
    /// What is told of a log with these contents.
    pub fn summary(self) -> Summary
        ensures { (kinds : List (List ℕ)) (entries : List R) → HasKinds self kinds
            → HasRecords R.symbol_of R.time_of self entries
            → IsSummaryOf (log_items R.symbol_of R.time_of kinds entries) result }
    {
        Summary {
            kinds: self.kinds,
            symbols: self.facts.symbols,
            times: self.facts.times,
        }
    }
}
