//! The records of one symbol of a day, as the judge of the symbol gets them.
ghost use Rattle.std.specs.Prelude.{◌≡◌, IfOk};
ghost use Rattle.day_records.specs.KeptRecords.{times_if};
ghost use Rattle.day_records.specs.SymbolRecords.{HasFewSymbolRecords, RecordsGive};
ghost use Rattle.record_verdict.specs.BeforeRule.{IsJudgeable};

use crate::kept_records::KeptRecords;
use audit_base::faults::NoMemory;
use audit_base::stamps::Stamp;
use record_verdict::before_rule::BeforeRule;
use record_verdict::scopes::Admission;
use seeded_hash::seed::HashSeed;
use std::alloc::Global;

/// The records of a symbol, and what of its day is needed to judge it.
#[derive(Drop)]
pub struct SymbolRecords {
    pub records: KeptRecords,
    /// How many records the trade log has, of all symbols.
    pub count: u32,
    /// The seed of the hashes by which keys and ids are found.
    pub seed: HashSeed,
    /// Which orders are admitted.
    pub admission: Admission,
}

impl SymbolRecords {
    /// The times of the symbol's trades, in their order, where they are asked for. Where they are
    /// not, there are none, and this takes no memory.
    pub fn trade_times(&self, alloc: Global, asked: bool) -> Result<Vec<Stamp>, NoMemory>
        ensures { let trades = self.now.records.trades.trades in
            IfOk result (λ times. times.items ≡ times_if asked trades) }
    {
        self.records.trade_times(alloc, asked)
    }

    /// What the records give before any rule is looked at. Their memory is freed.
    pub fn before_rule(self, alloc: Global) -> Result<BeforeRule, NoMemory>
        requires { HasFewSymbolRecords self }
        ensures gives { IfOk result (RecordsGive self) }
        ensures judgeable { IfOk result IsJudgeable }
    {
        let SymbolRecords {
            records,
            count,
            seed,
            admission,
        } = self;
        let resolved = records.resolve(alloc, seed, admission)?;
        Ok(resolved.end(count))
    }

    /// What the records give before any rule is looked at. The records are kept, for a judge that
    /// tells of them.
    pub fn before_rule_keeping(&self, alloc: Global) -> Result<BeforeRule, NoMemory>
        requires { HasFewSymbolRecords self.now }
        ensures gives { IfOk result (RecordsGive self.now) }
        ensures judgeable { IfOk result IsJudgeable }
    {
        let resolved = self
            .records
            .resolve_keeping(alloc, self.seed, self.admission)?;
        Ok(resolved.end(self.count))
    }
}
