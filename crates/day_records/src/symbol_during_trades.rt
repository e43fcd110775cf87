//! What is kept of one symbol of a day while the trade log is read.
ghost use Rattle.std.specs.Prelude.{◌≡◌, ℕ, List, [], OnOk};
ghost use Rattle.audit_base.specs.declared.records.OrderRecord.{OrderRecord};
ghost use Rattle.audit_base.specs.declared.records.TradeRecord.{TradeRecord as TradeRecordSpec};
ghost use Rattle.instruction_history.specs.HistoryOrFlaw.{ForRecords, HasFewRecords};
ghost use Rattle.record_verdict.specs.BeforeRule.{IsJudgeable};
ghost use Rattle.day_records.specs.SymbolDuringTrades.{GivesBeforeRule, HasFewOfSymbol, IsSymbolDuringTrades, TakesTradeOf};

use audit_base::faults::NoMemory;
use audit_base::findings::Finding;
use audit_base::records::TradeRecord;
use instruction_history::history::History;
use instruction_history::history_or_flaw::HistoryOrFlaw;
use matching_core::deals_or_flaw::DealsOrFlaw;
use record_verdict::before_rule::BeforeRule;
use record_verdict::scopes::Admission;
use seeded_hash::seed::HashSeed;
use std::alloc::Global;

/// The orders of a symbol, and the deals between them so far.
#[derive(Drop)]
pub struct SoundSymbol {
    history: History,
    deals: DealsOrFlaw,
}

/// What is known of a symbol of a day after some records of the trade log.
#[derive(Drop)]
pub enum SymbolDuringTrades {
    /// A finding about its orders decides, whatever its trades are.
    Found(Finding),
    /// Its orders have no finding, so its trades decide what is found.
    Sound(SoundSymbol),
}

impl SymbolDuringTrades {
    /// What is known before any trade, by the history of the symbol.
    pub fn of(
        alloc: Global,
        seed: HashSeed,
        admission: Admission,
        history: HistoryOrFlaw,
    ) -> SymbolDuringTrades
        requires { HasFewRecords history }
        ensures { ForRecords history (λ symbol entries.
            IsSymbolDuringTrades admission entries [] symbol result) }
    {
        match history.end() {
            Err(finding) => SymbolDuringTrades::Found(finding),
            Ok(history) => {
                let unadmitted = admission.first_unadmitted(&history.orders());
                match unadmitted {
                    Some(finding) => SymbolDuringTrades::Found(finding),
                    None => {
                        let deals = DealsOrFlaw::new(alloc, seed);
                        SymbolDuringTrades::Sound(SoundSymbol { history, deals })
                    }
                }
            }
        }
    }

    /// Takes the next trade of the symbol, at its place in the log. After `NoMemory` nothing is
    /// known of the symbol.
    pub fn take(&mut self, trade: &TradeRecord, place: u32) -> Result<(), NoMemory>
        ensures { OnOk result (TakesTradeOf self.old self.new place trade.now) }
    {
        match self {
            SymbolDuringTrades::Found(_) => Ok(()),
            SymbolDuringTrades::Sound(sound) => sound.deals.take(&sound.history, trade, place),
        }
    }

    /// What the symbol gives before its rule is looked at. `count` is how many trades the log
    /// has, of all symbols. Takes no memory.
    pub fn end(self, count: u32) -> BeforeRule
        requires { HasFewOfSymbol count self }
        ensures gives { GivesBeforeRule count self result }
        ensures judgeable { IsJudgeable result }
    {
        match self {
            SymbolDuringTrades::Found(finding) => BeforeRule::Found(finding),
            SymbolDuringTrades::Sound(sound) => {
                let SoundSymbol { history, deals } = sound;
                BeforeRule::of(deals.end(history, count))
            }
        }
    }
}
