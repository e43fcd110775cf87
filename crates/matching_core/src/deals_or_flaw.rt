//! What is known of the trades of one symbol after some records of a trade log.
//!
//! It knows neither its symbol nor the orders that its trades name, nor how many records there
//! were, so that whoever audits many symbols at once can hold one of each: it is handed the trades
//! of the symbol alone, each with its place in the whole log and with the history of the symbol.
ghost use Rattle.std.specs.Prelude.{◌≡◌, [], ℕ, List, None, OnOk};
ghost use Rattle.audit_base.specs.Deals.{DealsInRange, IsDealList};
ghost use Rattle.audit_base.specs.Trades.{deals_of_symbol, trades_finding};
ghost use Rattle.audit_base.specs.declared.orders.Order.{Order};
ghost use Rattle.instruction_history.specs.Flaws.{flaw_finding, NamesNoOrder};
ghost use Rattle.matching_core.specs.DealsSoFar.{ForTrades, HasFewTrades, IsDealsOrFlaw, TakesOwnTrade};

use super::deals_draft::ResolvedTrades;
use super::sound_deals::SoundDeals;
use audit_base::faults::NoMemory;
use audit_base::findings::Finding;
use audit_base::flaws::Flaw;
use audit_base::records::TradeRecord;
use instruction_history::history::History;
use seeded_hash::seed::HashSeed;
use std::alloc::Global;

/// What is known of the trades of a symbol after some records: their deals, or their first flaw.
#[derive(Drop)]
pub struct DealsOrFlaw {
    /// What is known where there is no flaw.
    pub(crate) sound: SoundDeals,
    pub(crate) flaw: Option<Flaw>,
}

/// The finding of a flaw, if there is one.
fn finding_of(flaw: Option<Flaw>) -> Option<Finding>
    requires { NamesNoOrder flaw }
    ensures { result ≡ flaw_finding flaw }
{
    match flaw {
        Some(flaw) => Some(flaw.finding()),
        None => None,
    }
}

impl DealsOrFlaw {
    /// No records, of whatever symbol and between whatever orders. Ids are found by hashes of this
    /// seed. Takes no memory.
    pub fn new(alloc: Global, seed: HashSeed) -> DealsOrFlaw
        ensures { (orders : List Order) (symbol : List ℕ) → IsDealsOrFlaw orders symbol result [] }
    {
        DealsOrFlaw {
            sound: SoundDeals::new(alloc, seed),
            flaw: None,
        }
    }

    /// Takes the next trade of the symbol, at its place in the log. After a flaw nothing more is kept. After
    /// `NoMemory` nothing is known of the deals.
    pub fn take(
        &mut self,
        history: &History,
        trade: &TradeRecord,
        place: u32,
    ) -> Result<(), NoMemory>
        ensures { OnOk result (TakesOwnTrade history.now self.old self.new place trade.now) }
    {
        if let Some(_) = self.flaw {
            return Ok(());
        }
        let Some(Flaw { place, evidence }) = self.sound.take(history, trade, place)? else {
            return Ok(());
        };
        self.flaw = Some(Flaw { place, evidence });
        Ok(())
    }

    /// The deals between the orders of the history, where the trades are sound, or their first finding.
    /// `count` is how many records the log has, of all symbols. The ids are given up, and what finds
    /// the keys of many orders.
    pub fn end(self, history: History, count: u32) -> ResolvedTrades
        requires { HasFewTrades history self }
        ensures history { result.history ≡ history }
        ensures count { result.count ≡ count }
        ensures finding { ForTrades history self
            (λ symbol trades. trades_finding history symbol trades ≡ result.finding) }
        ensures deals { result.finding ≡ None → ForTrades history self
            (λ symbol trades. result.deals.items ≡ deals_of_symbol history symbol trades) }
        ensures deal_list { result.finding ≡ None → IsDealList history result.deals.items }
        ensures numbers { result.finding ≡ None → DealsInRange result.deals.items }
    {
        let DealsOrFlaw { sound, flaw } = self;
        let SoundDeals { deals, ids } = sound;
        // Before the keys are copied.
        drop(ids);
        ResolvedTrades {
            history: history.into_orders(),
            count,
            deals,
            finding: finding_of(flaw),
        }
    }
}
