//! The draft of deals: what is handed the records of a trade log one after another, and keeps what
//! the deals of its symbol need of them.
//!
//! A draft counts every record, since places are counted over all symbols. A record of another
//! symbol is only counted, and after the first finding so is every record. No room is reserved,
//! since only the end of the log says how many deals there are: the deals and the ids grow with
//! them, by doubling.
ghost use Rattle.std.specs.Prelude.{◌≡◌, ◌<◌, ◌-◌, ◌^◌, [], None, length};
ghost use Rattle.audit_base.specs.Deals.{IsDealList, DealsInRange};
ghost use Rattle.matching_core.specs.DealsDraft.{IsDealsDraft, ForHandedTrades, IsFindingOfTrades, AreDealsOf};
ghost use Rattle.log_source.specs.Collectors.{HasPlace};

use super::deals_so_far::DealsSoFar;
pub use super::deals_so_far::HistoryGhost;
use audit_base::faults::NoMemory;
use audit_base::findings::Finding;
use audit_base::names::Name;
use audit_base::orders::Deal;
use audit_base::records::TradeRecord;
use instruction_history::history::History;
use instruction_history::history_orders::HistoryOrders;
use log_source::collector::Collector;
use seeded_hash::seed::HashSeed;
use std::alloc::Global;

/// What is known of the trades of a symbol after some records of a trade log: their deals, or
/// their first finding.
#[derive(Drop)]
pub struct DealsDraft<M> {
    symbol: Name,
    history: History,
    so_far: DealsSoFar<M>,
}

/// The deals of the trades of a log, between the orders of a history, or their first finding.
#[derive(Drop)]
pub struct ResolvedTrades {
    /// The order list of the history.
    pub history: HistoryOrders,
    /// How many records the log has, of all symbols.
    pub count: u32,
    pub deals: Vec<Deal>,
    /// The first finding; then the deals say nothing.
    pub finding: Option<Finding>,
}

impl<M: HistoryGhost> DealsDraft<M> {
    /// A draft that has been handed no records, and finds ids by hashes of this
    /// seed. Takes no memory.
    pub fn new(alloc: Global, seed: HashSeed, symbol: Name, history: History) -> DealsDraft<M>
        requires symbol { symbol ≡ M.symbol }
        requires orders { history ≡ M.orders }
        ensures { IsDealsDraft M.symbol M.orders result [] }
    {
        DealsDraft {
            symbol,
            history,
            so_far: DealsSoFar::new(alloc, seed),
        }
    }

    /// The deals, where the trades are sound, or their first finding. What finds ids and keys is
    /// given up.
    pub fn end(self) -> ResolvedTrades
        requires { HasPlace (IsDealsDraft M.symbol M.orders) self }
        ensures history { result.history ≡ M.orders }
        ensures count { ForHandedTrades M.symbol M.orders self
            (λ trades. result.count ≡ length trades) }
        ensures finding { IsFindingOfTrades M.symbol M.orders self result.finding }
        ensures deals { AreDealsOf M.symbol M.orders self result.finding result.deals.items }
        ensures deal_list { result.finding ≡ None → IsDealList M.orders result.deals.items }
        ensures numbers { result.finding ≡ None → DealsInRange result.deals.items }
    {
        let DealsDraft {
            history,
            so_far,
            ..
        } = self;
        let DealsSoFar { count, kept, .. } = so_far;
        kept.end(history, count)
    }
}

impl<M: HistoryGhost> Collector for DealsDraft<M> {
    ghost use Rattle.audit_base.specs.Orders.{same_name};

    type Entry = TradeRecord;

    ghost has_taken = { IsDealsDraft M.symbol M.orders };

    ghost wants = { λ draft symbol. same_name symbol draft.symbol };

    fn take(&mut self, trade: TradeRecord) -> Result<(), NoMemory> {
        self.so_far.take(&self.history, &self.symbol, &trade)
    }

    fn wants(&self, symbol: &[u8]) -> bool {
        symbol == self.symbol.bytes()
    }

    fn pass_over(&mut self) {
        self.so_far.count += 1;
    }

    fn count(&self) -> u32 {
        self.so_far.count
    }
}
