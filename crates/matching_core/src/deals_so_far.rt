//! What is known of the trades of a symbol after some records of a trade log.
ghost use Rattle.std.specs.Prelude.{◌≡◌, ◌+◌, ◌-◌, ◌<◌, ◌^◌, ◌∷◌, [], ◌++◌, ℕ, List, OnOk, Some, length};
ghost use Rattle.audit_base.specs.Orders.{same_name};
ghost use Rattle.audit_base.specs.declared.orders.Order.{Order};
ghost use Rattle.audit_base.specs.declared.records.TradeRecord.{TradeRecord};
ghost use Rattle.log_source.specs.Collectors.{HasPlace};
ghost use Rattle.matching_core.specs.DealsSoFar.{IsDealsSoFar, TakesTrade};

use super::deals_or_flaw::DealsOrFlaw;
use audit_base::faults::NoMemory;
use audit_base::names::Name;
use audit_base::records::TradeRecord;
use instruction_history::history::History;
use seeded_hash::seed::HashSeed;
use std::alloc::Global;
use std::marker::{Brand, PhantomData};

/// The symbol of trades and the orders that they name, for proofs alone. What hands records to
/// collectors of any kind can say of one only which records it has been handed, and not which
/// history it was made for. So the type of a draft says that. Whoever makes a draft picks both, at
/// `Brand`, and nothing of them is there when the program runs.
pub trait HistoryGhost {
    ghost symbol: { List ℕ };

    ghost orders: { List Order };
}

impl HistoryGhost for Brand {
    ghost symbol = { [] };

    ghost orders = { [] };
}

/// Whether the trade is one of this symbol.
fn has_symbol(trade: &TradeRecord, symbol: &Name) -> bool
    ensures { result ≡ same_name trade.now.symbol symbol.now }
{
    trade.symbol == *symbol
}

/// What is known of the trades of a symbol after some records of a trade log: their deals,
/// or their first flaw.
#[derive(Drop)]
pub(crate) struct DealsSoFar<M> {
    /// How many records of the log there were, of all symbols.
    pub count: u32,
    pub kept: DealsOrFlaw,
    of: PhantomData<M>,
}

impl<M: HistoryGhost> DealsSoFar<M> {
    /// No records.
    pub fn new(alloc: Global, seed: HashSeed) -> DealsSoFar<M>
        ensures { IsDealsSoFar M.orders M.symbol result [] }
    {
        DealsSoFar {
            count: 0,
            kept: DealsOrFlaw::new(alloc, seed),
            of: PhantomData,
        }
    }

    /// Takes the next record of the log. A record of another symbol is only counted, and after a
    /// finding so is every record.
    pub fn take(
        &mut self,
        history: &History,
        symbol: &Name,
        trade: &TradeRecord,
    ) -> Result<(), NoMemory>
        requires orders { history.now ≡ M.orders }
        requires symbol { symbol.now ≡ M.symbol }
        requires place { HasPlace (IsDealsSoFar M.orders M.symbol) self.old }
        ensures { OnOk result (TakesTrade M.orders M.symbol self.old self.new trade.now) }
    {
        self.count += 1;
        if !has_symbol(trade, symbol) {
            return Ok(());
        }
        self.kept.take(history, trade, self.count)
    }
}
