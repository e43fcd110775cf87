//! The deals of sound trades: each trade with its bid and its ask.
ghost use Rattle.std.specs.Prelude.{◌≡◌, [], List, None, Some, IfOk, IfErr, OnOk};
ghost use Rattle.audit_base.specs.Flaws.{IsEvidenceInside};
ghost use Rattle.audit_base.specs.Trades.{deal_of_trade};
ghost use Rattle.instruction_history.specs.Flaws.{finding_at, flaw_finding, NamesNoOrder};
ghost use Rattle.matching_core.specs.DealsSoFar as so_far;

use super::trade_ids::TradeIds;
use audit_base::faults::NoMemory;
use audit_base::flaws::{Evidence, Flaw};
use audit_base::orders::Deal;
use audit_base::ranges::deal_in_range;
use audit_base::records::TradeRecord;
use audit_base::terms::Side;
use instruction_history::history::History;
use seeded_hash::seed::HashSeed;
use std::alloc::Global;

/// The deal of a trade, or finding 6: there is no bid of its buy key, or else no
/// ask of its sell key.
fn deal_of(history: &History, trade: &TradeRecord, place: u32) -> Result<Deal, Evidence>
    ensures deal { IfOk result (λ deal. deal ≡ deal_of_trade history.now (place, trade.now)) }
    ensures known { OnOk result (so_far.unknown_order_of history.now (place, trade.now) ≡ None) }
    ensures unknown { let unknown = so_far.unknown_order_of history.now (place, trade.now) in
        IfErr result (λ evidence. unknown ≡ Some (finding_at place evidence)) }
    ensures alone { IfErr result (IsEvidenceInside []) }
{
    let Some(bid) = history.find_on_side(Side::Buy, &trade.buy) else {
        return Err(Evidence::UnknownOrder(Side::Buy, trade.buy));
    };
    let Some(ask) = history.find_on_side(Side::Sell, &trade.sell) else {
        return Err(Evidence::UnknownOrder(Side::Sell, trade.sell));
    };
    Ok(Deal {
        place,
        bid,
        ask,
        quantity: trade.quantity,
        price: trade.price,
    })
}

/// The deals of trades that have no finding, and where each of their ids came first.
#[derive(Drop)]
pub(crate) struct SoundDeals {
    pub deals: Vec<Deal>,
    pub ids: TradeIds,
}

impl SoundDeals {
    ghost use Rattle.audit_base.specs.declared.orders.Order.{Order};
    ghost use Rattle.matching_core.specs.DealsSoFar.{AreKeptOfTrades, KnowsNextTrade, AddsDeal};

    /// No trades.
    pub fn new(alloc: Global, seed: HashSeed) -> SoundDeals
        ensures { (orders : List Order) → AreKeptOfTrades orders [] result }
    {
        SoundDeals {
            deals: Vec::new(alloc),
            ids: TradeIds::new(alloc, seed),
        }
    }

    /// Takes the next trade of the symbol, at its place in the log, or says why it is not sound.
    /// Then nothing is known of what is kept.
    pub fn take(
        &mut self,
        history: &History,
        trade: &TradeRecord,
        place: u32,
    ) -> Result<Option<Flaw>, NoMemory>
        ensures knows { let knows = KnowsNextTrade history.now self.old self.new place trade.now in
            IfOk result (λ flaw. knows (flaw_finding flaw)) }
        ensures alone { IfOk result NamesNoOrder }
    {
        // One look-up gives which trade had the id and adds it.
        if let Some(first) = self.ids.add(&trade.trade, place)? {
            let evidence = Evidence::DuplicateTrade(first);
            return Ok(Some(Flaw { place, evidence }));
        }
        match deal_of(history, trade, place) {
            Err(evidence) => Ok(Some(Flaw { place, evidence })),
            Ok(deal) => {
                self.add(deal)?;
                Ok(None)
            }
        }
    }

    /// Adds the deal of a trade that has no finding, and whose id has been added.
    fn add(&mut self, deal: Deal) -> Result<(), NoMemory>
        ensures { OnOk result (AddsDeal self.old self.new deal) }
    {
        deal_in_range(&deal);
        self.deals.push(deal)?;
        Ok(())
    }
}
