//! The deals of one record, one after another.
ghost use Rattle.std.specs.Prelude.{◌≡◌, ◌≢◌, ◌≤◌, ◌<◌, ◌+◌, ◌^◌, suc, None, length, slice_index, vec_len};
ghost use Rattle.matching_core.specs.DealFlaws.{traded_with_deal};
ghost use Rattle.continuous_audit.specs.Flaws.{IsFindingOfFlaw};
ghost use Rattle.continuous_audit.specs.IndexedDeals.{HaveTraded, IsIndexedDeals};
ghost use Rattle.continuous_audit.specs.Records.{IsKnownBeforeDeals, conservation_at};

use super::checking::{Accounts, RecordOfDeal, deal_evidence};
use super::indexed_deals::IndexedDeals;
use super::order_numbers::OrderNumbers;
use audit_base::flaws::Flaw;

/// What each order has traded in the first of the incoming deals.
#[derive(Drop)]
pub struct RunningTotals {
    /// At most the greatest Size as long as no deal has a flaw, so 64 bits are enough.
    pub traded: Vec<u64>,
    /// How many of the incoming deals are added.
    pub added: usize,
}

/// Adds the quantity of a deal to what its two orders trade, and gives what they then trade.
fn add_quantity(traded: &mut Vec<u64>, bid: usize, ask: usize, quantity: u64) -> (u64, u64)
    requires bid { bid < vec_len traded.old }
    requires ask { ask < vec_len traded.old }
    requires apart { bid ≢ ask }
    requires bid_fits { slice_index traded.old.items bid + quantity < 2 ^ 64 }
    requires ask_fits { slice_index traded.old.items ask + quantity < 2 ^ 64 }
    ensures added { traded.new.items ≡ traded_with_deal traded.old.items bid ask quantity }
    ensures bid { result.0 ≡ slice_index traded.old.items bid + quantity }
    ensures ask { result.1 ≡ slice_index traded.old.items ask + quantity }
{
    let bid_traded = traded[bid] + quantity;
    let ask_traded = traded[ask] + quantity;
    traded[bid] = bid_traded;
    traded[ask] = ask_traded;
    (bid_traded, ask_traded)
}

/// Adds what the deals of the order at `order` trade, up to the first that has a flaw.
pub fn check_deals(
    market: &IndexedDeals<'_>,
    order_numbers: &OrderNumbers,
    order: usize,
    entered: bool,
    running: &mut RunningTotals,
) -> Option<Flaw>
    requires market { IsIndexedDeals market.now }
    requires order { order < length market.now.orders.now }
    requires known { IsKnownBeforeDeals market.now.orders.now market.now.deals.now
        order entered order_numbers.now }
    requires traded { HaveTraded market.now order running.old }
    ensures traded { result ≡ None → HaveTraded market.now (suc order) running.new }
    ensures from { result ≡ None → running.old.added ≤ running.new.added }
    ensures found { IsFindingOfFlaw market.now.orders.now result
        (conservation_at market.now.orders.now market.now.deals.now order) }
{
    let (orders, deals, incoming_deals) = (market.orders, market.deals, market.incoming_deals);
    let deal_record = RecordOfDeal {
        place: orders.at(order).place(),
        entered,
    };
    while running.added < incoming_deals.len() {
        let incoming = incoming_deals[running.added];
        if incoming.order as usize != order {
            return None;
        }
        let deal = &deals[incoming.deal as usize];
        let quantity = deal.quantity.value();
        let traded = &mut running.traded;
        let (bid_traded, ask_traded) = add_quantity(traded, deal.bid, deal.ask, quantity);
        let known = Accounts {
            bid: order_numbers.account(deal.bid, bid_traded as u128),
            ask: order_numbers.account(deal.ask, ask_traded as u128),
        };
        let (bid, ask) = (orders.at(deal.bid), orders.at(deal.ask));
        if let Some(evidence) = deal_evidence(deal, &bid, &ask, deal_record, known) {
            let place = deal.place;
            return Some(Flaw { place, evidence });
        }
        running.added += 1;
    }
    None
}
