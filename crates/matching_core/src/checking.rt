//! Whether deals are a matching, deal by deal.
ghost use Rattle.std.specs.Prelude.{◌≡◌, ◌<◌, ◌+◌, ◌^◌, IfOk, OnOk, ◌≢◌, slice_index, vec_len, Some, None};
ghost use Rattle.std.specs.Bool.{OnTrue};
ghost use Rattle.audit_base.specs.CallOffences.{matching_offence};
ghost use Rattle.audit_base.specs.Calls.{Matching, OnePrice};
ghost use Rattle.audit_base.specs.Deals.{IsDealList, AreTotals, volume};
ghost use Rattle.matching_core.specs.Answers.{IfCheckFinding, IsNoMatching};
ghost use Rattle.matching_core.specs.DealFlaws as at;

use super::deal_flaws::matching_evidence;
use super::outcomes::CheckFault;
use super::totals::{Totals, zeros};
use audit_base::flaws::Flaw;
use audit_base::orders::Deal;
use order_list::lists::OrderList;
use std::alloc::Global;

/// Adds the quantity of a deal to what its two orders trade, and gives what they then trade.
pub fn add_deal(traded: &mut Vec<u128>, bid: usize, ask: usize, quantity: u128) -> (u128, u128)
    requires bid { bid < vec_len traded.old }
    requires ask { ask < vec_len traded.old }
    requires apart { bid ≢ ask }
    requires bid_fits { slice_index traded.old.items bid + quantity < 2 ^ 128 }
    requires ask_fits { slice_index traded.old.items ask + quantity < 2 ^ 128 }
    ensures added { traded.new.items
        ≡ at.traded_with_deal traded.old.items bid ask quantity }
    ensures bid { result.0 ≡ slice_index traded.old.items bid + quantity }
    ensures ask { result.1 ≡ slice_index traded.old.items ask + quantity }
{
    let bid_traded = traded[bid] + quantity;
    let ask_traded = traded[ask] + quantity;
    traded[bid] = bid_traded;
    traded[ask] = ask_traded;
    (bid_traded, ask_traded)
}

/// The totals of deals that are a matching, under `uniform` one of one price; else the first of the
/// findings 7 to 11. One pass over the deals. Ok exactly where they are such a matching and Found
/// exactly where they are not, out of memory aside.
pub fn check_matching(
    alloc: Global,
    orders: &OrderList<'_>,
    deals: &[Deal],
    uniform: bool,
) -> Result<Totals, CheckFault>
    requires { IsDealList orders.now deals.now }
    ensures conforms { OnOk result (matching_offence uniform orders.now deals.now ≡ None) }
    ensures matching { OnOk result (Matching orders.now deals.now) }
    ensures one_price { OnOk result (OnTrue uniform (OnePrice deals.now)) }
    ensures totals { IfOk result (λ totals. AreTotals orders.now deals.now totals.0) }
    ensures volume { IfOk result (λ totals. totals.1 ≡ volume deals.now) }
    ensures found { let offence = matching_offence uniform orders.now deals.now in
        IfCheckFinding result (λ f. offence ≡ Some f) }
    ensures only { IfCheckFinding result (λ _. IsNoMatching uniform orders.now deals.now) }
{
    let mut traded = zeros(alloc, orders.len())?;
    let mut volume: u128 = 0;
    'deals: for deal in deals {
        let quantity = deal.quantity.value() as u128;
        let (bid_traded, ask_traded) = add_deal(&mut traded, deal.bid, deal.ask, quantity);
        let first = &deals[0];
        if let Some(evidence) = matching_evidence(
            uniform, orders, deal, first, bid_traded, ask_traded,
        ) {
            let place = deal.place;
            return Err(CheckFault::Found(orders.finding(Flaw { place, evidence })));
        }
        volume += quantity;
    }
    Ok(Totals::of(traded, volume))
}
