//! Whether a matching is fair.
ghost use Rattle.std.specs.Prelude.{◌≡◌, ◌↔◌, IsOk};
ghost use Rattle.std.specs.Result.{result_err};
ghost use Rattle.audit_base.specs.declared.terms.Side.TheVariants.{Buy, Sell};
ghost use Rattle.audit_base.specs.Orders.{IsOrderList};
ghost use Rattle.audit_base.specs.Priority.{IsRanked};
ghost use Rattle.audit_base.specs.Deals.{AreTotals, IsDealList};
ghost use Rattle.audit_base.specs.Calls.{Matching, Fair};
ghost use Rattle.audit_base.specs.CallOffences.{best_short, fair_offence};

use super::passing::unfair_flaw;
use audit_base::findings::Finding;
use audit_base::orders::Deal;
use audit_base::ranges::deals_in_range;
use audit_base::terms::Side;
use order_list::lists::OrderList;
use short_order::ranked::best_short;
use short_order::searching::best_short_on;

/// Whether no deal passes over the best short order of its side.
fn check_passing(
    orders: &OrderList<'_>,
    deals: &[Deal],
    traded: &[u128],
    short_bid: Option<usize>,
    short_ask: Option<usize>,
) -> Result<(), Finding>
    requires order_list { IsOrderList orders.now }
    requires deal_list { IsDealList orders.now deals.now }
    requires matching { Matching orders.now deals.now }
    requires totals { AreTotals orders.now deals.now traded.now }
    requires short_bid { short_bid ≡ best_short orders.now deals.now Buy }
    requires short_ask { short_ask ≡ best_short orders.now deals.now Sell }
    ensures offence { result_err result ≡ fair_offence orders.now deals.now }
    ensures fair { IsOk result ↔ Fair orders.now deals.now }
{
    deals_in_range(deals);
    for deal in deals {
        if let Some(flaw) = unfair_flaw(orders, traded, short_bid, short_ask, deal) {
            return Err(orders.finding(flaw));
        }
    }
    Ok(())
}

/// Whether a matching is fair: an order that is better by price-time priority than one that
/// trades is fully traded. Ok exactly where it is, else the first of the findings that a short
/// bid or a short ask is passed over: of the least deal that passes one over, and of its two the
/// one of the bids. It shows the best short order of the side and the deal's order, with what
/// they trade in all deals.
///
/// `bids` and `asks` are the ranks of the two sides, and `traded` is what each order trades, by its
/// index. One pass over the deals. Takes no memory.
pub fn check_fair(
    orders: &OrderList<'_>,
    bids: &[usize],
    asks: &[usize],
    deals: &[Deal],
    traded: &[u128],
) -> Result<(), Finding>
    requires order_list { IsOrderList orders.now }
    requires deal_list { IsDealList orders.now deals.now }
    requires matching { Matching orders.now deals.now }
    requires bids { IsRanked orders.now Buy bids.now }
    requires asks { IsRanked orders.now Sell asks.now }
    requires totals { AreTotals orders.now deals.now traded.now }
    ensures offence { result_err result ≡ fair_offence orders.now deals.now }
    ensures fair { IsOk result ↔ Fair orders.now deals.now }
{
    let short_bid = best_short(orders, bids, traded);
    let short_ask = best_short(orders, asks, traded);
    check_passing(orders, deals, traded, short_bid, short_ask)
}

/// The same where no rank is at hand: one pass over the orders for each side, and one over the
/// deals, where a rank would have to be sorted first. Takes no memory.
pub fn check_fair_unranked(
    orders: &OrderList<'_>,
    deals: &[Deal],
    traded: &[u128],
) -> Result<(), Finding>
    requires order_list { IsOrderList orders.now }
    requires deal_list { IsDealList orders.now deals.now }
    requires matching { Matching orders.now deals.now }
    requires totals { AreTotals orders.now deals.now traded.now }
    ensures offence { result_err result ≡ fair_offence orders.now deals.now }
    ensures fair { IsOk result ↔ Fair orders.now deals.now }
{
    let short_bid = best_short_on(orders, traded, Side::Buy);
    let short_ask = best_short_on(orders, traded, Side::Sell);
    check_passing(orders, deals, traded, short_bid, short_ask)
}
