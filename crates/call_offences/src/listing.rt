//! Every offence under a rule of a call, by the first.
ghost use Rattle.std.specs.Prelude.{◌≡◌, IfOk};
ghost use Rattle.audit_base.specs.Deals.{IsDealList};
ghost use Rattle.audit_base.specs.Orders.{IsOrderList};
ghost use Rattle.call_offences.specs.Inside.{IsListingInside};
ghost use Rattle.call_offences.specs.Listings.{call_asks_one_price, IsListingOf};

use super::matching::matching_offences;
use super::priority::priority_offences;
use audit_base::faults::NoMemory;
use audit_base::findings::Finding;
use audit_base::orders::Deal;
use audit_base::terms::CallRule;
use offence_list::kinds::OffenceKind;
use offence_list::offences::ListedOffence;
use order_list::lists::OrderList;
use std::alloc::Global;

/// All offences of deals whose first is known.
#[derive(Drop)]
pub enum Listing {
    /// The first one alone.
    Alone,
    /// These, of which it is the first.
    Listed(Vec<ListedOffence>),
}

/// Whether the rule asks for one price.
fn asks_one_price(rule: CallRule) -> bool
    ensures { result ≡ call_asks_one_price rule }
{
    match rule {
        CallRule::Matching | CallRule::Fair => false,
        CallRule::Greatest(rule) => rule.asks_one_price(),
    }
}

/// Every offence of the deals under a rule of a call, where `first` is the finding of their
/// verdict: with one of 7 to 11 the first of these of each deal, with 12 or 13 the first of these
/// two, else it alone. Err only out of memory.
pub fn call_offences(
    alloc: Global,
    rule: CallRule,
    orders: &OrderList<'_>,
    deals: &[Deal],
    first: &Finding,
) -> Result<Listing, NoMemory>
    requires order_list { IsOrderList orders.now }
    requires deal_list { IsDealList orders.now deals.now }
    ensures list { IfOk result (IsListingOf rule orders.now deals.now first.now) }
    ensures inside { IfOk result (IsListingInside orders.now) }
{
    match OffenceKind::of(first.property) {
        OffenceKind::OfDeal => {
            let found = matching_offences(alloc, orders, deals, asks_one_price(rule))?;
            Ok(Listing::Listed(found))
        }
        OffenceKind::OfPriority => {
            let found = priority_offences(alloc, orders, deals)?;
            Ok(Listing::Listed(found))
        }
        OffenceKind::Alone | OffenceKind::OfBook => Ok(Listing::Alone),
    }
}
