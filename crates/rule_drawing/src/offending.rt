//! The places that a picture of continuous trading is about, as numbers of records of the order log.
ghost use Rattle.std.specs.Prelude.{◌≡◌, ◌<◌, ◌^◌, ◌==◌, option_copied};
ghost use Rattle.audit_base.specs.Deals.{IsDealList};
ghost use Rattle.audit_base.specs.Orders.{IsOrderList};
ghost use Rattle.rule_drawing.specs.Offending as spec;

use audit_base::findings::Finding;
use audit_base::orders::Deal;
use audit_base::terms::Which;
use continuous_drawing::trades::cause_of;
use order_list::lists::OrderList;

/// Whether the deal is of the trade at this place.
fn is_at(deal: &Deal, place: u32) -> bool
    ensures { result ≡ (deal.now.place == place) }
{
    deal.place == place
}

/// The deal of the trade at a place of the trade log, if there is one.
fn deal_at(deals: &[Deal], place: u32) -> Option<&Deal>
    ensures { option_copied result ≡ spec.deal_at_place deals.now place }
{
    deals.iter().find(|deal| is_at(deal, place))
}

/// The cause of the trade at a place of the trade log; 0 where it has no deal.
fn cause_at(orders: &OrderList<'_>, deals: &[Deal], place: u32) -> u64
    requires { IsDealList orders.now deals.now }
    ensures { result ≡ spec.cause_at_place orders.now deals.now place }
{
    match deal_at(deals, place) {
        Some(deal) => u64::from(cause_of(orders, deal)),
        None => 0,
    }
}

/// The record of the order log at which a finding of continuous trading broke: that of the finding,
/// or the cause of the trade that it is about; 0 where nothing was found.
pub(crate) fn offending_place(
    orders: &OrderList<'_>,
    deals: &[Deal],
    finding: &Option<Finding>,
) -> u64
    requires { IsDealList orders.now deals.now }
    ensures { result ≡ spec.offending_place orders.now deals.now finding.now }
{
    match finding {
        Some(finding) => match finding.log {
            Which::Orders => u64::from(finding.place),
            Which::Trades => cause_at(orders, deals, finding.place),
        },
        None => 0,
    }
}

/// The number after that of the last order, up to which the picture is drawn.
pub(crate) fn end_of_orders(orders: &OrderList<'_>) -> u64
    requires { IsOrderList orders.now }
    ensures end { result ≡ spec.end_of_orders orders.now }
    ensures fits { result < 2 ^ 33 }
{
    if orders.len() == 0 {
        return 0;
    }
    u64::from(orders.at(orders.len() - 1).place()) + 1
}
