//! Whether deals conform to the rule of continuous trading.
ghost use Rattle.std.specs.Prelude.{◌≡◌, IfOk};
ghost use Rattle.audit_base.specs.Orders.{IsOrderList};
ghost use Rattle.audit_base.specs.Deals.{IsDealList};
ghost use Rattle.continuous_audit.specs.Audits.{IsContinuousOutcome};

use super::endings::sort_endings;
use super::incoming_deals::sort_incoming_deals;
use super::indexed_deals::IndexedDeals;
use super::state::TradingState;
use audit_base::faults::NoMemory;
use audit_base::orders::Deal;
use audit_base::ranges::deals_in_range;
use continuous_laws::laws::continuous_uniqueness;
use matching_core::outcomes::{Outcome, Reached};
use matching_core::totals::{Totals, volume_of};
use order_list::lists::OrderList;
use std::alloc::Global;

/// The numbers as a verdict has them.
fn widen(alloc: Global, numbers: &[u64]) -> Result<Vec<u128>, NoMemory>
    ensures { IfOk result (λ wide. wide.items ≡ numbers.now) }
{
    let mut wide = Vec::with_capacity(alloc, numbers.len())?;
    for (index, number) in numbers.iter().enumerate() {
        wide.push(u128::from(*number))?;
    }
    Ok(wide)
}

/// The audit of the rule of continuous trading. Conforms exactly where it holds, unless it is out
/// of memory: with what each order traded, and the volume. Else Broken has the first offence: an
/// order that is inactive, a limit, a quantity, a priority or the spread.
pub fn audit_continuous(
    alloc: Global,
    orders: &OrderList<'_>,
    deals: &[Deal],
) -> Result<Outcome, NoMemory>
    requires order_list { IsOrderList orders.now }
    requires deal_list { IsDealList orders.now deals.now }
    ensures { IfOk result (IsContinuousOutcome orders.now deals.now) }
{
    // A law and the ranges that the answer rests on. They compute nothing.
    continuous_uniqueness();
    deals_in_range(deals);
    let volume = volume_of(deals);
    let incoming_deals = sort_incoming_deals(alloc, orders, deals)?;
    let endings = sort_endings(alloc, orders)?;
    let market = IndexedDeals {
        orders,
        deals,
        incoming_deals: &incoming_deals,
        endings: &endings,
    };
    let mut state = TradingState::new(alloc, orders.len())?;
    if let Some(finding) = state.first_offence(&market)? {
        return Ok(Outcome::Broken(finding));
    }
    let traded = state.into_traded();
    let wide = widen(alloc, &traded)?;
    Ok(Outcome::Conforms(Reached {
        traded: Totals::of(wide, volume),
        bound: None,
    }))
}
