//! The orders of a side as steps: each order alone, or the orders of one limit together.
ghost use Rattle.std.specs.Prelude.{◌≡◌, ◌<◌, ◌≤◌, ◌+◌, ◌++◌, ◌^◌, [], ◌∷◌, All, IfOk, List, OnOk, length};
ghost use Rattle.audit_base.specs.declared.orders.Deal.{Deal as DealSpec};
ghost use Rattle.audit_base.specs.declared.terms.Side.{Side as SideSpec};
ghost use Rattle.audit_base.specs.Deals.{AreTotals};
ghost use Rattle.audit_base.specs.Orders.{OrdersInRange};
ghost use Rattle.audit_base.specs.Priority.{IsRanked};
ghost use Rattle.call_picture.specs.Merging.{AreTotalsSmall, finished_steps, next_step, step_of_order};
ghost use Rattle.call_picture.specs.Steps.{AreSteps};

use audit_base::faults::NoMemory;
use audit_base::numbers::Price;
use order_list::lists::OrderList;
use std::alloc::Global;

/// A step of a side: an order, or the orders of one limit.
#[derive(Clone, Copy, Debug, PartialEq, Eq, Drop)]
pub struct SideStep {
    /// The index of its best order in the order list.
    pub best: usize,
    /// How many orders it has.
    pub orders: usize,
    /// The limit of each of them.
    pub limit: Price,
    /// What they ask for or offer together.
    pub quantity: u128,
    /// What they traded together.
    pub traded: u128,
}

/// The step of one order.
fn step_of_order(orders: &OrderList<'_>, traded: &[u128], index: usize) -> SideStep
    requires inside { index < length orders.now }
    requires count { length traded.now ≡ length orders.now }
    ensures { result ≡ step_of_order orders.now traded.now index }
{
    let order = orders.at(index);
    SideStep {
        best: index,
        orders: 1,
        limit: order.limit(),
        quantity: order.quantity().value() as u128,
        traded: traded[index],
    }
}

/// Adds a step after the others.
fn push_step(steps: &mut Vec<SideStep>, step: SideStep) -> Result<(), NoMemory>
    ensures { OnOk result (steps.new.items ≡ steps.old.items ++ step ∷ []) }
{
    steps.push(step)?;
    Ok(())
}

/// The step that is made after the next order: the one so far with this order, where the two are
/// drawn as one, or else that of the order. The one so far is then added to the finished ones.
fn merge_step(
    steps: &mut Vec<SideStep>,
    by_limit: bool,
    step: SideStep,
    next: SideStep,
) -> Result<SideStep, NoMemory>
    requires orders { step.orders + next.orders < 2 ^ 64 }
    requires quantity { step.quantity + next.quantity < 2 ^ 128 }
    requires traded { step.traded + next.traded < 2 ^ 128 }
    ensures next { IfOk result (λ made. made ≡ next_step by_limit step next) }
    ensures finished { OnOk result (steps.new.items
        ≡ finished_steps by_limit steps.old.items step next) }
{
    if by_limit && step.limit == next.limit {
        return Ok(SideStep {
            orders: step.orders + next.orders,
            quantity: step.quantity + next.quantity,
            traded: step.traded + next.traded,
            ..step
        });
    }
    push_step(steps, step)?;
    Ok(next)
}

/// The ranked orders of a side as steps, each order alone or, `by_limit`, the orders of one limit
/// together. `traded` is what each order traded, by its index. Err only out of memory.
pub fn steps_of(
    alloc: Global,
    orders: &OrderList<'_>,
    traded: &[u128],
    ranks: &[usize],
    by_limit: bool,
) -> Result<Vec<SideStep>, NoMemory>
    requires in_range { OrdersInRange orders.now }
    requires count { length traded.now ≡ length orders.now }
    requires small { AreTotalsSmall traded.now }
    requires inside { All (λ order. order < length orders.now) ranks.now }
    requires fits { length ranks.now < 2 ^ 32 }
    ensures { (deals : List DealSpec) → (side : SideSpec) → AreTotals orders.now deals traded.now
        → IsRanked orders.now side ranks.now
        → IfOk result (λ steps. AreSteps orders.now deals side by_limit ranks.now steps.items) }
{
    let mut steps = Vec::new(alloc);
    if ranks.is_empty() {
        return Ok(steps);
    }
    let mut step = step_of_order(orders, traded, ranks[0]);
    for at in 1..ranks.len() {
        let next = step_of_order(orders, traded, ranks[at]);
        step = merge_step(&mut steps, by_limit, step, next)?;
    }
    push_step(&mut steps, step)?;
    Ok(steps)
}
