//! From one phase to the next: the order list of a phase from what the earlier ones leave and
//! what was traded in them, and what the phase adds to that.
ghost use Rattle.std.specs.Prelude.{◌≡◌, ◌<◌, ◌≤◌, ◌+◌, ◌-◌, ◌^◌, [], ℕ, IfOk, List, None, Ok, Some, length, replicate, vec_len};
ghost use Rattle.audit_base.specs.declared.findings.Finding.{Finding as FindingSpec};
ghost use Rattle.audit_base.specs.declared.orders.Deal.{Deal as DealSpec};
ghost use Rattle.audit_base.specs.Deals.{IsDealList, traded};
ghost use Rattle.audit_base.specs.Histories.{Regular};
ghost use Rattle.audit_base.specs.Orders.{IsOrderList};
ghost use Rattle.session_audit.specs.Judging.{IsBrokenPhase};
ghost use Rattle.session_audit.specs.Leaving.{EndsBy};
ghost use Rattle.session_audit.specs.Numbers.{AreBoundedTotals, WithinQuantities};
ghost use Rattle.session_audit.specs.PhaseOrders.{phase_list_at};
ghost use Rattle.session_audit.specs.Phases as spec;
ghost use Rattle.session_audit.specs.Progress.{AddsNumbers, AddsPhase, HasPhaseTotals, IsDaySoFar, left_numbers_after_phase};

use super::chains::chain_totals;
use super::entering::{amounts_of, list_orders, order_count_through};
use super::judging::audit_phase;
use super::leaving::{leave_call, leave_continuous};
use super::phases::{Phase, PhaseKind};
use audit_base::faults::NoMemory;
use audit_base::findings::Finding;
use audit_base::orders::Deal;
use matching_core::outcomes::Outcome;
use matching_core::totals::zeros;
use order_list::changed::ChangedOrders;
use order_list::lists::OrderList;
use std::alloc::Global;

/// What is known of the orders after the phases so far.
#[derive(Debug, Drop)]
pub struct OrdersSoFar {
    /// What each order has traded, by its index.
    pub traded: Vec<u128>,
    /// What is left of each order, by its index; 0 past the end.
    pub left: Vec<u64>,
}

/// A phase as it is judged, once its orders and its deals are known.
#[derive(Clone, Copy, Debug)]
pub struct EndedPhase {
    pub kind: PhaseKind,
    /// The place at which it ends.
    pub last: u32,
}

/// Nothing, before the first phase. Err only out of memory.
pub fn start(alloc: Global, count: usize) -> Result<OrdersSoFar, NoMemory>
    ensures traded { IfOk result (λ so_far. so_far.traded.items ≡ replicate count 0) }
    ensures left { IfOk result (λ so_far. so_far.left.items ≡ []) }
{
    let traded = zeros(alloc, count)?;
    Ok(OrdersSoFar {
        traded,
        left: Vec::new(alloc),
    })
}

/// The first place of a phase.
pub fn first_place(phases: &[Phase], index: usize) -> u32
    requires { index < length phases.now }
    ensures { result ≡ spec.first_place phases.now index }
{
    phases[index].first
}

/// How a phase trades.
pub fn phase_kind(phases: &[Phase], index: usize) -> PhaseKind
    requires { index < length phases.now }
    ensures { result ≡ spec.phase_kind phases.now index }
{
    phases[index].kind
}

/// The place at which a phase ends: the one before the next phase begins, or the greatest place
/// there is.
pub fn end_place(phases: &[Phase], index: usize) -> u32
    requires phases { spec.ArePhases phases.now }
    requires inside { index < length phases.now }
    ensures { result ≡ spec.end_place phases.now index }
{
    if index + 1 < phases.len() {
        phases[index + 1].first - 1
    } else {
        u32::MAX
    }
}

/// The order list of the phase at an index. Err only out of memory.
pub fn list_phase<'a>(
    alloc: Global,
    orders: &OrderList<'a>,
    phases: &[Phase],
    index: usize,
    so_far: &OrdersSoFar,
) -> Result<ChangedOrders<'a>, NoMemory>
    requires order_list { IsOrderList orders.now }
    requires regular { Regular orders.now }
    requires phases { spec.ArePhases phases.now }
    requires inside { index < length phases.now }
    requires one_total_per_order { length so_far.now.traded.items ≡ length orders.now }
    requires totals_bounded { AreBoundedTotals so_far.now.traded.items }
    requires left_within_quantities { WithinQuantities orders.now so_far.now.left.items }
    ensures { IfOk result (λ list. (deals : List DealSpec)
        → IsDaySoFar phases.now orders.now deals index so_far.now.traded.items so_far.now.left.items
        → list.orders ≡ phase_list_at phases.now orders.now deals index) }
{
    let first = first_place(phases, index);
    let last = end_place(phases, index);
    let chain_traded = chain_totals(alloc, orders, &so_far.traded)?;
    let count = order_count_through(orders, last);
    let amounts = amounts_of(alloc, orders, count, first, &so_far.left, &chain_traded)?;
    list_orders(alloc, orders, first, last, &amounts)
}

/// What a phase that conforms leaves of each of its orders. Err only out of memory.
pub fn leave_phase(
    alloc: Global,
    kind: PhaseKind,
    orders: &OrderList<'_>,
    traded: &[u128],
    last: u32,
) -> Result<Vec<u64>, NoMemory>
    requires order_list { IsOrderList orders.now }
    requires regular { Regular orders.now }
    requires one_total_per_order { length traded.now ≡ length orders.now }
    requires totals_bounded { AreBoundedTotals traded.now }
    ensures { IfOk result (λ left. (deals : List DealSpec)
        → HasPhaseTotals kind orders.now deals last traded.now
        → left.items ≡ left_numbers_after_phase kind orders.now deals last) }
{
    match kind {
        PhaseKind::Uniform | PhaseKind::Maximum => leave_call(alloc, orders, traded),
        PhaseKind::Continuous => leave_continuous(alloc, orders, traded, last),
    }
}

/// Adds what each order traded in a phase to what it traded before.
pub fn add_totals(totals: &mut Vec<u128>, traded: &[u128])
    requires totals_long_enough { length traded.now ≤ vec_len totals.old }
    requires old_totals_bounded { AreBoundedTotals totals.old.items }
    requires phase_totals_bounded { AreBoundedTotals traded.now }
    ensures { AddsNumbers totals.old.items traded.now totals.new.items }
{
    for index in 0..traded.len() {
        totals[index] += traded[index];
    }
}

/// The audit of one phase, over its order list and its deals. It conforms where nothing is
/// found; then what was traded in it is added, and what it leaves is kept. Err only out of
/// memory.
pub fn judge_phase(
    alloc: Global,
    phase: EndedPhase,
    orders: &OrderList<'_>,
    deals: &[Deal],
    count: u32,
    so_far: &mut OrdersSoFar,
) -> Result<Option<Finding>, NoMemory>
    requires order_list { IsOrderList orders.now }
    requires regular { Regular orders.now }
    requires deal_list { IsDealList orders.now deals.now }
    requires trade_count_fits { count < 2 ^ 32 - 1 }
    requires causes_end_by_last { EndsBy orders.now deals.now phase.last }
    requires phase_totals_bounded { (i : ℕ) → traded deals.now i ≤ 2 ^ 72 }
    requires old_totals_bounded { AreBoundedTotals so_far.old.traded.items }
    requires one_total_per_order { length orders.now ≤ length so_far.old.traded.items }
    ensures found { (finding : FindingSpec) → result ≡ Ok (Some finding)
        → IsBrokenPhase (spec.rule_of phase.kind) orders.now deals.now count finding }
    ensures passed { result ≡ Ok None → AddsPhase phase.kind orders.now deals.now phase.last
        so_far.old.traded.items so_far.new.traded.items so_far.new.left.items }
{
    match audit_phase(alloc, phase.kind, orders, deals, count)? {
        Outcome::Broken(finding) => Ok(Some(finding)),
        Outcome::Conforms(reached) => {
            let traded = reached.traded.as_slice();
            so_far.left = leave_phase(alloc, phase.kind, orders, traded, phase.last)?;
            add_totals(&mut so_far.traded, traded);
            Ok(None)
        }
    }
}
