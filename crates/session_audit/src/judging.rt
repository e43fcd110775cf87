//! The audit of one phase, over its order list and its deals.
ghost use Rattle.std.specs.Prelude.{◌<◌, ◌-◌, ◌^◌, IfOk};
ghost use Rattle.audit_base.specs.Orders.{IsOrderList};
ghost use Rattle.audit_base.specs.Deals.{IsDealList};
ghost use Rattle.session_audit.specs.Judging.{IsPhaseOutcome};
ghost use Rattle.session_audit.specs.Phases.{rule_of};

use super::phases::PhaseKind;
use audit_base::faults::NoMemory;
use audit_base::orders::Deal;
use continuous_audit::auditing::audit_continuous;
use matching_core::outcomes::Outcome;
use maximum_audit::auditing::audit_maximum;
use order_list::lists::OrderList;
use std::alloc::Global;
use uniform_audit::auditing::audit_uniform;

/// The audit of a phase of this kind, by the rule that it has. The number of trades of the whole
/// log is `count`.
pub fn audit_phase(
    alloc: Global,
    kind: PhaseKind,
    orders: &OrderList<'_>,
    deals: &[Deal],
    count: u32,
) -> Result<Outcome, NoMemory>
    requires order_list { IsOrderList orders.now }
    requires deal_list { IsDealList orders.now deals.now }
    requires fits_places { count < 2 ^ 32 - 1 }
    ensures { IfOk result (IsPhaseOutcome (rule_of kind) orders.now deals.now count) }
{
    match kind {
        PhaseKind::Uniform => audit_uniform(alloc, orders, deals, count),
        PhaseKind::Maximum => audit_maximum(alloc, orders, deals, count),
        PhaseKind::Continuous => audit_continuous(alloc, orders, deals),
    }
}
