//! Whether the deals of a day conform, phase by phase.
//!
//! The audit keeps two numbers for each order: what it traded and what is left. From these it makes
//! the phase list, in which a carried order has no target and a gone one is cancelled.
ghost use Rattle.std.specs.Prelude.{◌≡◌, ◌<◌, ◌≤◌, ◌-◌, ◌^◌, IfOk, None, length};
ghost use Rattle.audit_base.specs.Orders.{IsOrderList};
ghost use Rattle.audit_base.specs.Deals.{IsDealList};
ghost use Rattle.audit_base.specs.Histories.{Regular};
ghost use Rattle.session_audit.specs.Phases.{ArePhases};
ghost use Rattle.session_audit.specs.Days.{instant_finding};
ghost use Rattle.session_audit.specs.Audits.{IsDayOutcome};

use super::days::Day;
use super::dealing::{causes_of, deals_between};
use super::instants::first_instant_of_day;
use super::phases::Phase;
use super::progress::{
    EndedPhase, end_place, first_place, judge_phase, list_phase, phase_kind, start,
};
use audit_base::faults::NoMemory;
use audit_base::orders::Deal;
use audit_base::ranges::deals_in_range;
use matching_core::totals::{Totals, volume_of};
use order_list::lists::OrderList;
use std::alloc::Global;

/// The audit of the phases of a day, in whose calls all orders rest.
fn audit_phases(
    alloc: Global,
    orders: &OrderList<'_>,
    phases: &[Phase],
    deals: &[Deal],
    count: u32,
) -> Result<Day, NoMemory>
    requires order_list { IsOrderList orders.now }
    requires regular { Regular orders.now }
    requires phases { ArePhases phases.now }
    requires deal_list { IsDealList orders.now deals.now }
    requires fits_places { count < 2 ^ 32 - 1 }
    requires admitted { instant_finding phases.now orders.now deals.now ≡ None }
    ensures { IfOk result (IsDayOutcome phases.now orders.now deals.now count) }
{
    deals_in_range(deals);
    let causes = causes_of(alloc, orders, deals)?;
    let mut so_far = start(alloc, orders.len())?;
    for index in 0..phases.len() {
        let (first, last) = (first_place(phases, index), end_place(phases, index));
        let dealt = deals_between(alloc, deals, &causes, first, last)?;
        let list = list_phase(alloc, orders, phases, index, &so_far)?;
        let kind = phase_kind(phases, index);
        let phase = EndedPhase { kind, last };
        let own = list.list();
        if let Some(finding) = judge_phase(alloc, phase, &own, &dealt, count, &mut so_far)? {
            return Ok(Day::Broken(finding));
        }
    }
    Ok(Day::Conforms(Totals::of(so_far.traded, volume_of(deals))))
}

/// The audit of a day over the deals of a log of `count` trades. Conforms exactly where no call
/// phase has an own order whose life is not Rests and each phase conforms, out of memory aside:
/// with what each order traded over the day, and the volume. Else Broken has the first offence:
/// the least such order, or the first offence of the least phase that fails.
///
/// For p phases, n orders and m deals, beside the audits of the phases: p passes over the orders
/// up to the phase's end and over the causes of all deals.
pub fn audit_session(
    alloc: Global,
    orders: &OrderList<'_>,
    phases: &[Phase],
    deals: &[Deal],
    count: u32,
) -> Result<Day, NoMemory>
    requires order_list { IsOrderList orders.now }
    requires regular { Regular orders.now }
    requires phases { ArePhases phases.now }
    requires deal_list { IsDealList orders.now deals.now }
    requires counted { length deals.now ≤ count }
    requires fits_places { count < 2 ^ 32 - 1 }
    ensures { IfOk result (IsDayOutcome phases.now orders.now deals.now count) }
{
    orders.numbers_are_in_range();
    if let Some(finding) = first_instant_of_day(phases, orders) {
        return Ok(Day::Broken(finding));
    }
    audit_phases(alloc, orders, phases, deals, count)
}
