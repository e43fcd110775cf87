//! Orders that a call does not admit: immediate and market orders.
//!
//! Finding 16 looks at an order by itself. An order with a target rests in every order list
//! (`IsOrderList.resting`), so nothing need be known of phases that fail.
ghost use Rattle.std.specs.Prelude.{◌≡◌, ◌<◌, ◌&&◌, length};
ghost use Rattle.session_audit.specs.Instants as spec;
ghost use Rattle.session_audit.specs.Phases.{ArePhases, is_call, phase_kind, is_in_phase};

use super::entering::was_placed;
use super::phases::{Phase, PhaseKind};
use super::progress::{end_place, first_place, phase_kind};
use audit_base::findings::Finding;
use audit_base::flaws::{Evidence, Flaw};
use order_list::listed::ListedOrder;
use order_list::lists::OrderList;

/// Whether all orders of a phase meet at once.
fn is_call(kind: PhaseKind) -> bool
    ensures { result ≡ is_call kind }
{
    kind.rule().call_rule().is_some()
}

/// Whether a place is in a phase.
fn is_in_phase(phases: &[Phase], index: usize, place: u32) -> bool
    requires phases { ArePhases phases.now }
    requires inside { index < length phases.now }
    ensures { result ≡ is_in_phase phases.now index place }
{
    first_place(phases, index) <= place && place <= end_place(phases, index)
}

/// Whether a phase is a call, and a place is in it.
fn is_in_call(phases: &[Phase], index: usize, place: u32) -> bool
    requires phases { ArePhases phases.now }
    requires inside { index < length phases.now }
    ensures { result
        ≡ (is_call (phase_kind phases.now index) && is_in_phase phases.now index place) }
{
    is_call(phase_kind(phases, index)) && is_in_phase(phases, index, place)
}

/// Whether a place is in a call phase.
fn is_in_any_call(phases: &[Phase], place: u32) -> bool
    requires { ArePhases phases.now }
    ensures { result ≡ spec.is_in_any_call phases.now place }
{
    for index in 0..phases.len() {
        if is_in_call(phases, index, place) {
            return true;
        }
    }
    false
}

/// Whether an order that does not rest was placed in a call phase.
fn is_instant_order(phases: &[Phase], order: &ListedOrder<'_>) -> bool
    requires { ArePhases phases.now }
    ensures { result ≡ spec.is_instant_order phases.now order.now }
{
    !order.life().rests() && (was_placed(order) && is_in_any_call(phases, order.place()))
}

/// Finding 16: the least order that does not rest and was placed in a call phase.
pub fn first_instant_of_day(phases: &[Phase], orders: &OrderList<'_>) -> Option<Finding>
    requires { ArePhases phases.now }
    ensures { result ≡ spec.first_instant_of_day phases.now orders.now }
{
    for index in 0..orders.len() {
        let order = orders.at(index);
        if is_instant_order(phases, &order) {
            let place = order.place();
            let evidence = Evidence::InstantOrder;
            return Some(orders.finding(Flaw { place, evidence }));
        }
    }
    None
}
