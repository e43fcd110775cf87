//! What holds of every trading day. Nothing is computed here: a law is a function's contract, so
//! that the check proves it.
ghost use Rattle.session_audit.specs.Laws.{CarriedOrdersDoNotMeet, DayUniqueness, DayPairs, PhaseListsAreOrderLists, PhaseOrdersAreRegular};
ghost use Rattle.session_audit.specs.OneOffence.{DayOffenceIsOne};

use call_laws::laws::short_orders_do_not_meet;
use continuous_laws::laws::continuous_uniqueness;
use fairness::laws::fair_volume_fixes_quantities;

/// Two lists of deals under which a day conforms trade the same with each order in each phase,
/// and each pair the same in each continuous phase. In a call the volume, which both have the
/// greatest of, fixes the quantities; in a continuous phase the pairs are the only ones; and
/// what is left is then the same.
pub fn day_uniqueness()
    ensures quantities { DayUniqueness }
    ensures pairs { DayPairs }
{
    fair_volume_fixes_quantities();
    continuous_uniqueness();
}

/// The order list of each phase is an order list, and regular where that of the day is.
pub fn phase_orders_are_regular()
    ensures order_list { PhaseListsAreOrderLists }
    ensures regular { PhaseOrdersAreRegular }
{}

/// The bids that a call which conforms leaves meet none of the asks that it leaves: else one
/// more unit could trade. So orders that are carried out of a call give by themselves no spread
/// finding.
pub fn carried_orders_do_not_meet()
    ensures { CarriedOrdersDoNotMeet }
{
    short_orders_do_not_meet();
}

/// A day has at most one first offence, however long its logs are: finding 16, or else that of
/// the least phase that fails.
pub fn one_day_offence()
    ensures { DayOffenceIsOne }
{}
