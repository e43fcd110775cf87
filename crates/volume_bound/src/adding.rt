//! The limits of a side that are added up to a price, and from there up to the next one.
ghost use Rattle.std.specs.Prelude.{◌≡◌, ◌≤◌, ◌*◌, ◌^◌};
ghost use Rattle.std.specs.List.Sorted.{IsNonDecreasingBy};
ghost use Rattle.audit_base.specs.Numbers.{greatest_quantity};
ghost use Rattle.volume_bound.specs.declared.limits.LimitQuantity.{LimitQuantity};
ghost use Rattle.volume_bound.specs.Adding.{AllCount, AreAddedLimits, limit_counts, counted_quantity};
ghost use Rattle.volume_bound.specs.Limits.{quantity_of_limits};

use super::limits::LimitQuantity;
use audit_base::numbers::Price;

/// Which limits count: those below a price, or those that are at most the price.
#[derive(Clone, Copy, Debug)]
pub enum Edge {
    Below(u64),
    Upto(u64),
}

impl Edge {
    /// Whether a limit counts.
    fn limit_counts(self, limit: Price) -> bool
        ensures { result ≡ limit_counts self limit }
    {
        match self {
            Edge::Below(price) => limit.units() < price,
            Edge::Upto(price) => limit.units() <= price,
        }
    }
}

/// How many of the first limits of a side are added, and their quantities, added.
#[derive(Clone, Copy, Debug)]
pub struct AddedLimits {
    pub count: usize,
    pub sum: u128,
}

impl AddedLimits {
    /// None of the limits.
    pub const NONE: AddedLimits = AddedLimits { count: 0, sum: 0 };
}

/// What was added, if all of it counts; else nothing.
pub fn start_of(limits: &[LimitQuantity], edge: Edge, added: AddedLimits) -> AddedLimits
    requires rising { IsNonDecreasingBy (λ (l : LimitQuantity). l.limit) limits.now }
    requires added { AreAddedLimits limits.now added }
    ensures added { AreAddedLimits limits.now result }
    ensures count { AllCount edge limits.now result.count }
{
    if added.count == 0 {
        return added;
    }
    let last = &limits[added.count - 1];
    if edge.limit_counts(last.limit) {
        added
    } else {
        AddedLimits::NONE
    }
}

/// Adds the limits that count and are not added yet.
pub fn add_from(limits: &[LimitQuantity], edge: Edge, start: AddedLimits) -> AddedLimits
    requires rising { IsNonDecreasingBy (λ (l : LimitQuantity). l.limit) limits.now }
    requires small { quantity_of_limits limits.now ≤ 2 ^ 32 * greatest_quantity }
    requires added { AreAddedLimits limits.now start }
    requires count { AllCount edge limits.now start.count }
    ensures added { AreAddedLimits limits.now result }
    ensures same { result.sum ≡ counted_quantity edge limits.now }
    ensures part { result.sum ≤ quantity_of_limits limits.now }
{
    let mut added = start;
    while added.count < limits.len() {
        let next = &limits[added.count];
        if !edge.limit_counts(next.limit) {
            return added;
        }
        added = AddedLimits {
            count: added.count + 1,
            sum: added.sum + next.quantity.value() as u128,
        };
    }
    added
}
