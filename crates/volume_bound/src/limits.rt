//! The limits of one side by rising limit, with the quantities of those up to a price.
ghost use Rattle.std.specs.Prelude.{◌≡◌, ◌≤◌, ◌<◌, ◌*◌, ◌^◌, length};
ghost use Rattle.std.specs.List.Sorted.{IsPermutation};
ghost use Rattle.audit_base.specs.Numbers.{greatest_quantity};
ghost use Rattle.volume_bound.specs.Adding.{AreAddedLimits, counted_quantity};
ghost use Rattle.volume_bound.specs.Limits.{quantity_of_limits, quantity_below, quantity_upto, quantity_from};

use super::adding::{AddedLimits, Edge, add_from, start_of};
use audit_base::numbers::{Price, Quantity};
use std::marker::Model;

/// The limit and the quantity of an order. Several orders may have one limit.
#[derive(Clone, Copy, Debug)]
pub struct LimitQuantity {
    pub limit: Price,
    pub quantity: Quantity,
}

/// The limits and the quantities of a side by rising limit. Contracts see their list.
#[derive(Debug, Drop)]
pub struct SortedLimits {
    limits: Vec<LimitQuantity>,
    // All quantities, added.
    quantity: u128,
}

impl Model for SortedLimits {
    ghost use Rattle.std.specs.Prelude.{List};
    ghost use Rattle.volume_bound.specs.declared.limits.LimitQuantity.{LimitQuantity};
    ghost use Rattle.volume_bound.specs.Limits.{AreLimitsSummed};

    ghost Value = { List LimitQuantity };

    ghost view = { λ s. s.limits.items };

    ghost invariant = { λ s. AreLimitsSummed s.limits.items s.quantity };
}

/// All quantities, added.
fn total_of(limits: &[LimitQuantity]) -> u128
    requires fits_indices { length limits.now < 2 ^ 32 }
    ensures same { result ≡ quantity_of_limits limits.now }
    ensures small { result ≤ 2 ^ 32 * greatest_quantity }
{
    let mut sum: u128 = 0;
    for limit_quantity in limits {
        sum += limit_quantity.quantity.value() as u128;
    }
    sum
}

impl SortedLimits {
    /// The same limits and quantities, by rising limit.
    pub fn of(mut limits: Vec<LimitQuantity>) -> SortedLimits
        requires fits_indices { length limits.items < 2 ^ 32 }
        ensures { IsPermutation limits.items result }
    {
        limits.sort_unstable_by_key(|limit_quantity| limit_quantity.limit.units());
        let quantity = total_of(&limits);
        SortedLimits { limits, quantity }
    }

    /// The limits and the quantities by rising limit.
    pub fn as_slice(&self) -> &[LimitQuantity]
        ensures { result.now ≡ self.now }
    {
        &self.limits
    }

    /// The limits that count, from those that were added last on: few steps where these count
    /// too and few follow.
    pub(crate) fn add(&self, edge: Edge, added: AddedLimits) -> AddedLimits
        requires { AreAddedLimits self.now added }
        ensures added { AreAddedLimits self.now result }
        ensures same { result.sum ≡ counted_quantity edge self.now }
        ensures part { result.sum ≤ quantity_of_limits self.now }
        ensures small { result.sum ≤ 2 ^ 32 * greatest_quantity }
    {
        let start = start_of(&self.limits, edge, added);
        add_from(&self.limits, edge, start)
    }

    /// The quantity of the limits from a price on, where those below it are added.
    pub(crate) fn rest_of(&self, price: u64, below: AddedLimits) -> u128
        requires { below.sum ≡ quantity_below self.now price }
        ensures same { result ≡ quantity_from self.now price }
        ensures small { result ≤ 2 ^ 32 * greatest_quantity }
    {
        self.quantity - below.sum
    }

    /// The quantities whose limit is below the price, added.
    pub fn quantity_below(&self, price: u64) -> u128
        ensures { result ≡ quantity_below self.now price }
    {
        self.add(Edge::Below(price), AddedLimits::NONE).sum
    }

    /// The quantities whose limit is at most the price, added.
    pub fn quantity_upto(&self, price: u64) -> u128
        ensures { result ≡ quantity_upto self.now price }
    {
        self.add(Edge::Upto(price), AddedLimits::NONE).sum
    }

    /// The quantities whose limit is at least the price, added.
    pub fn quantity_from(&self, price: u64) -> u128
        ensures { result ≡ quantity_from self.now price }
    {
        self.rest_of(price, self.add(Edge::Below(price), AddedLimits::NONE))
    }
}
