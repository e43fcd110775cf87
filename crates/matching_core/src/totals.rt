//! What each order of an order list has traded, what that leaves of it, and the volume.
ghost use Rattle.std.specs.Prelude.{◌≡◌, ◌<◌, ◌-◌, ◌^◌, IfOk, length, replicate};
ghost use Rattle.audit_base.specs.Deals.{volume};

use audit_base::faults::NoMemory;
use audit_base::orders::Deal;
use std::alloc::Global;
use std::marker::Model;

/// A zero for each order.
pub fn zeros(alloc: Global, count: usize) -> Result<Vec<u128>, NoMemory>
    ensures { IfOk result (λ traded. traded.items ≡ replicate count 0) }
{
    Ok(vec![in alloc; 0u128; count]?)
}

/// The volume of the deals: their quantities, added.
pub fn volume_of(deals: &[Deal]) -> u128
    requires { length deals.now < 2 ^ 32 }
    ensures { result ≡ volume deals.now }
{
    deals
        .iter()
        .map(|deal| u128::from(deal.quantity.value()))
        .sum()
}

/// What is left of a size of which this much has traded.
pub fn left_of(size: u64, traded: u128) -> u64
    ensures { result ≡ size - traded }
{
    u128::from(size).saturating_sub(traded) as u64
}

/// What each order has traded, by its index in the order list, and the volume, the quantities of
/// all deals added. Contracts see the pair of the two.
#[derive(Debug, Drop)]
pub struct Totals {
    traded: Vec<u128>,
    volume: u128,
}

impl Model for Totals {
    ghost use Rattle.std.specs.Prelude.{ℕ, List};

    ghost Value = { List ℕ × ℕ };

    ghost view = { λ t. (t.traded.items, t.volume) };
}

impl Totals {
    /// The totals of these numbers.
    pub fn of(traded: Vec<u128>, volume: u128) -> Totals
        ensures { result ≡ (traded.items, volume) }
    {
        Totals { traded, volume }
    }

    /// What each order has traded.
    pub fn as_slice(&self) -> &[u128]
        ensures { result.now ≡ self.now.0 }
    {
        self.traded.as_slice()
    }

    /// The volume.
    pub fn volume(&self) -> u128
        ensures { result ≡ self.now.1 }
    {
        self.volume
    }
}
