//! Ranks, which sort as the orders of a side do.
ghost use Rattle.std.specs.Prelude.{◌≡◌};
ghost use Rattle.audit_base.specs.Numbers.{IsPrice};
ghost use Rattle.rank_order.specs.Ranks.{rank_of};

use audit_base::numbers::Price;
use audit_base::terms::Side;

/// The rank of an order on its side: of two ranks of a side, the smaller is that
/// of the better order.
#[derive(Clone, Copy, Debug, PartialEq, Eq, PartialOrd, Ord, Drop)]
pub struct Rank {
    /// The limit of an ask in units of 10^-8; of a bid, 10^18 less its limit.
    pub weight: u64,
    /// The index of the order in its list, where places rise.
    pub index: usize,
}

// One more than the greatest limit.
const LIMITS: u64 = 1_000_000_000_000_000_000;

impl Rank {
    /// The rank of the order at this index with this limit.
    pub fn of(side: Side, index: usize, limit: Price) -> Rank
        ensures same { result ≡ rank_of side index limit }
        ensures priced { IsPrice limit }
    {
        let units = limit.units();
        let weight = match side {
            Side::Buy => LIMITS - units,
            Side::Sell => units,
        };
        Rank { weight, index }
    }
}
