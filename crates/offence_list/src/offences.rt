//! An offence as it stands in a list: by places, indices and numbers.
//! A finding has hundreds of bytes, and a log may have an offence at each of its trades: so a list
//! holds these in its place, and the finding is made where it is wanted.
ghost use Rattle.std.specs.Prelude.{◌≡◌};
ghost use Rattle.offence_list.specs.ListedOffences.{flaw_of_offence};

use audit_base::flaws::{Evidence, Flaw, TradedOrder};
use audit_base::terms::Side;

/// An offence under a rule, at the record of this place. The numbers are those of the properties.
#[derive(Clone, Copy, Debug)]
pub enum ListedOffence {
    /// 7: the trade's order is not there to trade.
    Inactive {
        place: u32,
        order: TradedOrder,
    },
    /// 8: the trade's price is outside a limit, of this bid or this ask.
    Limit {
        place: u32,
        bid: TradedOrder,
        ask: TradedOrder,
    },
    /// 9: the trade's price is not that of the first trade, which is at the place `first`.
    UniformPrice {
        place: u32,
        first: u32,
    },
    /// 10 and 11: the trade's order, of this side, trades more than it asks for.
    Quantity {
        place: u32,
        side: Side,
        order: TradedOrder,
    },
    /// 12 and 13: the trade of the order `own`, of this side, passes over the order `ahead`.
    Priority {
        place: u32,
        side: Side,
        ahead: TradedOrder,
        own: TradedOrder,
    },
    /// 15: after the order record, this bid and this ask meet.
    Spread {
        place: u32,
        bid: TradedOrder,
        ask: TradedOrder,
    },
}

impl ListedOffence {
    /// The same as what is wrong with its record, of which an order list makes the finding.
    pub fn flaw(self) -> Flaw
        ensures { result ≡ flaw_of_offence self }
    {
        match self {
            ListedOffence::Inactive { place, order } => Flaw {
                place,
                evidence: Evidence::Inactive(order),
            },
            ListedOffence::Limit { place, bid, ask } => Flaw {
                place,
                evidence: Evidence::Limit { bid, ask },
            },
            ListedOffence::UniformPrice { place, first } => Flaw {
                place,
                evidence: Evidence::UniformPrice(first),
            },
            ListedOffence::Quantity { place, side, order } => Flaw {
                place,
                evidence: Evidence::Quantity(side, order),
            },
            ListedOffence::Priority {
                place,
                side,
                ahead,
                own,
            } => Flaw {
                place,
                evidence: Evidence::Priority { side, ahead, own },
            },
            ListedOffence::Spread { place, bid, ask } => Flaw {
                place,
                evidence: Evidence::Spread { bid, ask },
            },
        }
    }
}
