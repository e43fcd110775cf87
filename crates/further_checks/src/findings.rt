//! What the further checks tell.
ghost use Rattle.std.specs.Prelude.{◌≡◌};
ghost use Rattle.further_checks.specs.FurtherRules.{asks_further, no_checks};
ghost use Rattle.further_checks.specs.FurtherTexts.{further_first, further_place, further_word};

use audit_base::findings::OrderLine;

/// Which of the two checks are asked for.
#[derive(Clone, Copy, Debug, PartialEq, Eq)]
pub struct FurtherChecks {
    /// 17: a trade has the price of its resting order.
    pub resting_price: bool,
    /// 18: no trade is earlier than the records of its orders.
    pub trade_times: bool,
}

impl FurtherChecks {
    /// Neither of the two.
    pub fn none() -> FurtherChecks
        ensures { result ≡ no_checks }
    {
        FurtherChecks {
            resting_price: false,
            trade_times: false,
        }
    }

    /// Whether one of them is asked for.
    pub fn any(self) -> bool
        ensures { result ≡ asks_further self }
    {
        self.resting_price || self.trade_times
    }
}

/// The finding at a trade that fails a check, with the orders that show it. The place is the number
/// of the trade's record in the trade log, from 1.
#[derive(Clone, Copy, Debug, PartialEq, Eq)]
pub enum FurtherFinding {
    /// 17: the trade's price is not the limit of its resting order.
    RestingPrice {
        place: u32,
        resting: OrderLine,
        incoming: OrderLine,
    },
    /// 18: the trade's time is before that of the record of its bid or of its ask; the order whose
    /// record is the later one.
    TradeTime {
        place: u32,
        order: OrderLine,
    },
}

impl FurtherFinding {
    /// The word that reports use for the property.
    pub fn word(&self) -> &'static [u8]
        ensures { result.now ≡ further_word self.now }
    {
        match self {
            FurtherFinding::RestingPrice { .. } => b"resting-price",
            FurtherFinding::TradeTime { .. } => b"trade-time",
        }
    }

    /// The order that is shown first: the resting order, or the one whose record is the later.
    pub fn first_order(&self) -> OrderLine
        ensures { result ≡ further_first self.now }
    {
        match self {
            FurtherFinding::RestingPrice { resting, .. } => *resting,
            FurtherFinding::TradeTime { order, .. } => *order,
        }
    }

    /// The place of the trade.
    pub fn place(&self) -> u32
        ensures { result ≡ further_place self.now }
    {
        match self {
            FurtherFinding::RestingPrice { place, .. } => *place,
            FurtherFinding::TradeTime { place, .. } => *place,
        }
    }
}
