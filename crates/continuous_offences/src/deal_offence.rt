//! Findings 7, 8, 10 and 11: what is wrong with a deal by itself, at its incoming order's place.
ghost use Rattle.std.specs.Prelude.{◌≡◌};
ghost use Rattle.continuous_offences.specs.DealFacts as spec;

use audit_base::flaws::TradedOrder;
use audit_base::orders::Deal;
use audit_base::terms::Side;
use offence_list::offences::ListedOffence;

/// What is known of one of a deal's orders.
#[derive(Clone, Copy, Debug)]
pub(crate) struct ListedAccount {
    /// The order as an offence shows it: with what it has traded, and its Before added.
    pub(crate) shown: TradedOrder,
    /// What it has traded up to the deal, and its Size.
    pub(crate) traded: u128,
    pub(crate) size: u64,
}

impl ListedAccount {
    /// Whether it trades more than its Size.
    fn is_over_size(self) -> bool
        ensures { result ≡ spec.is_over_size self }
    {
        u128::from(self.size) < self.traded
    }
}

/// What is known of a deal: of both its orders, and what the rule asks of it.
#[derive(Clone, Copy, Debug)]
pub(crate) struct DealFacts {
    pub(crate) bid: ListedAccount,
    pub(crate) ask: ListedAccount,
    /// Whether the bid was the earlier order, which rested.
    pub(crate) bid_rested: bool,
    /// Whether the earlier order rests before the place, and whether the later one entered.
    pub(crate) rests: bool,
    pub(crate) entered: bool,
    /// Whether the price is within both limits.
    pub(crate) is_within: bool,
}

impl DealFacts {
    /// The earlier order as an offence shows it, and the later one.
    fn resting_shown(self) -> TradedOrder
        ensures { result ≡ spec.resting_shown self }
    {
        if self.bid_rested {
            self.bid.shown
        } else {
            self.ask.shown
        }
    }

    fn incoming_shown(self) -> TradedOrder
        ensures { result ≡ spec.incoming_shown self }
    {
        if self.bid_rested {
            self.ask.shown
        } else {
            self.bid.shown
        }
    }
}

/// The first of what is wrong with a deal, if anything is: its resting order does not rest, or its
/// incoming one never entered; its price is outside a limit; its bid, or its ask, trades more than
/// its Size.
pub(crate) fn deal_offence(deal: &Deal, facts: DealFacts) -> Option<ListedOffence>
    ensures { result ≡ spec.deal_offence deal.now facts }
{
    let place = deal.place;
    if !facts.rests {
        let order = facts.resting_shown();
        Some(ListedOffence::Inactive { place, order })
    } else if !facts.entered {
        let order = facts.incoming_shown();
        Some(ListedOffence::Inactive { place, order })
    } else if !facts.is_within {
        let (bid, ask) = (facts.bid.shown, facts.ask.shown);
        Some(ListedOffence::Limit { place, bid, ask })
    } else if facts.bid.is_over_size() {
        let (side, order) = (Side::Buy, facts.bid.shown);
        Some(ListedOffence::Quantity { place, side, order })
    } else if facts.ask.is_over_size() {
        let (side, order) = (Side::Sell, facts.ask.shown);
        Some(ListedOffence::Quantity { place, side, order })
    } else {
        None
    }
}
