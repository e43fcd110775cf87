//! Whether the deals of one record keep their limits, and no order trades that is not there or
//! more than its size.
ghost use Rattle.std.specs.Prelude.{◌≡◌};
ghost use Rattle.continuous_audit.specs.DealFindings as by_deal;

use audit_base::flaws::{Evidence, TradedOrder};
use audit_base::orders::Deal;
use audit_base::terms::Side;
use order_list::listed::{ListedOrder, is_within};

/// Whether no record before a place ends the order.
fn is_uncancelled(cancelled: Option<u32>, place: u32) -> bool
    ensures { result ≡ by_deal.uncancelled_before cancelled place }
{
    match cancelled {
        Some(end) => place <= end,
        None => true,
    }
}

/// Whether an earlier order with this much left rests before a place.
pub fn waits(order: &ListedOrder<'_>, place: u32, left: u64) -> bool
    ensures { result ≡ by_deal.waits order.now place left }
{
    order.life().rests() && is_uncancelled(order.cancelled(), place) && left > 0
}

/// What is known of one of a deal's orders.
#[derive(Clone, Copy, Debug)]
pub struct Account {
    /// The order as a flaw shows it: with what it has traded, and its Before added.
    pub shown: TradedOrder,
    /// What it has traded up to the deal.
    pub traded: u128,
    /// Its Size.
    pub size: u64,
    /// What was left of it before the record.
    pub left: u64,
}

impl Account {
    /// Whether it trades more than its Size.
    fn is_over_size(self) -> bool
        ensures { result ≡ by_deal.is_over_size self }
    {
        (self.size as u128) < self.traded
    }
}

/// What is known of both orders of a deal.
#[derive(Clone, Copy, Debug)]
pub struct Accounts {
    pub bid: Account,
    pub ask: Account,
}

/// The record that a deal belongs to: its place, and whether its order enters there.
#[derive(Clone, Copy, Debug)]
pub struct RecordOfDeal {
    pub place: u32,
    pub entered: bool,
}

/// Whether the earlier one of a bid and an ask that trade rests before a place.
fn resting_waits(bid: &ListedOrder<'_>, ask: &ListedOrder<'_>, place: u32, known: Accounts) -> bool
    ensures { result ≡ by_deal.resting_waits bid.now ask.now place known }
{
    if bid.place() < ask.place() {
        waits(bid, place, known.bid.left)
    } else {
        waits(ask, place, known.ask.left)
    }
}

/// The account of the earlier one of a bid and an ask that trade, which rested.
fn resting_account(bid: &ListedOrder<'_>, ask: &ListedOrder<'_>, known: Accounts) -> Account
    ensures { result ≡ by_deal.resting_account bid.now ask.now known }
{
    if bid.place() < ask.place() {
        known.bid
    } else {
        known.ask
    }
}

/// The account of the later one, the incoming order.
fn incoming_account(bid: &ListedOrder<'_>, ask: &ListedOrder<'_>, known: Accounts) -> Account
    ensures { result ≡ by_deal.incoming_account bid.now ask.now known }
{
    if bid.place() < ask.place() {
        known.ask
    } else {
        known.bid
    }
}

/// What is wrong with a deal by itself, from what is known of its orders: the first property
/// that it does not keep.
pub fn deal_evidence(
    deal: &Deal,
    bid: &ListedOrder<'_>,
    ask: &ListedOrder<'_>,
    deal_record: RecordOfDeal,
    known: Accounts,
) -> Option<Evidence>
    ensures { result ≡ by_deal.deal_evidence deal.now bid.now ask.now deal_record known }
{
    if !resting_waits(bid, ask, deal_record.place, known) {
        return Some(Evidence::Inactive(resting_account(bid, ask, known).shown));
    }
    if !deal_record.entered {
        return Some(Evidence::Inactive(incoming_account(bid, ask, known).shown));
    }
    if !is_within(deal, bid, ask) {
        return Some(Evidence::Limit {
            bid: known.bid.shown,
            ask: known.ask.shown,
        });
    }
    if known.bid.is_over_size() {
        return Some(Evidence::Quantity(Side::Buy, known.bid.shown));
    }
    if known.ask.is_over_size() {
        return Some(Evidence::Quantity(Side::Sell, known.ask.shown));
    }
    None
}
