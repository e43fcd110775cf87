//! One order of an order list, as audits read it.
ghost use Rattle.std.specs.Prelude.{◌≡◌, ◌<◌, IfSome};
ghost use Rattle.audit_base.specs.Deals.{is_price_within};
ghost use Rattle.audit_base.specs.Orders as spec;
ghost use Rattle.audit_base.specs.Shows.{with_traded_number};
ghost use Rattle.order_list.specs.Stored.{order_of};

use super::keys::Keys;
use super::stored::StoredOrder;
use audit_base::findings::OrderLine;
use audit_base::names::Key;
use audit_base::numbers::{Price, Quantity};
use audit_base::orders::{Deal, Order};
use audit_base::stamps::Stamp;
use audit_base::terms::{Life, Side};
use std::marker::Model;

/// One order of an order list, read from what the list keeps. Contracts see the order.
#[derive(Drop)]
pub struct ListedOrder<'a> {
    stored: &'a StoredOrder,
    keys: &'a Keys,
}

impl<'a> Model for ListedOrder<'a> {
    ghost use Rattle.audit_base.specs.declared.orders.Order.{Order};

    ghost Value = { Order };

    ghost use Rattle.order_list.specs.Stored.{order_of};

    ghost view = { λ o. order_of o.keys.now o.stored.now };
}

impl<'a> ListedOrder<'a> {
    /// The order of what is stored, with the keys of the list.
    #[inline(always)]
    pub(crate) fn of(stored: &'a StoredOrder, keys: &'a Keys) -> ListedOrder<'a>
        ensures { result ≡ order_of keys.now stored.now }
    {
        ListedOrder { stored, keys }
    }

    /// The key of its record: firm and id.
    pub fn key(&self) -> Key
        ensures { result ≡ self.now.key }
    {
        self.keys.key_of(self.stored.number())
    }

    /// Bid or ask.
    #[inline(always)]
    pub fn side(&self) -> Side
        ensures { result ≡ self.now.side }
    {
        self.stored.side
    }

    /// How long it lasts; of a replacement always `Rests`.
    #[inline(always)]
    pub fn life(&self) -> Life
        ensures { result ≡ self.now.life }
    {
        self.stored.life
    }

    /// The number of its record in the log, from 1.
    #[inline(always)]
    pub fn place(&self) -> u32
        ensures { result ≡ self.now.place }
    {
        self.stored.place
    }

    /// The place of the record that ends it, if one does.
    #[inline(always)]
    pub fn cancelled(&self) -> Option<u32>
        ensures { result ≡ self.now.cancelled }
    {
        self.stored.cancelled()
    }

    /// The time of its record.
    #[inline(always)]
    pub fn time(&self) -> Stamp
        ensures { result ≡ self.now.time }
    {
        self.stored.time()
    }

    /// What it asks for; of a replacement, the total that its chain may trade.
    #[inline(always)]
    pub fn quantity(&self) -> Quantity
        ensures same { result ≡ self.now.quantity }
    {
        self.stored.quantity
    }

    /// The worst price that it takes.
    #[inline(always)]
    pub fn limit(&self) -> Price
        ensures { result ≡ self.now.limit }
    {
        self.stored.limit
    }

    /// The index in the order list of the order that a replacement replaces.
    #[inline(always)]
    pub fn target(&self) -> Option<usize>
        ensures same { result ≡ self.now.target }
        ensures small { IfSome result (λ t. t < 4294967295) }
    {
        self.stored.target()
    }

    /// Its numbers are in their ranges. Nothing is computed here.
    #[inline(always)]
    pub fn numbers_are_in_range(&self)
        ensures { spec.OrderInRange self.now }
    {
        let _quantity = self.quantity().value();
        let _limit = self.limit().units();
    }

    /// The whole order with its names.
    pub fn whole(&self) -> Order
        ensures { result ≡ self.now }
    {
        Order {
            key: self.key(),
            side: self.side(),
            life: self.life(),
            place: self.place(),
            cancelled: self.cancelled(),
            time: self.time(),
            quantity: self.quantity(),
            limit: self.limit(),
            target: self.target(),
        }
    }

    /// The line of the order, where it has traded this much.
    pub fn line(&self, traded: u128) -> OrderLine
        ensures { result ≡ with_traded_number self.now traded }
    {
        OrderLine {
            place: self.place(),
            side: self.side(),
            key: self.key(),
            quantity: self.quantity(),
            limit: self.limit(),
            traded,
        }
    }

    /// Whether the order is of the side and no record cancels it, so that it takes part in a call.
    #[inline(always)]
    pub fn is_uncancelled_on(&self, side: Side) -> bool
        ensures { result ≡ spec.is_uncancelled_on side self.now }
    {
        self.cancelled().is_none() && self.side() == side
    }
}

/// Whether the price of a deal is from the ask's limit to the bid's, both included.
pub fn is_within(deal: &Deal, bid: &ListedOrder<'_>, ask: &ListedOrder<'_>) -> bool
    ensures { result ≡ is_price_within bid.now ask.now deal.now }
{
    ask.limit() <= deal.price && deal.price <= bid.limit()
}
