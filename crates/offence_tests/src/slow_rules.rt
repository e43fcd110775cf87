//! The offences at the places of continuous trading, as their definition says them: slow sums over
//! all deals, asked anew of each order at each place.
use audit_base::orders::Deal;
use audit_base::terms::{Life, Side};
use order_list::lists::OrderList;
use std::alloc::Global;

/// An offence: the number of its property, the place of its record, and the two orders shown, each
/// by its index with its number.
pub(crate) type OffenceRow = (u8, u32, (usize, u128), (usize, u128));

pub(crate) const NOBODY: (usize, u128) = (0, 0);

/// A log, with Entered and Size of each order.
#[derive(Drop)]
pub(crate) struct SlowRule<'a> {
    pub(crate) orders: &'a OrderList<'a>,
    pub(crate) deals: &'a [Deal],
    pub(crate) entered: Vec<bool>,
    pub(crate) sizes: Vec<u128>,
}

fn place_of(orders: &OrderList<'_>, order: usize) -> u64 {
    match orders.get(order) {
        Some(it) => it.place() as u64,
        None => 0,
    }
}

fn target_of(orders: &OrderList<'_>, order: usize) -> Option<usize> {
    match orders.get(order) {
        Some(it) => it.target(),
        None => None,
    }
}

fn cause(orders: &OrderList<'_>, deal: &Deal) -> u64 {
    let bid = place_of(orders, deal.bid);
    let ask = place_of(orders, deal.ask);
    if bid < ask { ask } else { bid }
}

fn resting(orders: &OrderList<'_>, deal: &Deal) -> usize {
    if place_of(orders, deal.bid) < place_of(orders, deal.ask) {
        deal.bid
    } else {
        deal.ask
    }
}

fn incoming(orders: &OrderList<'_>, deal: &Deal) -> usize {
    if place_of(orders, deal.bid) < place_of(orders, deal.ask) {
        deal.ask
    } else {
        deal.bid
    }
}

fn names(deal: &Deal, order: usize) -> bool {
    deal.bid == order || deal.ask == order
}

fn traded_before(orders: &OrderList<'_>, deals: &[Deal], place: u64, order: usize) -> u128 {
    let mut sum: u128 = 0;
    for deal in deals {
        if names(deal, order) && cause(orders, deal) < place {
            sum = sum.saturating_add(deal.quantity.value() as u128);
        }
    }
    sum
}

fn traded_at(orders: &OrderList<'_>, deals: &[Deal], place: u64, order: usize) -> u128 {
    let mut sum: u128 = 0;
    for deal in deals {
        if names(deal, order) && cause(orders, deal) == place {
            sum = sum.saturating_add(deal.quantity.value() as u128);
        }
    }
    sum
}

/// Before.
fn chain_traded(orders: &OrderList<'_>, deals: &[Deal], order: usize) -> u128 {
    let place = place_of(orders, order);
    let mut sum: u128 = 0;
    let mut target = target_of(orders, order);
    for _step in 0..orders.len() {
        if let Some(index) = target {
            sum = sum.saturating_add(traded_before(orders, deals, place, index));
            target = target_of(orders, index);
        }
    }
    sum
}

fn is_uncancelled(orders: &OrderList<'_>, order: usize, place: u64) -> bool {
    match orders.get(order) {
        Some(it) => match it.cancelled() {
            Some(end) => place <= end as u64,
            None => true,
        },
        None => false,
    }
}

fn may_rest(orders: &OrderList<'_>, order: usize) -> bool {
    match orders.get(order) {
        Some(it) => it.life() == Life::Rests,
        None => false,
    }
}

fn number(numbers: &[u128], order: usize) -> u128 {
    match numbers.get(order) {
        Some(it) => *it,
        None => 0,
    }
}

fn rests_before(
    orders: &OrderList<'_>,
    deals: &[Deal],
    sizes: &[u128],
    place: u64,
    order: usize,
) -> bool {
    may_rest(orders, order)
        && place_of(orders, order) < place
        && is_uncancelled(orders, order, place)
        && traded_before(orders, deals, place, order) < number(sizes, order)
}

impl<'a> SlowRule<'a> {
    fn shown_upto(&self, place: u64, upto: usize, order: usize) -> (usize, u128) {
        (
            order,
            self.upto(place, upto, order)
                .saturating_add(chain_traded(self.orders, self.deals, order)),
        )
    }

    fn upto(&self, place: u64, upto: usize, order: usize) -> u128 {
        let before = traded_before(self.orders, self.deals, place, order);
        let mut sum = before;
        for (index, deal) in self.deals.iter().enumerate() {
            if index <= upto && names(deal, order) && cause(self.orders, deal) == place {
                sum = sum.saturating_add(deal.quantity.value() as u128);
            }
        }
        sum
    }

    fn shown_after(&self, place: u64, order: usize) -> (usize, u128) {
        (
            order,
            traded_before(self.orders, self.deals, place.saturating_add(1), order).saturating_add(
                chain_traded(self.orders, self.deals, order),
            ),
        )
    }

    fn rests(&self, place: u64, order: usize) -> bool {
        rests_before(self.orders, self.deals, &self.sizes, place, order)
    }

    fn left_after(&self, place: u64, order: usize) -> u128 {
        number(&self.sizes, order).saturating_sub(traded_before(
            self.orders,
            self.deals,
            place.saturating_add(1),
            order,
        ))
    }

    fn is_active(&self, place: u64, order: usize) -> bool {
        let next = place.saturating_add(1);
        self.rests(next, order)
            || (place_of(self.orders, order) == place
                && is_uncancelled(self.orders, order, next)
                && self.left_after(place, order) > 0)
    }

    fn is_bid(&self, order: usize) -> bool {
        match self.orders.get(order) {
            Some(it) => it.side() == Side::Buy,
            None => false,
        }
    }

    fn limit(&self, order: usize) -> u64 {
        match self.orders.get(order) {
            Some(it) => it.limit().units(),
            None => 0,
        }
    }

    fn is_better(&self, order: usize, other: usize) -> bool {
        if self.is_bid(order) != self.is_bid(other) {
            return false;
        }
        let (a, b) = (self.limit(order), self.limit(other));
        let earlier = place_of(self.orders, order) < place_of(self.orders, other);
        if self.is_bid(order) {
            b < a || (a == b && earlier)
        } else {
            a < b || (a == b && earlier)
        }
    }

    fn conservation(&self, place: u64, index: usize, deal: &Deal) -> Option<OffenceRow> {
        if cause(self.orders, deal) != place {
            return None;
        }
        let rest = resting(self.orders, deal);
        let come = incoming(self.orders, deal);
        let entered = match self.entered.get(come) {
            Some(it) => *it,
            None => false,
        };
        if !self.rests(place, rest) {
            return Some((7, deal.place, self.shown_upto(place, index, rest), NOBODY));
        }
        if !entered {
            return Some((7, deal.place, self.shown_upto(place, index, come), NOBODY));
        }
        let bid = self.shown_upto(place, index, deal.bid);
        let ask = self.shown_upto(place, index, deal.ask);
        let price = deal.price.units();
        if price < self.limit(deal.ask) || self.limit(deal.bid) < price {
            return Some((8, deal.place, bid, ask));
        }
        if number(&self.sizes, deal.bid) < self.upto(place, index, deal.bid) {
            return Some((10, deal.place, bid, NOBODY));
        }
        if number(&self.sizes, deal.ask) < self.upto(place, index, deal.ask) {
            return Some((11, deal.place, ask, NOBODY));
        }
        None
    }

    fn priority(&self, place: u64, deal: &Deal) -> Option<OffenceRow> {
        if cause(self.orders, deal) != place {
            return None;
        }
        let rest = resting(self.orders, deal);
        let mut best: Option<usize> = None;
        for order in 0..self.orders.len() {
            if self.rests(place, order)
                && self.left_after(place, order) > 0
                && self.is_better(order, rest)
            {
                best = match best {
                    Some(old) if self.is_better(old, order) => Some(old),
                    _ => Some(order),
                };
            }
        }
        let best = best?;
        let property = if self.is_bid(rest) { 12 } else { 13 };
        Some((
            property,
            deal.place,
            self.shown_after(place, best),
            self.shown_after(place, rest),
        ))
    }

    fn best_active(&self, place: u64, bids: bool) -> Option<usize> {
        let mut best: Option<usize> = None;
        for order in 0..self.orders.len() {
            if self.is_bid(order) == bids && self.is_active(place, order) {
                best = match best {
                    Some(old) if self.is_better(old, order) => Some(old),
                    _ => Some(order),
                };
            }
        }
        best
    }

    fn crossing(&self, place: u64, place_u32: u32) -> Option<OffenceRow> {
        let mut meets = false;
        for bid in 0..self.orders.len() {
            for ask in 0..self.orders.len() {
                if self.is_bid(bid)
                    && !self.is_bid(ask)
                    && self.is_active(place, bid)
                    && self.is_active(place, ask)
                    && self.limit(ask) <= self.limit(bid)
                    && (place_of(self.orders, bid) == place
                        || place_of(self.orders, ask) == place)
                {
                    meets = true;
                }
            }
        }
        if !meets {
            return None;
        }
        let bid = self.best_active(place, true)?;
        let ask = self.best_active(place, false)?;
        Some((
            15,
            place_u32,
            self.shown_after(place, bid),
            self.shown_after(place, ask),
        ))
    }

    pub(crate) fn at_order(&self, order: usize) -> Option<OffenceRow> {
        let place = place_of(self.orders, order);
        for (index, deal) in self.deals.iter().enumerate() {
            let told = self.conservation(place, index, deal);
            if told.is_some() {
                return told;
            }
        }
        for deal in self.deals {
            let told = self.priority(place, deal);
            if told.is_some() {
                return told;
            }
        }
        let own = self.orders.get(order)?;
        self.crossing(place, own.place())
    }
}

/// The log with Entered and Size of each order.
pub(crate) fn slow_log<'a>(
    alloc: Global,
    orders: &'a OrderList<'a>,
    deals: &'a [Deal],
) -> Option<SlowRule<'a>> {
    let mut entered: Vec<bool> = Vec::new(alloc);
    let mut sizes: Vec<u128> = Vec::new(alloc);
    for order in 0..orders.len() {
        let own = orders.get(order)?;
        let place = own.place() as u64;
        let placed = own.cancelled() != Some(own.place());
        let waits = match own.target() {
            Some(target) => rests_before(orders, deals, &sizes, place, target),
            None => true,
        };
        let before = chain_traded(orders, deals, order);
        let size = if placed && waits {
            (own.quantity().value() as u128).saturating_sub(before)
        } else {
            0
        };
        if entered.push(placed && waits).is_err() || sizes.push(size).is_err() {
            return None;
        }
    }
    Some(SlowRule {
        orders,
        deals,
        entered,
        sizes,
    })
}
