//! What is wrong with a record, by places, indices and numbers, and the finding that it is.
//! A finding has hundreds of bytes, and most records have none: so a flaw is looked for and handed
//! on in its place, and only the one finding that is answered is made, here.
ghost use Rattle.std.specs.Prelude.{◌≡◌, ◌<◌, [], IfSome, length, option_and_then};
ghost use Rattle.audit_base.specs.Flaws as spec;
ghost use Rattle.audit_base.specs.Shows.{priority_property, show_place};

use super::findings::{Finding, Property, Short, Shown};
use super::names::Key;
use super::order_lines::{NoOrders, OrderLines};
use super::terms::{Side, Which};

/// An order of an order list, by its index, with what it has traded.
#[derive(Clone, Copy, Debug)]
pub struct TradedOrder {
    pub index: usize,
    pub traded: u128,
}

/// The best short order of a side, with what it trades in every conforming log.
#[derive(Clone, Copy)]
pub struct DueOrder {
    pub order: TradedOrder,
    pub due: u128,
}

/// What is wrong with a record, and what shows it. Each breaks the property of its number;
/// `Quantity` and `Priority` have a number for each side.
#[derive(Clone, Copy)]
pub enum Evidence {
    /// 1: the order record at this place has its key.
    DuplicateId(u32),
    /// 2: the record of the history before it, at this place, has a later time.
    TimeBack(u32),
    /// 3: it names a target, and there is none.
    UnknownTarget,
    /// 4: no other report agrees with it; where one that came first disagrees, it is at this place.
    Unpaired(Option<u32>),
    /// 5: the trade at this place has its id.
    DuplicateTrade(u32),
    /// 6: no order of this side has this key.
    UnknownOrder(Side, Key),
    /// 7: the order is not there to trade.
    Inactive(TradedOrder),
    /// 8: the price is outside a limit, of this bid or this ask.
    Limit {
        bid: TradedOrder,
        ask: TradedOrder,
    },
    /// 9: the price is not that of the first trade, which is at this place.
    UniformPrice(u32),
    /// 10 and 11: the order, of this side, trades more than it asks for.
    Quantity(Side, TradedOrder),
    /// 12 and 13: the order ahead, of this side, is passed over by a trade of its own order.
    Priority {
        side: Side,
        ahead: TradedOrder,
        own: TradedOrder,
    },
    /// 14: the volume is below the greatest; the best short bid and the best short ask.
    Volume(Short, Option<DueOrder>, Option<DueOrder>),
    /// 15: this bid and this ask meet.
    Spread {
        bid: TradedOrder,
        ask: TradedOrder,
    },
    /// 16: the order does not rest, and the rule is one of a call.
    InstantOrder,
}

/// What is wrong with the record at a place.
#[derive(Clone, Copy)]
pub struct Flaw {
    /// The number of the record in its log, from 1.
    pub place: u32,
    pub evidence: Evidence,
}

/// The record at a place, which shows a finding.
fn show_place(log: Which, place: u32) -> Option<Shown>
    ensures { result ≡ show_place log place }
{
    Some(Shown::Place { log, place })
}

/// An order with what it has traded.
fn show_traded<L: OrderLines>(orders: &L, order: TradedOrder) -> Option<Shown>
    requires inside { order.index < length (L.orders orders.now) }
    ensures { result ≡ spec.show_traded (L.orders orders.now) order }
{
    let line = orders.line_at(order.index, order.traded)?;
    Some(Shown::Order(line))
}

/// The short order of a side with its due, where there is one.
fn show_due<L: OrderLines>(orders: &L, short: Option<DueOrder>) -> Option<Shown>
    requires inside { IfSome short (λ d. d.order.index < length (L.orders orders.now)) }
    ensures { result ≡ option_and_then (spec.show_due (L.orders orders.now)) short }
{
    let short = short?;
    let line = orders.line_at(short.order.index, short.order.traded)?;
    Some(Shown::Due(line, short.due))
}

/// The property that a trade breaks where an order of the side trades too much.
fn quantity_of(side: Side) -> Property
    ensures { result ≡ spec.quantity_property side }
{
    match side {
        Side::Buy => Property::BuyQuantity,
        Side::Sell => Property::SellQuantity,
    }
}

/// The property that a trade breaks where an order of the side is passed over.
fn priority_property(side: Side) -> Property
    ensures { result ≡ priority_property side }
{
    match side {
        Side::Buy => Property::BuyPriority,
        Side::Sell => Property::SellPriority,
    }
}

impl Evidence {
    /// The property that is broken.
    fn property(self) -> Property
        ensures { result ≡ spec.property_of_evidence self }
    {
        match self {
            Evidence::DuplicateId(_) => Property::DuplicateId,
            Evidence::TimeBack(_) => Property::TimeBack,
            Evidence::UnknownTarget => Property::UnknownTarget,
            Evidence::Unpaired(_) => Property::Unpaired,
            Evidence::DuplicateTrade(_) => Property::DuplicateTrade,
            Evidence::UnknownOrder(_, _) => Property::UnknownOrder,
            Evidence::Inactive(_) => Property::Inactive,
            Evidence::Limit { .. } => Property::Limit,
            Evidence::UniformPrice(_) => Property::UniformPrice,
            Evidence::Quantity(side, _) => quantity_of(side),
            Evidence::Priority { side, .. } => priority_property(side),
            Evidence::Volume(_, _, _) => Property::Volume,
            Evidence::Spread { .. } => Property::Spread,
            Evidence::InstantOrder => Property::InstantOrder,
        }
    }

    /// The log that its record is in.
    fn log(self) -> Which
        ensures { result ≡ spec.log_of_evidence self }
    {
        match self {
            Evidence::DuplicateId(_)
            | Evidence::TimeBack(_)
            | Evidence::UnknownTarget
            | Evidence::Spread { .. }
            | Evidence::InstantOrder => Which::Orders,
            Evidence::Unpaired(_)
            | Evidence::DuplicateTrade(_)
            | Evidence::UnknownOrder(_, _)
            | Evidence::Inactive(_)
            | Evidence::Limit { .. }
            | Evidence::UniformPrice(_)
            | Evidence::Quantity(_, _)
            | Evidence::Priority { .. }
            | Evidence::Volume(_, _, _) => Which::Trades,
        }
    }

    /// What is shown first.
    fn first_shown<L: OrderLines>(self, orders: &L) -> Option<Shown>
        requires { spec.IsEvidenceInside (L.orders orders.now) self }
        ensures { result ≡ spec.first_shown (L.orders orders.now) self }
    {
        match self {
            Evidence::DuplicateId(place) | Evidence::TimeBack(place) => {
                show_place(Which::Orders, place)
            }
            Evidence::Unpaired(place) => show_place(Which::Trades, place?),
            Evidence::DuplicateTrade(place) | Evidence::UniformPrice(place) => {
                show_place(Which::Trades, place)
            }
            Evidence::UnknownOrder(side, key) => Some(Shown::Unknown { side, key }),
            Evidence::Inactive(order)
            | Evidence::Limit { bid: order, .. }
            | Evidence::Quantity(_, order)
            | Evidence::Priority { ahead: order, .. }
            | Evidence::Spread { bid: order, .. } => show_traded(orders, order),
            Evidence::Volume(_, bid, _) => show_due(orders, bid),
            Evidence::UnknownTarget | Evidence::InstantOrder => None,
        }
    }

    /// What is shown second: the other order of two.
    fn second_shown<L: OrderLines>(self, orders: &L) -> Option<Shown>
        requires { spec.IsEvidenceInside (L.orders orders.now) self }
        ensures { result ≡ spec.second_shown (L.orders orders.now) self }
    {
        match self {
            Evidence::Limit { ask: order, .. }
            | Evidence::Priority { own: order, .. }
            | Evidence::Spread { ask: order, .. } => show_traded(orders, order),
            Evidence::Volume(_, _, ask) => show_due(orders, ask),
            Evidence::DuplicateId(_)
            | Evidence::TimeBack(_)
            | Evidence::UnknownTarget
            | Evidence::Unpaired(_)
            | Evidence::DuplicateTrade(_)
            | Evidence::UnknownOrder(_, _)
            | Evidence::Inactive(_)
            | Evidence::UniformPrice(_)
            | Evidence::Quantity(_, _)
            | Evidence::InstantOrder => None,
        }
    }

    /// The volumes, of a volume that is below the greatest.
    fn short(self) -> Option<Short>
        ensures { result ≡ spec.short_volume_of self }
    {
        match self {
            Evidence::Volume(short, _, _) => Some(short),
            _ => None,
        }
    }
}

impl Flaw {
    /// The finding, of a flaw that names no order, as what is wrong with a record of a log
    /// by itself does.
    pub fn finding(self) -> Finding
        requires { spec.IsEvidenceInside [] self.evidence }
        ensures { result ≡ spec.finding_of [] self }
    {
        self.finding_among(&NoOrders)
    }

    /// The finding: property, log and place, with what shows it.
    /// The orders are those that the indices are of.
    pub fn finding_among<L: OrderLines>(self, orders: &L) -> Finding
        requires { spec.IsEvidenceInside (L.orders orders.now) self.evidence }
        ensures { result ≡ spec.finding_of (L.orders orders.now) self }
    {
        Finding {
            property: self.evidence.property(),
            log: self.evidence.log(),
            place: self.place,
            first: self.evidence.first_shown(orders),
            second: self.evidence.second_shown(orders),
            short: self.evidence.short(),
        }
    }
}
