//! What a broken rule gives: the property, the record at which it broke, and what shows it.
ghost use Rattle.std.specs.Prelude.{◌≡◌};
ghost use Rattle.audit_base.specs.Words.{property_word};

use super::names::Key;
use super::numbers::{Price, Quantity};
use super::terms::{Side, Which};

/// An order with what it has traded.
#[derive(Clone, Copy, Debug, PartialEq, Eq)]
pub struct OrderLine {
    pub place: u32,
    pub side: Side,
    pub key: Key,
    pub quantity: Quantity,
    pub limit: Price,
    pub traded: u128,
}

/// Something that shows a finding.
#[derive(Clone, Copy, Debug, PartialEq, Eq)]
pub enum Shown {
    /// Another record of a log.
    Place { log: Which, place: u32 },
    /// A key that names no order of its side.
    Unknown { side: Side, key: Key },
    /// An order.
    Order(OrderLine),
    /// An order with the quantity that it trades in every conforming log.
    Due(OrderLine, u128),
}

/// The volume that was reached, and the greatest that the rule allows.
#[derive(Clone, Copy, Debug, PartialEq, Eq)]
pub struct Short {
    pub reached: u128,
    pub greatest: u128,
}

/// The sixteen properties, in the order of their numbers from 1 to 16.
#[derive(Clone, Copy, Debug, PartialEq, Eq, Hash)]
pub enum Property {
    /// A record has the key of an earlier one.
    DuplicateId,
    /// A record has an earlier time than the one before it.
    TimeBack,
    /// A cancel or a replacement names no earlier order of its firm (and side).
    UnknownTarget,
    /// A trade report has no second one, or is the second and does not agree with the first.
    Unpaired,
    /// A trade has the id of an earlier one.
    DuplicateTrade,
    /// A trade names no bid, or no ask, of the history.
    UnknownOrder,
    /// A trade names an order that is not there to trade.
    Inactive,
    /// A trade's price is outside a limit.
    Limit,
    /// A trade has another price than the first.
    UniformPrice,
    /// A bid trades more than it asks for.
    BuyQuantity,
    /// An ask trades more than it offers.
    SellQuantity,
    /// A bid trades before a better one is filled.
    BuyPriority,
    /// An ask trades before a better one is filled.
    SellPriority,
    /// The volume is not the greatest.
    Volume,
    /// A bid and an ask that meet are both left.
    Spread,
    /// An immediate or market order is in the history of a call.
    InstantOrder,
}

impl Property {
    /// The word that reports use for the property.
    pub fn word(self) -> &'static [u8]
        ensures { result.now ≡ property_word self }
    {
        match self {
            Property::DuplicateId => b"duplicate-id",
            Property::TimeBack => b"time-back",
            Property::UnknownTarget => b"unknown-target",
            Property::Unpaired => b"unpaired",
            Property::DuplicateTrade => b"duplicate-trade",
            Property::UnknownOrder => b"unknown-order",
            Property::Inactive => b"inactive",
            Property::Limit => b"limit",
            Property::UniformPrice => b"uniform-price",
            Property::BuyQuantity => b"buy-quantity",
            Property::SellQuantity => b"sell-quantity",
            Property::BuyPriority => b"buy-priority",
            Property::SellPriority => b"sell-priority",
            Property::Volume => b"volume",
            Property::Spread => b"spread",
            Property::InstantOrder => b"instant-order",
        }
    }
}

/// The one finding of a broken rule. `short` is there for `Volume` alone.
#[derive(Clone, Copy, Debug, PartialEq, Eq)]
pub struct Finding {
    pub property: Property,
    pub log: Which,
    pub place: u32,
    pub first: Option<Shown>,
    pub second: Option<Shown>,
    pub short: Option<Short>,
}
