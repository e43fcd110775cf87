//! What one record of a log says.
ghost use Rattle.std.specs.Prelude.{◌≡◌, ℕ, List, Some};
ghost use Rattle.audit_base.specs.Histories as history;

use super::names::{Key, Name};
use super::numbers::{Price, Quantity};
use super::stamps::Stamp;
use super::terms::{Life, Side};

/// A record of an order log: an instruction that the exchange accepted.
#[derive(Clone, Copy, Debug, PartialEq, Eq)]
pub enum OrderRecord {
    /// A new order (FIX 4.4, message type D). A market order has the market price of its side
    /// as its price: the greatest price for a bid, 0 for an ask.
    New {
        key: Key,
        time: Stamp,
        symbol: Name,
        side: Side,
        quantity: Quantity,
        price: Price,
        life: Life,
    },
    /// The end of the same firm's order with the id `target` (message type F).
    Cancel {
        key: Key,
        time: Stamp,
        symbol: Name,
        target: Name,
    },
    /// The end of the same firm's order with the id `target`, and a new order of what is left of
    /// `quantity` (message type G).
    Replace {
        key: Key,
        time: Stamp,
        symbol: Name,
        target: Name,
        side: Side,
        quantity: Quantity,
        price: Price,
    },
}

impl OrderRecord {
    /// The key of the record itself.
    pub fn key(&self) -> &Key
        ensures { result.now ≡ history.key_of self.now }
    {
        match self {
            OrderRecord::New { key, .. } => key,
            OrderRecord::Cancel { key, .. } => key,
            OrderRecord::Replace { key, .. } => key,
        }
    }

    /// The time that the record has: in a FIX log TransactTime (tag 60), which the firm writes.
    pub fn time(&self) -> Stamp
        ensures { result ≡ history.time_of self.now }
    {
        match *self {
            OrderRecord::New { time, .. } => time,
            OrderRecord::Cancel { time, .. } => time,
            OrderRecord::Replace { time, .. } => time,
        }
    }

    /// The side of a new order or a replacement; None for a cancel.
    pub fn side(&self) -> Option<Side>
        ensures { result ≡ history.side_of self.now }
    {
        match *self {
            OrderRecord::New { side, .. } => Some(side),
            OrderRecord::Cancel { .. } => None,
            OrderRecord::Replace { side, .. } => Some(side),
        }
    }

    /// The life of the record's order. A replacement rests.
    pub fn life(&self) -> Life
        ensures { result ≡ history.life_of self.now }
    {
        match *self {
            OrderRecord::New { life, .. } => life,
            OrderRecord::Cancel { .. } => Life::Rests,
            OrderRecord::Replace { .. } => Life::Rests,
        }
    }

    /// The key that a cancel or a replacement names: its own firm, and the target's id.
    /// None for a new order.
    pub fn target_key(&self) -> Option<Key>
        ensures { result ≡ history.target_key self.now }
    {
        match *self {
            OrderRecord::New { .. } => None,
            OrderRecord::Cancel { key, target, .. } => Some(Key {
                firm: key.firm,
                id: target,
            }),
            OrderRecord::Replace { key, target, .. } => Some(Key {
                firm: key.firm,
                id: target,
            }),
        }
    }

    /// Whether it is a new order or a replacement.
    pub fn is_order(&self) -> bool
        ensures { result ≡ history.is_order self.now }
    {
        match self {
            OrderRecord::New { .. } => true,
            OrderRecord::Cancel { .. } => false,
            OrderRecord::Replace { .. } => true,
        }
    }

    /// Whether an order of this side may be its target: a cancel ends an order of either side, a
    /// replacement one of its own.
    pub fn fits_side(&self, side: Side) -> bool
        ensures { result ≡ history.fits_side (history.side_of self.now) (Some side) }
    {
        match *self {
            OrderRecord::New { side: own, .. } => own == side,
            OrderRecord::Cancel { .. } => true,
            OrderRecord::Replace { side: own, .. } => own == side,
        }
    }
}

/// A record of a trade log: a bid and an ask that traded.
#[derive(Clone, Copy, Debug, PartialEq, Eq)]
pub struct TradeRecord {
    pub trade: Name,
    pub time: Stamp,
    pub symbol: Name,
    pub buy: Key,
    pub sell: Key,
    pub quantity: Quantity,
    pub price: Price,
}

/// A record of a log, which is of one symbol.
pub trait LogRecord: Copy + Drop {
    ghost symbol_of: { Self → List ℕ };

    /// The symbol that it trades.
    fn symbol(&self) -> &Name
        ensures { result.now ≡ symbol_of self.now };
}

impl LogRecord for OrderRecord {
    ghost symbol_of = { history.symbol_of };

    fn symbol(&self) -> &Name {
        match self {
            OrderRecord::New { symbol, .. } => symbol,
            OrderRecord::Cancel { symbol, .. } => symbol,
            OrderRecord::Replace { symbol, .. } => symbol,
        }
    }
}

impl LogRecord for TradeRecord {
    ghost symbol_of = { λ trade. trade.symbol };

    fn symbol(&self) -> &Name {
        &self.symbol
    }
}
