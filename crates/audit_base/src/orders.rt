//! Orders and deals, as the rules speak of them.
use super::names::Key;
use super::numbers::{Price, Quantity};
use super::stamps::Stamp;
use super::terms::{Life, Side};

/// An order of a history: a new order or a replacement.
/// A list of these is an order list where their places rise strictly, there are fewer than 2^32,
/// and each target is a lower index of the same side.
// The small fields stand together after the key, so that few of an order's bytes are gaps.
#[derive(Clone, Copy, Debug, PartialEq, Eq)]
pub struct Order {
    pub key: Key,
    pub side: Side,
    /// Of a replacement always `Rests`.
    pub life: Life,
    /// The number of its record in the log, from 1.
    pub place: u32,
    /// Of a replacement that is not placed its own place, of every other order the least place of a
    /// record that ends it, or nothing.
    pub cancelled: Option<u32>,
    pub time: Stamp,
    /// What it asks for; of a replacement, the total that its chain may trade.
    pub quantity: Quantity,
    /// The worst price that it takes.
    pub limit: Price,
    /// The index in the order list of the order that a replacement replaces.
    pub target: Option<usize>,
}

/// A trade, between two orders that are named by their index in an order list.
#[derive(Clone, Copy, Debug, PartialEq, Eq)]
pub struct Deal {
    /// The number of its record in the trade log, from 1.
    pub place: u32,
    /// The index of an order of side `Buy`.
    pub bid: usize,
    /// The index of an order of side `Sell`.
    pub ask: usize,
    pub quantity: Quantity,
    pub price: Price,
}

/// A price from 0 to 10^18 units, and the volume that it shows.
#[derive(Clone, Copy, Debug, PartialEq, Eq)]
pub struct Cut {
    pub price: u64,
    pub volume: u128,
}
