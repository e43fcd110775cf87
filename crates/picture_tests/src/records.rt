//! Records of one firm and one symbol at whole prices, and the history and the deals of their logs.
ghost use Rattle.audit_base.specs.Deals.{IsDealList};

use audit_base::names::{Key, Name, read_name};
use audit_base::numbers::{Price, Quantity};
use audit_base::orders::Deal;
use audit_base::records::{OrderRecord, TradeRecord};
use audit_base::stamps::Stamp;
use audit_base::terms::{Life, Side};
use instruction_history::history::History;
use matching_core::resolving::resolve;
use std::process::Abort;

const NOON: Stamp = Stamp { second: 5, nano: 0 };

fn name(rt: &impl Abort, text: &[u8]) -> Name {
    read_name(text).expect(rt, "a name")
}

fn key(rt: &impl Abort, id: &[u8]) -> Key {
    Key {
        firm: name(rt, b"A"),
        id: name(rt, id),
    }
}

/// A whole price.
pub(crate) fn price(rt: &impl Abort, whole: u32) -> Price {
    Price::of(u64::from(whole) * 100_000_000).expect(rt, "a price")
}

/// A new order that rests: id, side, quantity and limit.
pub(crate) fn order(
    rt: &impl Abort,
    id: &[u8],
    side: Side,
    number: u64,
    limit: u32,
) -> OrderRecord {
    OrderRecord::New {
        key: key(rt, id),
        time: NOON,
        symbol: name(rt, b"Z"),
        side,
        quantity: Quantity::of(number).expect(rt, "a quantity"),
        price: price(rt, limit),
        life: Life::Rests,
    }
}

/// A cancel: its id and its target's.
pub(crate) fn cancel(rt: &impl Abort, id: &[u8], target: &[u8]) -> OrderRecord {
    OrderRecord::Cancel {
        key: key(rt, id),
        time: NOON,
        symbol: name(rt, b"Z"),
        target: name(rt, target),
    }
}

/// A trade: its id, the ids of its bid and its ask, the quantity and the price.
pub(crate) fn trade(
    rt: &impl Abort,
    id: &[u8],
    buy: &[u8],
    sell: &[u8],
    number: u64,
    whole: u32,
) -> TradeRecord {
    TradeRecord {
        trade: name(rt, id),
        time: NOON,
        symbol: name(rt, b"Z"),
        buy: key(rt, buy),
        sell: key(rt, sell),
        quantity: Quantity::of(number).expect(rt, "a quantity"),
        price: price(rt, whole),
    }
}

/// The history of these records.
pub(crate) fn history_of<R: AllocGlobal + Abort>(rt: &R, entries: &[OrderRecord]) -> History {
    assert!(rt; entries.len() < 10000);
    let Ok(history) = History::build(rt.alloc(), entries, &name(rt, b"Z")) else {
        panic!(rt; "no history");
    };
    history
}

/// The deals of these records.
pub(crate) fn deals_of<R: AllocGlobal + Abort>(
    rt: &R,
    history: &History,
    trades: &[TradeRecord],
) -> Vec<Deal>
    ensures { IsDealList history.now result.items }
{
    assert!(rt; trades.len() < 10000);
    let Ok(deals) = resolve(rt.alloc(), history, trades, &name(rt, b"Z")) else {
        panic!(rt; "unsound trades");
    };
    deals
}
