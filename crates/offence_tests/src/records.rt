//! Records of one firm and one symbol, and the history and the deals of their logs.
ghost use Rattle.audit_base.specs.Deals.{IsDealList};

use audit_base::names::{Key, Name, read_name};
use audit_base::numbers::{Price, Quantity};
use audit_base::orders::Deal;
use audit_base::records::{OrderRecord, TradeRecord};
use audit_base::stamps::Stamp;
use audit_base::terms::{Life, Side};
use instruction_history::history::History;
use matching_core::resolving::resolve;
use std::process::Abort;

/// The time of every record but new orders.
pub(crate) const NOON: Stamp = Stamp { second: 5, nano: 0 };

fn name(rt: &impl Abort, text: &str) -> Name {
    read_name(text.as_bytes()).expect(rt, "a name")
}

fn key(rt: &impl Abort, id: &str) -> Key {
    Key {
        firm: name(rt, "A"),
        id: name(rt, id),
    }
}

fn quantity(rt: &impl Abort, number: u64) -> Quantity {
    Quantity::of(number).expect(rt, "a quantity")
}

fn price(rt: &impl Abort, units: u64) -> Price {
    Price::of(units).expect(rt, "a price")
}

/// A new order: id, side, quantity and limit.
pub(crate) fn order_of_life(
    rt: &impl Abort,
    id: &str,
    side: Side,
    number: u64,
    limit: u64,
    time: Stamp,
    life: Life,
) -> OrderRecord {
    OrderRecord::New {
        key: key(rt, id),
        time,
        symbol: name(rt, "Z"),
        side,
        quantity: quantity(rt, number),
        price: price(rt, limit),
        life,
    }
}

/// A cancel at noon: its id and its target's.
pub(crate) fn cancel(rt: &impl Abort, id: &str, target: &str) -> OrderRecord {
    OrderRecord::Cancel {
        key: key(rt, id),
        time: NOON,
        symbol: name(rt, "Z"),
        target: name(rt, target),
    }
}

/// A replacement at noon: its id and its target's, the side, the quantity and the limit.
pub(crate) fn replace(
    rt: &impl Abort,
    id: &str,
    target: &str,
    side: Side,
    number: u64,
    limit: u64,
) -> OrderRecord {
    OrderRecord::Replace {
        key: key(rt, id),
        time: NOON,
        symbol: name(rt, "Z"),
        target: name(rt, target),
        side,
        quantity: quantity(rt, number),
        price: price(rt, limit),
    }
}

/// A trade at noon: its id, the ids of its bid and its ask, the quantity and the price.
pub(crate) fn trade(
    rt: &impl Abort,
    id: &str,
    buy: &str,
    sell: &str,
    number: u64,
    units: u64,
) -> TradeRecord {
    TradeRecord {
        trade: name(rt, id),
        time: NOON,
        symbol: name(rt, "Z"),
        buy: key(rt, buy),
        sell: key(rt, sell),
        quantity: quantity(rt, number),
        price: price(rt, units),
    }
}

/// The history of these records, if it is well-formed.
pub(crate) fn found_history<R: AllocGlobal + Abort>(
    rt: &R,
    entries: &[OrderRecord],
) -> Option<History> {
    assert!(rt; entries.len() < 100);
    match History::build(rt.alloc(), entries, &name(rt, "Z")) {
        Ok(history) => Some(history),
        Err(_) => None,
    }
}

/// The deals of these records.
pub(crate) fn deals_of<R: AllocGlobal + Abort>(
    rt: &R,
    history: &History,
    trades: &[TradeRecord],
) -> Vec<Deal>
    ensures { IsDealList history.now result.items }
{
    assert!(rt; trades.len() < 100);
    let Ok(deals) = resolve(rt.alloc(), history, trades, &name(rt, "Z")) else {
        panic!(rt; "unsound trades");
    };
    deals
}
