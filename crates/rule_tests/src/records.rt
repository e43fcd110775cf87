//! Records of one firm, one symbol and one time, and the history and the deals of their logs.
ghost use Rattle.audit_base.specs.Deals.{IsDealList};

use audit_base::names::{Key, Name, read_name};
use audit_base::numbers::{Price, Quantity, read_price};
use audit_base::orders::Deal;
use audit_base::records::{OrderRecord, TradeRecord};
use audit_base::stamps::Stamp;
use audit_base::terms::{Life, Side};
use instruction_history::history::History;
use matching_core::resolving::resolve;
use std::process::Abort;

/// The time of every record.
const TIME: Stamp = Stamp { second: 5, nano: 0 };

fn name(rt: &impl Abort, text: &[u8]) -> Name {
    read_name(text).expect(rt, "a name")
}

fn key(rt: &impl Abort, id: &[u8]) -> Key {
    Key {
        firm: name(rt, b"A"),
        id: name(rt, id),
    }
}

/// The symbol of every record.
fn symbol(rt: &impl Abort) -> Name {
    name(rt, b"Z")
}

fn quantity(rt: &impl Abort, number: u64) -> Quantity {
    Quantity::of(number).expect(rt, "a quantity")
}

/// The price of this many units.
pub(crate) fn price_of(rt: &impl Abort, units: u64) -> Price {
    Price::of(units).expect(rt, "a price")
}

/// The price that is written so.
pub(crate) fn price_in(rt: &impl Abort, text: &[u8]) -> Price {
    read_price(text).expect(rt, "a price")
}

/// A new order.
pub(crate) fn new_order(
    rt: &impl Abort,
    id: &[u8],
    side: Side,
    number: u64,
    price: Price,
    life: Life,
) -> OrderRecord {
    OrderRecord::New {
        key: key(rt, id),
        time: TIME,
        symbol: symbol(rt),
        side,
        quantity: quantity(rt, number),
        price,
        life,
    }
}

/// A trade between the orders with the second and the third id.
pub(crate) fn new_trade(
    rt: &impl Abort,
    id: &[u8],
    buy: &[u8],
    sell: &[u8],
    number: u64,
    price: Price,
) -> TradeRecord {
    TradeRecord {
        trade: name(rt, id),
        time: TIME,
        symbol: symbol(rt),
        buy: key(rt, buy),
        sell: key(rt, sell),
        quantity: quantity(rt, number),
        price,
    }
}

/// The history of these records.
pub(crate) fn history_of<R: AllocGlobal + Abort>(rt: &R, entries: &[OrderRecord]) -> History {
    assert!(rt; entries.len() < 100);
    let Ok(history) = History::build(rt.alloc(), entries, &symbol(rt)) else {
        panic!(rt; "no history");
    };
    history
}

/// The deals of these records.
pub(crate) fn deals_of<R: AllocGlobal + Abort>(
    rt: &R,
    history: &History,
    trades: &[TradeRecord],
) -> Vec<Deal>
    ensures { IsDealList history.now result.items }
{
    assert!(rt; trades.len() < 100);
    let Ok(deals) = resolve(rt.alloc(), history, trades, &symbol(rt)) else {
        panic!(rt; "unsound trades");
    };
    deals
}
