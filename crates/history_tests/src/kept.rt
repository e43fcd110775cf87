//! Records that are kept small are read back with their places, whatever lengths their names have.
use crate::histories::record;
use crate::names::{key, name};
use audit_base::numbers::{Price, Quantity};
use audit_base::records::{LogRecord, TradeRecord};
use audit_base::stamps::Stamp;
use day_records::kept_orders::KeptOrders;
use day_records::kept_trades::KeptTrades;
use std::process::Abort;

/// Order records of Z, and their places in a log.
const ORDERS: [(&str, u32); 5] = [
    ("N A b1 - 5 Z B", 2),
    ("N LONGER s1 - 6 Z S", 3),
    ("R A b22 b1 7 Z B", 70),
    ("X LONGER cancel1 s1 8 Z S", 71),
    ("X A c b22 9 Z B", 4_000_000_000),
];

/// The trade, the firm and the id of the bid, those of the ask, the quantity, and the place.
type Trade = (&'static str, [&'static str; 4], u64, u32);

const TRADES: [Trade; 3] = [
    ("T1", ["A", "b1", "LONGER", "s1"], 1, 1),
    (
        "trade2",
        ["BROKER", "b", "B", "sell22"],
        1_000_000_000_000,
        8,
    ),
    ("3", ["A", "b333", "A", "s"], 7, 4_000_000_000),
];

/// The trade of a row.
fn trade(rt: &impl Abort, row: &Trade) -> TradeRecord {
    let (id, [buy_firm, buy_id, sell_firm, sell_id], quantity, _) = *row;
    TradeRecord {
        trade: name(rt, id),
        time: Stamp { second: 1, nano: 2 },
        symbol: name(rt, "Z"),
        buy: key(rt, buy_firm, buy_id),
        sell: key(rt, sell_firm, sell_id),
        quantity: Quantity::of(quantity).expect(rt, "a quantity"),
        price: Price::of(10).expect(rt, "a price"),
    }
}

/// Puts in an order record.
fn keep_order(rt: &impl Abort, kept: &mut KeptOrders, text: &str, place: u32) {
    let entry = record(rt, text);
    assert!(rt; *entry.symbol() == kept.symbol());
    let stored = kept.push(&entry, place).is_ok();
    assert!(rt; stored);
}

/// Puts in a trade.
fn keep_trade(rt: &impl Abort, kept: &mut KeptTrades, row: &Trade) {
    let trade = trade(rt, row);
    assert!(rt; trade.symbol == kept.symbol());
    let stored = kept.push(&trade, row.3).is_ok();
    assert!(rt; stored);
}

#[test]
fn order_records_are_read_back_with_their_places(rt: HostRuntime) {
    let mut kept = KeptOrders::new(rt.alloc(), name(&rt, "Z"));
    for &(text, place) in &ORDERS {
        keep_order(&rt, &mut kept, text, place);
    }
    assert!(rt; kept.len() == ORDERS.len());
    for (index, &(text, place)) in ORDERS.iter().enumerate() {
        assert!(rt; index < kept.len());
        let (at, entry) = kept.at(index);
        assert!(rt; at == place && entry == record(&rt, text), "{text}");
    }
}

#[test]
fn trades_are_read_back_with_their_places(rt: HostRuntime) {
    let mut kept = KeptTrades::new(rt.alloc(), name(&rt, "Z"));
    for row in &TRADES {
        keep_trade(&rt, &mut kept, row);
    }
    assert!(rt; kept.len() == TRADES.len());
    for (index, row) in TRADES.iter().enumerate() {
        assert!(rt; index < kept.len());
        let (at, read) = kept.at(index);
        assert!(rt; at == row.3 && read == trade(&rt, row), "{}", row.0);
    }
}
