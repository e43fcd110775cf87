//! Histories by name, with the orders that they have. A record is written as
//! kind (New, Cancel, Replace), firm, id, target, second, symbol and side (Buy, Sell).
use crate::names::{key, name};
use audit_base::numbers::{Price, Quantity};
use audit_base::records::OrderRecord;
use audit_base::stamps::Stamp;
use audit_base::terms::{Life, Side};
use instruction_history::faults::HistoryFault;
use instruction_history::history::History;
use std::process::Abort;

fn stamp(rt: &impl Abort, text: &str) -> Stamp {
    let second = text.parse::<u64>().expect(rt, "a number");
    assert!(rt; second < 100);
    Stamp { second, nano: 0 }
}

/// The side that the letter is.
pub(crate) fn side(word: Option<&str>) -> Side {
    if word == Some("B") {
        Side::Buy
    } else {
        Side::Sell
    }
}

pub(crate) fn record(rt: &impl Abort, text: &str) -> OrderRecord {
    let mut words = text.split(' ');
    let kind = words.next().expect(rt, "a kind");
    let firm = words.next().expect(rt, "a firm");
    let id = words.next().expect(rt, "an id");
    let target = name(rt, words.next().expect(rt, "a target"));
    let time = stamp(rt, words.next().expect(rt, "a second"));
    let symbol = name(rt, words.next().expect(rt, "a symbol"));
    let side = side(words.next());
    let key = key(rt, firm, id);
    let quantity = Quantity::of(5).expect(rt, "a quantity");
    let price = Price::of(10).expect(rt, "a price");
    match kind {
        "N" => OrderRecord::New {
            key,
            time,
            symbol,
            side,
            quantity,
            price,
            life: Life::Rests,
        },
        "X" => OrderRecord::Cancel {
            key,
            time,
            symbol,
            target,
        },
        _ => OrderRecord::Replace {
            key,
            time,
            symbol,
            target,
            side,
            quantity,
            price,
        },
    }
}

/// The place, `cancelled` and target of an order.
type Shape = (u32, Option<u32>, Option<usize>);

/// The history of Z.
fn build<R: AllocGlobal + Abort>(rt: &R, lines: &[&str]) -> Result<History, HistoryFault> {
    let mut entries = Vec::new(rt.alloc());
    for line in lines {
        let stored = entries.push(record(rt, *line)).is_ok();
        assert!(rt; stored);
    }
    assert!(rt; entries.len() < 4_294_967_296);
    History::build(rt.alloc(), &entries, &name(rt, "Z"))
}

/// Asserts that the history has these orders, each of which is found by its key.
fn assert_orders(rt: &impl Abort, label: &str, history: &History, wanted: &[Shape]) {
    let orders = history.orders();
    assert!(rt; orders.len() == wanted.len(), "{label}");
    for (i, shape) in wanted.iter().enumerate() {
        let order = orders.at(i);
        let read = (order.place(), order.cancelled(), order.target());
        assert!(rt; read == *shape, "{label}");
        assert!(rt; history.find(&order.key()) == Some(i), "{label}: key {i}");
    }
}

/// Asserts that the lines are a history of these orders.
fn has_orders<R: AllocGlobal + Abort>(rt: &R, label: &str, lines: &[&str], wanted: &[Shape]) {
    match build(rt, lines) {
        Ok(history) => assert_orders(rt, label, &history, wanted),
        Err(_) => panic!(rt; "{label}: refused"),
    }
}

/// Histories by name, and the orders of each.
const ORDERS: [(&str, &[&str], &[Shape]); 17] = [
    ("no records", &[], &[]),
    (
        "one id of two firms",
        &["N A b1 - 5 Z B", "N B b1 - 5 Z B"],
        &[(1, None, None), (2, None, None)],
    ),
    (
        "equal times",
        &["N A b1 - 7 Z B", "N A b2 - 7 Z B"],
        &[(1, None, None), (2, None, None)],
    ),
    (
        "another symbol's key, time and place between",
        &["N A b1 - 5 Z B", "N A b1 - 1 Y B", "N A b2 - 5 Z B"],
        &[(1, None, None), (3, None, None)],
    ),
    (
        "cancels of both sides",
        &[
            "N A b1 - 5 Z B",
            "N A s1 - 5 Z S",
            "X A x1 s1 5 Z B",
            "X A x2 b1 5 Z B",
        ],
        &[(1, Some(4), None), (2, Some(3), None)],
    ),
    (
        "a second cancel",
        &["N A b1 - 5 Z B", "X A x1 b1 5 Z B", "X A x2 b1 5 Z B"],
        &[(1, Some(2), None)],
    ),
    (
        "a replacement of a new order",
        &["N A b1 - 5 Z B", "R A r1 b1 5 Z B"],
        &[(1, Some(2), None), (2, None, Some(0))],
    ),
    (
        "a replacement of a replacement",
        &["N A b1 - 5 Z B", "R A r1 b1 5 Z B", "R A r2 r1 5 Z B"],
        &[
            (1, Some(2), None),
            (2, Some(3), Some(0)),
            (3, None, Some(1)),
        ],
    ),
    (
        "a replacement of a replaced order: two of one target",
        &["N A b1 - 5 Z B", "R A r1 b1 5 Z B", "R A r2 b1 5 Z B"],
        &[
            (1, Some(2), None),
            (2, None, Some(0)),
            (3, Some(3), Some(0)),
        ],
    ),
    (
        "a replacement of a cancelled order",
        &["N A b1 - 5 Z B", "X A x1 b1 5 Z B", "R A r1 b1 5 Z B"],
        &[(1, Some(2), None), (3, Some(3), Some(0))],
    ),
    (
        "a replacement of one that was never placed",
        &[
            "N A b1 - 5 Z B",
            "X A x1 b1 5 Z B",
            "R A r1 b1 5 Z B",
            "R A r2 r1 5 Z B",
        ],
        &[
            (1, Some(2), None),
            (3, Some(3), Some(0)),
            (4, Some(4), Some(1)),
        ],
    ),
    (
        "a cancel of a replacement",
        &["N A b1 - 5 Z B", "R A r1 b1 5 Z B", "X A x1 r1 5 Z B"],
        &[(1, Some(2), None), (2, Some(3), Some(0))],
    ),
    (
        "a cancel of a replacement that was never placed",
        &[
            "N A b1 - 5 Z B",
            "X A x1 b1 5 Z B",
            "R A r1 b1 5 Z B",
            "X A x2 r1 5 Z B",
        ],
        &[(1, Some(2), None), (3, Some(3), Some(0))],
    ),
    (
        "a cancel of a replaced order",
        &["N A b1 - 5 Z B", "R A r1 b1 5 Z B", "X A x1 b1 5 Z B"],
        &[(1, Some(2), None), (2, None, Some(0))],
    ),
    (
        "a replacement on the sell side",
        &["N A b1 - 5 Z B", "N B s1 - 5 Z S", "R B r1 s1 5 Z S"],
        &[(1, None, None), (2, Some(3), None), (3, None, Some(1))],
    ),
    (
        "a target after a cancel and another symbol",
        &[
            "N A b1 - 5 Z B",
            "X A x1 b1 5 Z B",
            "N A y1 - 5 Y B",
            "N A b2 - 5 Z B",
            "R A r1 b2 5 Z B",
        ],
        &[(1, Some(2), None), (4, Some(5), None), (5, None, Some(1))],
    ),
    (
        "the chosen symbol alone",
        &["N A b1 - 5 Y B", "R A r1 b1 5 Y B"],
        &[],
    ),
];

#[test]
fn each_order_has_its_target_and_its_end(rt: HostRuntime) {
    for &(label, lines, wanted) in &ORDERS {
        has_orders(&rt, label, lines, wanted);
    }
}

#[test]
fn a_key_that_names_no_order_is_not_found(rt: HostRuntime) {
    let Ok(history) = build(&rt, &["N A b1 - 5 Z B", "X A x1 b1 5 Z B"]) else {
        panic!(rt; "refused");
    };
    for (firm, id, wanted) in [("A", "b1", Some(0)), ("A", "x1", None), ("B", "b1", None)] {
        assert!(rt; history.find(&key(&rt, firm, id)) == wanted, "{firm} {id}");
    }
}

/// Firms and ids: of 30 bytes together at most, and of more.
const NAMES: [(&str, &str); 4] = [
    ("A", "b1"),
    ("B", "12345678901234567890123456789"),
    ("C", "123456789012345678901234567890"),
    ("A-FIRM-WHOSE-NAME-HAS-MORE-THAN-THIRTY-BYTES", "b1"),
];

#[test]
fn each_order_gives_the_names_of_its_record_back(rt: HostRuntime) {
    let lines = [
        "N A b1 - 5 Z B",
        "N B 12345678901234567890123456789 - 6 Z S",
        "N C 123456789012345678901234567890 - 7 Z B",
        "N A-FIRM-WHOSE-NAME-HAS-MORE-THAN-THIRTY-BYTES b1 - 8 Z S",
    ];
    let Ok(history) = build(&rt, &lines) else {
        panic!(rt; "refused");
    };
    let orders = history.orders();
    assert!(rt; orders.len() == NAMES.len());
    for (i, &(firm, id)) in NAMES.iter().enumerate() {
        let order = orders.at(i).whole();
        assert!(rt; order.key == key(&rt, firm, id), "{firm} {id}");
        assert!(rt;
            order.time
                == (Stamp {
                    second: i as u64 + 5,
                    nano: 0
                }),
            "{firm} {id}"
        );
    }
}
