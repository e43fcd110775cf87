//! Histories by the orders that they have.
use crate::names::{key, name};
use audit_base::numbers::{Price, Quantity};
use audit_base::records::OrderRecord;
use audit_base::stamps::Stamp;
use audit_base::terms::{Life, Side};
use instruction_history::history::History;
use std::process::Abort;

/// An order: its side, its quantity, its limit in units, and whether a record cancels it.
pub(crate) type Shape = (Side, u64, u64, bool);

/// The ids of the orders, and of the records that cancel them.
const IDS: [(&str, &str); 9] = [
    ("o1", "c1"),
    ("o2", "c2"),
    ("o3", "c3"),
    ("o4", "c4"),
    ("o5", "c5"),
    ("o6", "c6"),
    ("o7", "c7"),
    ("o8", "c8"),
    ("o9", "c9"),
];

/// The record of an order of this shape.
fn order(rt: &impl Abort, id: &str, shape: Shape) -> OrderRecord {
    let (side, quantity, limit, _) = shape;
    OrderRecord::New {
        key: key(rt, "A", id),
        time: Stamp { second: 5, nano: 0 },
        symbol: name(rt, "Z"),
        side,
        quantity: Quantity::of(quantity).expect(rt, "a quantity"),
        price: Price::of(limit).expect(rt, "a price"),
        life: Life::Rests,
    }
}

/// The record that cancels the order with an id.
fn cancel(rt: &impl Abort, id: &str, target: &str) -> OrderRecord {
    OrderRecord::Cancel {
        key: key(rt, "A", id),
        time: Stamp { second: 5, nano: 0 },
        symbol: name(rt, "Z"),
        target: name(rt, target),
    }
}

/// The records of at most nine orders of these shapes; each that is cancelled is so at once.
fn records<R: AllocGlobal + Abort>(rt: &R, shapes: &[Shape]) -> Vec<OrderRecord> {
    let mut entries = Vec::new(rt.alloc());
    for (shape, (id, ending)) in shapes.iter().zip(IDS) {
        let mut kept = entries.push(order(rt, id, *shape)).is_ok();
        if shape.3 {
            kept = entries.push(cancel(rt, ending, id)).is_ok() && kept;
        }
        assert!(rt; kept);
    }
    entries
}

/// The history of at most nine orders of these shapes, in their order.
pub(crate) fn history_of<R: AllocGlobal + Abort>(rt: &R, shapes: &[Shape]) -> History {
    let entries = records(rt, shapes);
    assert!(rt; entries.len() < 4_294_967_296);
    match History::build(rt.alloc(), &entries, &name(rt, "Z")) {
        Ok(history) => history,
        Err(_) => panic!(rt; "no history"),
    }
}
