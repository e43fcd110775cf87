//! Order lists with their extremes, and one with its sums at each price. An order is written as its
//! side (B, S), its quantity and its limit in units, and as a word more where a record cancels it.
use crate::histories::side;
use crate::order_lists::{Shape, history_of};
use instruction_history::history::History;
use std::process::Abort;
use volume_bound::direct;
use volume_bound::extremes::{best_uniform, least_cut};
use volume_bound::sums::Sums;

fn number(rt: &impl Abort, word: Option<&str>) -> u64 {
    word.expect(rt, "a word")
        .parse::<u64>()
        .expect(rt, "a number")
}

/// The order of a line.
fn shape(rt: &impl Abort, line: &str) -> Shape {
    let mut words = line.split(' ');
    let side = side(words.next());
    let quantity = number(rt, words.next());
    let limit = number(rt, words.next());
    (side, quantity, limit, words.next().is_some())
}

/// The history of the orders of these lines.
fn history<R: AllocGlobal + Abort>(rt: &R, lines: &[&str]) -> History {
    let mut shapes = Vec::new(rt.alloc());
    for line in lines {
        let stored = shapes.push(shape(rt, *line)).is_ok();
        assert!(rt; stored);
    }
    history_of(rt, &shapes)
}

/// What the orders are, their lines, and the price and the volume of their least cut and of
/// their greatest executable volume.
type Row = (
    &'static str,
    &'static [&'static str],
    (u64, u128),
    (u64, u128),
);

const EXTREMES: [Row; 6] = [
    ("no orders", &[], (0, 0), (0, 0)),
    (
        "three bids and three asks at 1, 2 and 3",
        &["B 1 1", "B 1 2", "B 1 3", "S 1 1", "S 1 2", "S 1 3"],
        (0, 3),
        (2, 2),
    ),
    (
        "a bid of the greatest quantity at the highest limit",
        &["B 1000000000000 999999999999999999"],
        (1_000_000_000_000_000_000, 0),
        (0, 0),
    ),
    ("a bid below an ask", &["B 1 5", "S 1 10"], (6, 0), (0, 0)),
    (
        "a cancelled bid",
        &["B 7 5", "B 4 9 cancelled", "S 3 5"],
        (6, 3),
        (5, 3),
    ),
    (
        "all orders at one price",
        &["B 7 5", "S 3 5", "B 2 5", "S 1 5"],
        (6, 4),
        (5, 4),
    ),
];

#[test]
fn each_extreme_stands_at_the_least_price_that_reaches_it(rt: HostRuntime) {
    for &(label, lines, least, executable) in &EXTREMES {
        let history = history(&rt, lines);
        let orders = history.orders();
        assert!(rt; orders.len() < 4_294_967_296);
        let Ok(cut) = least_cut(rt.alloc(), &orders) else {
            panic!(rt; "no memory");
        };
        assert!(rt; (cut.price, cut.volume) == least, "{label}");
        let Ok(best) = best_uniform(rt.alloc(), &orders) else {
            panic!(rt; "no memory");
        };
        assert!(rt; (best.price, best.volume) == executable, "{label}");
    }
}

/// A price, and the demand at it, the supply up to it and the supply below it.
const SUMS: [(u64, u128, u128, u128); 8] = [
    (0, 15, 0, 0),
    (9, 15, 0, 0),
    (10, 15, 5, 0),
    (11, 5, 5, 5),
    (12, 5, 5, 5),
    (13, 0, 13, 5),
    (14, 0, 13, 13),
    (u64::MAX, 0, 13, 13),
];

#[test]
fn sums_at_a_price_are_those_of_the_orders(rt: HostRuntime) {
    let lines = [
        "B 4 10",
        "S 8 13",
        "B 5 12",
        "S 3 10",
        "B 9 11 cancelled",
        "B 6 10",
        "S 7 9 cancelled",
        "S 2 10",
    ];
    let history = history(&rt, &lines);
    let orders = history.orders();
    assert!(rt; orders.len() < 4_294_967_296);
    let Ok(sums) = Sums::build(rt.alloc(), &orders) else {
        panic!(rt; "no sums");
    };
    for &(price, demand, supply, below) in &SUMS {
        let wanted = (demand, supply, below);
        let added = (
            direct::demand_at(&orders, price),
            direct::supply_upto(&orders, price),
            direct::supply_below(&orders, price),
        );
        let searched = (
            sums.demand_at(price),
            sums.supply_upto(price),
            sums.supply_below(price),
        );
        assert!(rt; added == wanted && searched == wanted, "at {price}");
    }
}
