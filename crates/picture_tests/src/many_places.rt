//! A log of more than 1,000 places: bids whose limits rise by one.
use crate::records::{deals_of, history_of, order, price};
use audit_base::records::OrderRecord;
use audit_base::terms::Side;
use audit_base::texts::write_number;
use continuous_picture::columns::PlaceColumn;
use continuous_picture::pictures::{ContinuousPicture, continuous_picture};
use continuous_picture::ranges::LimitRange;
use order_book::books::Resting;
use std::process::Abort;

/// How many bids.
const BIDS: u32 = 1200;

/// A bid whose id and whose limit are its number.
fn bid<R: AllocGlobal + Abort>(rt: &R, number: u32) -> OrderRecord {
    let mut id = Vec::new(rt.alloc());
    let written = write_number(rt.alloc(), u128::from(number), &mut id);
    assert!(rt; written.is_ok());
    order(rt, &id, Side::Buy, 1, number)
}

fn bids<R: AllocGlobal + Abort>(rt: &R) -> Vec<OrderRecord> {
    let mut entries = Vec::new(rt.alloc());
    for number in 0..BIDS {
        let pushed = entries.push(bid(rt, number + 1));
        assert!(rt; pushed.is_ok());
    }
    entries
}

/// Each column has two places, and the limits of both bids.
fn check_column(rt: &impl Abort, column: &PlaceColumn, index: usize) {
    assert!(rt; index < 600);
    let first = 1 + 2 * index as u32;
    let limits = LimitRange {
        low: price(rt, first),
        high: price(rt, first + 1),
    };
    assert_eq!(rt; column.first, u64::from(first));
    assert_eq!(rt; column.next, u64::from(first) + 2);
    assert_eq!(rt; column.bids, Some(limits));
    assert_eq!(rt; column.asks, None);
    assert_eq!(rt; column.trades, None);
}

fn check_columns(rt: &impl Abort, columns: &[PlaceColumn]) {
    assert_eq!(rt; columns.len(), 600);
    for (index, column) in columns.iter().enumerate() {
        check_column(rt, column, index);
    }
}

/// The lines are the ten last bids, the last one first.
fn check_lines(rt: &impl Abort, lines: &[Resting]) {
    assert_eq!(rt; lines.len(), 10);
    for (index, line) in lines.iter().enumerate() {
        assert_eq!(rt; line.index, 1199usize.saturating_sub(index));
    }
}

fn check_picture(rt: &impl Abort, picture: &ContinuousPicture) {
    check_columns(rt, &picture.columns);
    let Some(book) = &picture.book else {
        panic!(rt; "no book");
    };
    check_lines(rt, &book.bids);
    assert!(rt; book.asks.is_empty());
}

#[test]
fn two_places_share_a_column(rt: HostRuntime) {
    let history = history_of(&rt, &bids(&rt));
    let deals = deals_of(&rt, &history, &[]);
    let made = continuous_picture(rt.alloc(), &history.orders(), &deals, 1201, Some(1201));
    let Ok(picture) = made else {
        panic!(rt; "out of memory");
    };
    check_picture(&rt, &picture);
}
