//! The numbers of the picture of a small log: two bids, two asks, one trade and a cancel.
ghost use Rattle.audit_base.specs.Deals.{IsDealList};

use crate::records::{cancel, deals_of, history_of, order, trade};
use audit_base::orders::Deal;
use audit_base::terms::Side;
use continuous_picture::columns::PlaceColumn;
use continuous_picture::pictures::{BookBefore, ContinuousPicture, continuous_picture};
use continuous_picture::ranges::LimitRange;
use instruction_history::history::History;
use order_book::books::Resting;
use std::process::Abort;

/// What stands for no limit.
const NONE: u64 = 0;

/// Of each place of the small log its best bid, its best ask and the price of its trade.
const PLACES: [(u64, u64, u64, u64); 5] = [
    (1, 10, NONE, NONE),
    (2, 10, 12, NONE),
    (3, 11, 12, NONE),
    (4, 10, 11, 11),
    (5, 10, 12, NONE),
];

/// The history of the small log: the ask of record 4 takes the bid of record 3, and is cancelled.
pub(crate) fn small_history<R: AllocGlobal + Abort>(rt: &R) -> History {
    let entries = [
        order(rt, b"b1", Side::Buy, 5, 10),
        order(rt, b"s1", Side::Sell, 5, 12),
        order(rt, b"b2", Side::Buy, 3, 11),
        order(rt, b"s2", Side::Sell, 4, 11),
        cancel(rt, b"c", b"s2"),
    ];
    history_of(rt, &entries)
}

/// Its one trade.
pub(crate) fn small_deals<R: AllocGlobal + Abort>(rt: &R, history: &History) -> Vec<Deal>
    ensures { IsDealList history.now result.items }
{
    let trades = [trade(rt, b"1", b"b2", b"s2", 3, 11)];
    deals_of(rt, history, &trades)
}

/// The least price of a range in whole units, where it is also the greatest.
fn whole(rt: &impl Abort, range: Option<LimitRange>) -> u64 {
    match range {
        Some(range) => {
            assert_eq!(rt; range.low, range.high);
            range.low.units() / 100_000_000
        }
        None => NONE,
    }
}

fn check_column(rt: &impl Abort, column: &PlaceColumn, wanted: (u64, u64, u64, u64)) {
    let (bid, ask) = (whole(rt, column.bids), whole(rt, column.asks));
    let traded = whole(rt, column.trades);
    assert_eq!(rt; (column.first, bid, ask, traded), wanted);
    assert_eq!(rt; column.next, column.first.saturating_add(1));
}

fn check_columns(rt: &impl Abort, columns: &[PlaceColumn]) {
    assert_eq!(rt; columns.len(), PLACES.len());
    for (column, wanted) in columns.iter().zip(PLACES.iter()) {
        check_column(rt, column, *wanted);
    }
}

/// The lines are those of these orders, with this left of each.
fn check_lines(rt: &impl Abort, lines: &[Resting], wanted: &[(usize, u64)]) {
    assert_eq!(rt; lines.len(), wanted.len());
    for (line, want) in lines.iter().zip(wanted.iter()) {
        assert_eq!(rt; (line.index, line.left), *want);
    }
}

fn check_book(rt: &impl Abort, book: &Option<BookBefore>) {
    let Some(book) = book else {
        panic!(rt; "no book");
    };
    assert_eq!(rt; book.place, 4);
    check_lines(rt, &book.bids, &[(2, 3), (0, 5)]);
    check_lines(rt, &book.asks, &[(1, 5)]);
}

fn check_picture(rt: &impl Abort, picture: &ContinuousPicture) {
    check_columns(rt, &picture.columns);
    check_book(rt, &picture.book);
}

#[test]
fn the_best_limits_after_each_record(rt: HostRuntime) {
    let history = small_history(&rt);
    let deals = small_deals(&rt, &history);
    let made = continuous_picture(rt.alloc(), &history.orders(), &deals, 6, Some(4));
    let Ok(picture) = made else {
        panic!(rt; "out of memory");
    };
    check_picture(&rt, &picture);
}
