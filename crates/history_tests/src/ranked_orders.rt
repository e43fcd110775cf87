//! The ranks of an order list that is written down order by order.
use crate::order_lists::history_of;
use audit_base::terms::Side;
use rank_order::ranking::ranked_sides;

#[test]
fn cancelled_orders_have_no_rank_and_equal_limits_go_by_place(rt: HostRuntime) {
    let history = history_of(
        &rt,
        &[
            (Side::Buy, 100, 9, false),
            (Side::Sell, 100, 12, false),
            // It would be the best bid.
            (Side::Buy, 100, 11, true),
            (Side::Buy, 100, 9, false),
            (Side::Sell, 100, 10, false),
            (Side::Sell, 100, 10, false),
            (Side::Buy, 100, 10, false),
            // It would be the best ask.
            (Side::Sell, 100, 8, true),
            (Side::Buy, 100, 9, false),
        ],
    );
    let Ok(sides) = ranked_sides(rt.alloc(), &history.orders()) else {
        panic!(rt; "out of memory");
    };
    assert!(rt; sides.bids.as_slice() == [6, 0, 3, 8].as_slice());
    assert!(rt; sides.asks.as_slice() == [4, 5, 1].as_slice());
}
