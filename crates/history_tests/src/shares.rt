//! The shares of a few deals, in any order.
use audit_base::numbers::{Price, Quantity};
use audit_base::orders::Deal;
use canonical_form::shares::{Share, canonical};
use std::process::Abort;

fn deal(rt: &impl Abort, place: u32, bid: usize, ask: usize, quantity: u64) -> Deal {
    Deal {
        place,
        bid,
        ask,
        quantity: Quantity::of(quantity).expect(rt, "a quantity"),
        price: Price::of(10).expect(rt, "a price"),
    }
}

fn share(bid: usize, ask: usize, quantity: u128) -> Share {
    Share { bid, ask, quantity }
}

#[test]
fn one_share_for_each_pair(rt: HostRuntime) {
    let deals = [
        deal(&rt, 1, 3, 0, 5),
        deal(&rt, 2, 1, 2, 1),
        deal(&rt, 3, 3, 0, 1_000_000_000_000),
        deal(&rt, 4, 1, 0, 7),
        deal(&rt, 5, 3, 2, 2),
    ];
    let shares = canonical(rt.alloc(), &deals).expect(&rt, "memory");
    let wanted = [
        share(1, 0, 7),
        share(1, 2, 1),
        share(3, 0, 1_000_000_000_005),
        share(3, 2, 2),
    ];
    assert!(rt; shares.as_slice() == wanted.as_slice());
    let none = canonical(rt.alloc(), &deals[..0]).expect(&rt, "memory");
    assert!(rt; none.len() == 0);
}
