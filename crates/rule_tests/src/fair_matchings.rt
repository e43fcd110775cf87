//! Whether an order is passed over, where the ranks of the sides are at hand.
use crate::records::{deals_of, history_of, new_order, new_trade, price_in};
use audit_base::findings::{Finding, Property};
use audit_base::records::OrderRecord;
use audit_base::terms::{Life, Side};
use fairness::checking::check_fair;
use matching_core::checking::check_matching;
use rank_order::ranking::ranked;
use std::process::Abort;

fn order(rt: &impl Abort, id: &[u8], side: Side, limit: &[u8]) -> OrderRecord {
    new_order(rt, id, side, 5, price_in(rt, limit), Life::Rests)
}

/// What is found where of two bids of one limit the one with this id trades with the ask.
fn found<R: AllocGlobal + Abort>(rt: &R, bid: &[u8]) -> Result<(), Finding> {
    let entries = [
        order(rt, b"b1", Side::Buy, b"10"),
        order(rt, b"b2", Side::Buy, b"10"),
        order(rt, b"s1", Side::Sell, b"9"),
    ];
    let history = history_of(rt, &entries);
    let trades = [new_trade(rt, b"T1", bid, b"s1", 5, price_in(rt, b"10"))];
    let deals = deals_of(rt, &history, &trades);
    let orders = history.orders();
    let Ok(totals) = check_matching(rt.alloc(), &orders, &deals, false) else {
        panic!(rt; "no matching");
    };
    let Ok(bids) = ranked(rt.alloc(), &orders, Side::Buy) else {
        panic!(rt; "no memory");
    };
    let Ok(asks) = ranked(rt.alloc(), &orders, Side::Sell) else {
        panic!(rt; "no memory");
    };
    check_fair(&orders, &bids, &asks, &deals, totals.as_slice())
}

#[test]
fn the_earlier_of_two_equal_bids_comes_first(rt: HostRuntime) {
    assert!(rt; found(&rt, b"b1").is_ok());
    let Err(finding) = found(&rt, b"b2") else {
        panic!(rt; "the first bid is passed over");
    };
    assert!(rt; finding.property == Property::BuyPriority && finding.place == 1);
}
