//! An order list with the Expected trades of `uniform` and `maximum`, which their audits accept.
use crate::records::{history_of, new_order, price_of};
use audit_base::orders::Deal;
use audit_base::records::OrderRecord;
use audit_base::terms::VolumeRule::{Maximum, Uniform};
use audit_base::terms::{Life, Side, VolumeRule};
use instruction_history::history::History;
use matching_core::outcomes::Outcome;
use maximum_audit::auditing::audit_maximum;
use maximum_audit::expecting::greatest_matching;
use std::process::Abort;
use uniform_audit::auditing::audit_uniform;
use uniform_audit::expecting::expected_uniform;

/// An order as its side, its quantity and its limit.
type Row = (Side, u64, u64);

/// A trade as the indices of its bid and its ask, its quantity and its price.
type Trade = (usize, usize, u64, u64);

/// The order with this digit as its id.
fn order(rt: &impl Abort, id: u8, row: Row) -> OrderRecord {
    let (side, quantity, limit) = row;
    let price = price_of(rt, limit);
    new_order(rt, &[id], side, quantity, price, Life::Rests)
}

fn history<R: AllocGlobal + Abort>(rt: &R, rows: &[Row]) -> History {
    let mut entries = Vec::new(rt.alloc());
    for (row, id) in rows.iter().zip(b'1'..b'9') {
        let stored = entries.push(order(rt, id, *row)).is_ok();
        assert!(rt; stored);
    }
    history_of(rt, &entries)
}

fn assert_trades(rt: &impl Abort, deals: &[Deal], trades: &[Trade]) {
    assert!(rt; deals.len() == trades.len());
    for (deal, trade) in deals.iter().zip(trades) {
        let found = (
            deal.bid,
            deal.ask,
            deal.quantity.value(),
            deal.price.units(),
        );
        assert!(rt; found == *trade);
    }
}

const LADDER: [Row; 6] = [
    (Side::Buy, 1, 1),
    (Side::Buy, 1, 2),
    (Side::Buy, 1, 3),
    (Side::Sell, 1, 1),
    (Side::Sell, 1, 2),
    (Side::Sell, 1, 3),
];

/// The volume and the bound with which the audit of the Expected trades accepts them, once they
/// are the trades of the case.
fn bound_of_expected<R: AllocGlobal + Abort>(
    rt: &R,
    rule: VolumeRule,
    history: &History,
    trades: &[Trade],
) -> (u128, u64) {
    let orders = history.orders();
    let made = match rule {
        Uniform => expected_uniform(rt.alloc(), &orders),
        Maximum => greatest_matching(rt.alloc(), &orders),
    };
    let Ok(deals) = made else {
        panic!(rt; "no memory");
    };
    assert_trades(rt, &deals, trades);
    let audited = match rule {
        Uniform => audit_uniform(rt.alloc(), &orders, &deals, 9),
        Maximum => audit_maximum(rt.alloc(), &orders, &deals, 9),
    };
    let Ok(Outcome::Conforms(reached)) = audited else {
        panic!(rt; "an offence");
    };
    let Some(bound) = reached.bound else {
        panic!(rt; "no bound");
    };
    assert!(rt; bound.volume == reached.traded.volume());
    (bound.volume, bound.price)
}

/// A case: the rule, the orders, their Expected trades, the volume and its bound.
type Case = (VolumeRule, &'static [Row], &'static [Trade], u128, u64);

const CASES: [Case; 2] = [
    (Uniform, &LADDER, &[(1, 4, 1, 2), (2, 3, 1, 2)], 2, 2),
    (
        Maximum,
        &LADDER,
        &[(0, 3, 1, 1), (1, 4, 1, 2), (2, 5, 1, 3)],
        3,
        0,
    ),
];

#[test]
fn the_expected_trades_are_accepted(rt: HostRuntime) {
    for &(rule, rows, trades, volume, bound) in &CASES {
        let reached = bound_of_expected(&rt, rule, &history(&rt, rows), trades);
        assert!(rt; reached == (volume, bound));
    }
}
