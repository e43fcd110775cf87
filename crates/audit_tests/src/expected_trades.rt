//! What `expect` writes is accepted by the audit of the same rule.
use crate::checks::answers::{RowFault, answer_of};
use crate::checks::inputs::{ORDERS, log_of};
use audit_base::faults::NoMemory;
use log_source::quiet_shelf::QuietShelf;
use std::alloc::Global;
use std::test::Fail;

const TABLE_OF_A_CALL: [&str; 2] = [
    ORDERS,
    "N,A,b1,20240102-09:00:00.123,Z,B,10,10,
N,A,b2,20240102-09:00:00.123,Z,B,10,10,
N,A,b3,20240102-09:00:00.123,Z,B,10,10,
N,B,s1,20240102-09:00:00.123,Z,S,15,10,
N,B,s2,20240102-09:00:00.123,Z,S,5,10,
",
];

/// Checks that an audit accepts the trades that are expected of an order log, of which there are
/// some.
fn check_accepted(
    alloc: Global,
    expect: &str,
    audit: &str,
    orders: &[&str],
) -> Result<(), RowFault> {
    let mut shelf = QuietShelf::new(log_of(alloc, orders)?, Vec::new(alloc), 65_536);
    let expected = answer_of(alloc, expect, &mut shelf)?;
    expected.check_start(
        alloc,
        expect,
        b"trade,time,symbol,buy_firm,buy_id,sell_firm,sell_id,quantity,price\nT1,",
    )?;
    let mut trades = Vec::new(alloc);
    trades
        .extend_from_slice(expected.out.bytes())
        .map_err(NoMemory::from)?;
    let mut shelf = QuietShelf::new(log_of(alloc, orders)?, trades, 65_536);
    answer_of(alloc, audit, &mut shelf)?.check_start(alloc, audit, b"accepted,")
}

#[test]
fn the_expected_trades_of_a_call_are_accepted(rt: HostRuntime) -> Result<(), Fail> {
    Ok(check_accepted(
        rt.alloc(),
        "expect maximum Z orders",
        "audit maximum Z orders trades",
        &TABLE_OF_A_CALL,
    )?)
}
