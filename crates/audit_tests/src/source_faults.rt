//! Runs over CSV logs whose source fails, in pieces of 30 bytes.
use crate::checks::inputs::{ORDERS, TRADES};
use crate::checks::rows::Row;
use crate::checks::source_faults::{SourceRow, check_source_faults};
use crate::day_logs::{CALL_FIRST, CALL_TRADES, DAY_ACCEPTED, DAY_ORDERS, DAY_SPREAD, DAY_TRADES};
use crate::staircase::{CERTIFICATE, STAIRCASE, TWO_TRADES};
use std::test::Fail;

/// The orders of one trade, in 125 bytes, and the trade, in 108.
const ONE_TRADE_ORDERS: [&str; 2] = [
    ORDERS,
    "N,A,b1,20240102-09:00:00,Z,B,100,10,
N,B,s1,20240102-09:00:00,Z,S,100,9,
",
];

const ONE_TRADE: [&str; 2] = [TRADES, "T1,20240102-09:00:01,Z,A,b1,B,s1,100,9.5\n"];

/// Audits, of which one finds nothing, one has a finding and one a malformed order log.
const AUDITS: [SourceRow; 3] = [
    SourceRow {
        row: Row {
            name: "one trade",
            words: "audit matching Z orders trades",
            orders: &ONE_TRADE_ORDERS,
            trades: &ONE_TRADE,
            status: 0,
            report: "accepted,matching,Z\ntotals,2,1,100\n",
        },
        certificate: &[],
        order_calls: 7,
        calls: 13,
    },
    SourceRow {
        row: Row {
            name: "a finding of the history",
            words: "audit maximum Z orders trades",
            orders: &[
                ORDERS,
                "N,A,b1,20240102-09:00:00,Z,B,5,10,\nN,A,b1,20240102-09:00:00,Z,B,6,11,\n",
            ],
            trades: &[TRADES],
            status: 1,
            report: "rejected,duplicate-id,orders,2\nsee,orders,1\n",
        },
        certificate: &[],
        order_calls: 7,
        calls: 12,
    },
    SourceRow {
        row: Row {
            name: "a malformed order log",
            words: "audit continuous Z orders trades",
            orders: &[ORDERS, "N,A,b1,20240102-09:00:00,Z,B,1000000000001,10,\n"],
            trades: &ONE_TRADE,
            status: 3,
            report: "malformed,orders,1,52,value:quantity\n",
        },
        certificate: &[],
        order_calls: 6,
        calls: 6,
    },
];

/// Names that the shelf does not have: the start fails by itself.
const UNKNOWN_NAMES: [SourceRow; 3] = [
    SourceRow {
        row: Row {
            name: "an order log that is not there",
            words: "audit matching Z order trades",
            orders: &ONE_TRADE_ORDERS,
            trades: &ONE_TRADE,
            status: 4,
            report: "readfault,orders\n",
        },
        certificate: &[],
        order_calls: 1,
        calls: 1,
    },
    SourceRow {
        row: Row {
            name: "a trade log that is not there",
            words: "audit matching Z orders trade",
            orders: &ONE_TRADE_ORDERS,
            trades: &ONE_TRADE,
            status: 4,
            report: "readfault,trades\n",
        },
        certificate: &[],
        order_calls: 7,
        calls: 8,
    },
    SourceRow {
        row: Row {
            name: "a trade log of a day that is not there",
            words: "session Z uniform@1 orders trade",
            orders: &ONE_TRADE_ORDERS,
            trades: &ONE_TRADE,
            status: 4,
            report: "readfault,trades\n",
        },
        certificate: &[],
        order_calls: 7,
        calls: 8,
    },
];

/// The commands that read one log and write another.
const WRITING: [SourceRow; 4] = [
    SourceRow {
        row: Row {
            name: "expect uniform",
            words: "expect uniform Z orders",
            orders: &STAIRCASE,
            trades: &TWO_TRADES,
            status: 0,
            report: "trade,time,symbol,buy_firm,buy_id,sell_firm,sell_id,quantity,price
T1,20240102-09:00:00,Z,A,b2,B,s2,1,2
T2,20240102-09:00:00,Z,A,b3,B,s1,1,2
",
        },
        certificate: &[],
        order_calls: 11,
        calls: 11,
    },
    SourceRow {
        row: Row {
            name: "expect continuous",
            words: "expect continuous Z orders",
            orders: &ONE_TRADE_ORDERS,
            trades: &ONE_TRADE,
            status: 0,
            report: "trade,time,symbol,buy_firm,buy_id,sell_firm,sell_id,quantity,price
T1,20240102-09:00:00,Z,A,b1,B,s1,100,10
",
        },
        certificate: &[],
        order_calls: 7,
        calls: 7,
    },
    SourceRow {
        row: Row {
            name: "convert orders",
            words: "convert orders csv orders",
            orders: &[ORDERS, "N,A,b1,20240102-09:00:00.100,Z,B,00100.0,010.50,\n"],
            trades: &ONE_TRADE,
            status: 0,
            report: "kind,firm,id,time,symbol,side,quantity,price,target
N,A,b1,20240102-09:00:00.100,Z,B,100,10.5,
",
        },
        certificate: &[],
        order_calls: 6,
        calls: 6,
    },
    SourceRow {
        row: Row {
            name: "convert trades",
            words: "convert trades csv trades",
            orders: &ONE_TRADE_ORDERS,
            trades: &ONE_TRADE,
            status: 0,
            report: "trade,time,symbol,buy_firm,buy_id,sell_firm,sell_id,quantity,price
T1,20240102-09:00:01,Z,A,b1,B,s1,100,9.5
",
        },
        certificate: &[],
        order_calls: 0,
        calls: 6,
    },
];

/// The commands about certificates. The certificate is read in the place of the trade log.
const CERTIFICATES: [SourceRow; 2] = [
    SourceRow {
        row: Row {
            name: "certify",
            words: "certify uniform Z orders trades",
            orders: &STAIRCASE,
            trades: &TWO_TRADES,
            status: 0,
            report: CERTIFICATE,
        },
        certificate: &[],
        order_calls: 11,
        calls: 18,
    },
    SourceRow {
        row: Row {
            name: "verify",
            words: "verify Z orders trades certificate",
            orders: &STAIRCASE,
            trades: &TWO_TRADES,
            status: 0,
            report: "verified,uniform,Z,2\n",
        },
        certificate: &[CERTIFICATE],
        order_calls: 11,
        calls: 25,
    },
];

/// Days of two phases: one conforms, one does not, one has a finding of the history, after
/// which the trade log is still read, and one has an order log that is malformed, after which
/// it is not.
const DAYS: [SourceRow; 4] = [
    SourceRow {
        row: Row {
            name: "a day",
            words: CALL_FIRST,
            orders: &DAY_ORDERS,
            trades: &DAY_TRADES,
            status: 0,
            report: DAY_ACCEPTED,
        },
        certificate: &[],
        order_calls: 8,
        calls: 15,
    },
    SourceRow {
        row: Row {
            name: "a day that does not conform",
            words: CALL_FIRST,
            orders: &DAY_ORDERS,
            trades: &CALL_TRADES,
            status: 1,
            report: DAY_SPREAD,
        },
        certificate: &[],
        order_calls: 8,
        calls: 14,
    },
    SourceRow {
        row: Row {
            name: "a day with a finding of the history",
            words: CALL_FIRST,
            orders: &[
                ORDERS,
                "N,A,b1,20240102-09:00:00,Z,B,5,10,\nN,A,b1,20240102-09:00:00,Z,B,6,11,\n",
            ],
            trades: &DAY_TRADES,
            status: 1,
            report: "rejected,duplicate-id,orders,2\nsee,orders,1\n",
        },
        certificate: &[],
        order_calls: 7,
        calls: 14,
    },
    SourceRow {
        row: Row {
            name: "a day with a malformed order log",
            words: CALL_FIRST,
            orders: &[ORDERS, "N,A,b1,20240102-09:00:00,Z,B,1000000000001,10,\n"],
            trades: &DAY_TRADES,
            status: 3,
            report: "malformed,orders,1,52,value:quantity\n",
        },
        certificate: &[],
        order_calls: 6,
        calls: 6,
    },
];

#[test]
fn a_source_that_fails_at_each_call(rt: HostRuntime) -> Result<(), Fail> {
    check_source_faults(rt.alloc(), &AUDITS, 30)?;
    check_source_faults(rt.alloc(), &UNKNOWN_NAMES, 30)?;
    check_source_faults(rt.alloc(), &WRITING, 30)?;
    check_source_faults(rt.alloc(), &CERTIFICATES, 30)?;
    Ok(check_source_faults(rt.alloc(), &DAYS, 30)?)
}
