//! Runs over FIX logs whose source fails, in pieces of 100 bytes.
use crate::checks::rows::Row;
use crate::checks::source_faults::{SourceRow, check_source_faults};
use crate::fix::messages::{
    ACCEPTED, ASK, BID, BUY, DAY_ORDERS, DAY_TRADES, MATCHING, SELL, SESSION, SESSION_ACCEPTED,
    SESSION_SPREAD,
};
use std::test::Fail;

/// Logs of two messages each: the orders have 171 bytes, the reports 200.
const BOTH_ORDERS: [&str; 2] = [BID, ASK];

const BOTH_REPORTS: [&str; 2] = [BUY, SELL];

const ROWS: [SourceRow; 8] = [
    SourceRow {
        row: Row {
            name: "audit of a day",
            words: MATCHING,
            orders: &DAY_ORDERS,
            trades: &DAY_TRADES,
            status: 0,
            report: ACCEPTED,
        },
        certificate: &[],
        order_calls: 6,
        calls: 11,
    },
    SourceRow {
        row: Row {
            name: "audit of a lone report",
            words: MATCHING,
            orders: &BOTH_ORDERS,
            trades: &[BUY],
            status: 1,
            report: "rejected,unpaired,trades,1\n",
        },
        certificate: &[],
        order_calls: 4,
        calls: 7,
    },
    SourceRow {
        row: Row {
            name: "audit of a malformed order log",
            words: MATCHING,
            orders: &[ASK, "8=FIX.4.2|"],
            trades: &BOTH_REPORTS,
            status: 3,
            report: "malformed,orders,2,85,begin\n",
        },
        certificate: &[],
        order_calls: 3,
        calls: 3,
    },
    SourceRow {
        row: Row {
            name: "session",
            words: SESSION,
            orders: &DAY_ORDERS,
            trades: &DAY_TRADES,
            status: 0,
            report: SESSION_ACCEPTED,
        },
        certificate: &[],
        order_calls: 6,
        calls: 11,
    },
    SourceRow {
        row: Row {
            name: "session without trades",
            words: SESSION,
            orders: &BOTH_ORDERS,
            trades: &[],
            status: 1,
            report: SESSION_SPREAD,
        },
        certificate: &[],
        order_calls: 4,
        calls: 6,
    },
    SourceRow {
        row: Row {
            name: "expect",
            words: "expect maximum Z orders --orders-form fix",
            orders: &BOTH_ORDERS,
            trades: &[],
            status: 0,
            report: "trade,time,symbol,buy_firm,buy_id,sell_firm,sell_id,quantity,price
T1,20240102-09:00:01,Z,A,1,B,2,100,9
",
        },
        certificate: &[],
        order_calls: 4,
        calls: 4,
    },
    SourceRow {
        row: Row {
            name: "convert orders",
            words: "convert orders fix orders",
            orders: &BOTH_ORDERS,
            trades: &[],
            status: 0,
            report: "kind,firm,id,time,symbol,side,quantity,price,target
N,A,1,20240102-09:00:00,Z,B,100,10,
N,B,2,20240102-09:00:01,Z,S,100,9,
",
        },
        certificate: &[],
        order_calls: 4,
        calls: 4,
    },
    SourceRow {
        row: Row {
            name: "convert trades",
            words: "convert trades fix trades",
            orders: &[],
            trades: &BOTH_REPORTS,
            status: 0,
            report: "trade,time,symbol,buy_firm,buy_id,sell_firm,sell_id,quantity,price
T1,20240102-09:00:02,Z,A,1,B,2,100,9.5
",
        },
        certificate: &[],
        order_calls: 0,
        calls: 4,
    },
];

#[test]
fn a_source_of_fix_logs_that_fails_at_each_call(rt: HostRuntime) -> Result<(), Fail> {
    Ok(check_source_faults(rt.alloc(), &ROWS, 100)?)
}
