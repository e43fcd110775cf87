//! Runs whose sink fails: at each of its writes of 10 bytes, or for want of room after each byte.
use crate::checks::inputs::{ORDERS, TRADES};
use crate::checks::rows::Row;
use crate::checks::sink_faults::check_sink_faults;
use crate::day_logs::{CALL_FIRST, CALL_TRADES, DAY_ACCEPTED, DAY_ORDERS, DAY_SPREAD, DAY_TRADES};
use std::test::Fail;

const BUYER: &str = "N,A,b1,20240102-09:00:00,Z,B,100,10,\n";

const SELLER: &str = "N,B,s1,20240102-09:00:00,Z,S,100,9,\n";

/// A text of each status of an audit but that of a log that is too long.
const AUDITS: [Row; 5] = [
    Row {
        name: "accepted",
        words: "audit matching Z orders trades",
        orders: &[ORDERS, BUYER, SELLER],
        trades: &[TRADES, "T1,20240102-09:00:01,Z,A,b1,B,s1,100,9.5\n"],
        status: 0,
        report: "accepted,matching,Z\ntotals,2,1,100\n",
    },
    Row {
        name: "rejected",
        words: "audit maximum Z orders trades",
        orders: &[ORDERS, BUYER, SELLER],
        trades: &[TRADES],
        status: 1,
        report: "rejected,volume,trades,1
volume,0,100
order,1,buy,A,b1,100,10,0,100
order,2,sell,B,s1,100,9,0,100
",
    },
    Row {
        name: "words that are not well-formed",
        words: "audit best Z orders trades",
        orders: &[ORDERS],
        trades: &[TRADES],
        status: 2,
        report: "usage: audit RULE SYMBOL ORDERS TRADES | expect RULE SYMBOL ORDERS | convert orders|trades csv|fix PATH | generate START COUNT | certify RULE SYMBOL ORDERS TRADES | verify SYMBOL ORDERS TRADES CERTIFICATE | session SYMBOL PHASES ORDERS TRADES\n",
    },
    Row {
        name: "malformed",
        words: "audit matching Z orders trades",
        orders: &[ORDERS],
        trades: &["no header\n"],
        status: 3,
        report: "malformed,trades,1,0,header\n",
    },
    Row {
        name: "a log that is not there",
        words: "audit matching Z order trades",
        orders: &[ORDERS],
        trades: &[TRADES],
        status: 4,
        report: "readfault,orders\n",
    },
];

/// The texts of the other commands.
const OTHERS: [Row; 5] = [
    Row {
        name: "expect",
        words: "expect maximum Z orders",
        orders: &[ORDERS, BUYER, SELLER],
        trades: &[],
        status: 0,
        report: "trade,time,symbol,buy_firm,buy_id,sell_firm,sell_id,quantity,price
T1,20240102-09:00:00,Z,A,b1,B,s1,100,9
",
    },
    Row {
        name: "convert orders",
        words: "convert orders csv orders",
        orders: &[ORDERS, BUYER],
        trades: &[],
        status: 0,
        report: "kind,firm,id,time,symbol,side,quantity,price,target
N,A,b1,20240102-09:00:00,Z,B,100,10,
",
    },
    Row {
        name: "convert trades",
        words: "convert trades csv trades",
        orders: &[],
        trades: &[TRADES, "T1,20240102-09:00:01,Z,A,b1,B,s1,100,9.5\n"],
        status: 0,
        report: "trade,time,symbol,buy_firm,buy_id,sell_firm,sell_id,quantity,price
T1,20240102-09:00:01,Z,A,b1,B,s1,100,9.5
",
    },
    Row {
        name: "generate",
        words: "generate 7 4",
        orders: &[],
        trades: &[],
        status: 0,
        report: "generated,7,4\nuniform,1,8,99.23\nmaximum,1,8,99.05000001\ncontinuous,1,8\n",
    },
    Row {
        name: "certify",
        words: "certify uniform Z orders trades",
        orders: &[ORDERS],
        trades: &[TRADES],
        status: 0,
        report: "certificate,uniform,Z\nbound,0,0\nlast,buy,none\nlast,sell,none\n",
    },
];

/// A day that conforms, and one that does not.
const DAYS: [Row; 2] = [
    Row {
        name: "a day",
        words: CALL_FIRST,
        orders: &DAY_ORDERS,
        trades: &DAY_TRADES,
        status: 0,
        report: DAY_ACCEPTED,
    },
    Row {
        name: "a day that does not conform",
        words: CALL_FIRST,
        orders: &DAY_ORDERS,
        trades: &CALL_TRADES,
        status: 1,
        report: DAY_SPREAD,
    },
];

#[test]
fn a_sink_that_fails_at_each_write(rt: HostRuntime) -> Result<(), Fail> {
    check_sink_faults(rt.alloc(), &AUDITS)?;
    check_sink_faults(rt.alloc(), &DAYS)?;
    Ok(check_sink_faults(rt.alloc(), &OTHERS)?)
}
