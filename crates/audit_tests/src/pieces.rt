//! Runs over logs that come in pieces of every size: of each command that reads a log one, and of
//! each kind of log one that is good and one that is bad.
use crate::checks::inputs::{ORDERS, TRADES};
use crate::checks::rows::{Row, check_rows_in_pieces};
use crate::day_logs::{CALL_FIRST, DAY_ACCEPTED, DAY_ORDERS, DAY_TRADES};
use crate::fix::messages::{
    ACCEPTED, ASK, BID, BUY, DAY_ORDERS as FIX_ORDERS, DAY_TRADES as FIX_TRADES, MATCHING,
    NO_PRICE, SELL,
};
use crate::staircase::{CERTIFICATE, STAIRCASE, TWO_TRADES};
use std::test::Fail;

const CSV_LOGS: [Row; 8] = [
    Row {
        name: "an empty line between two orders",
        words: "audit matching Z orders trades",
        orders: &[
            "\u{FEFF}kind,firm,id,time,symbol,side,quantity,price,target\r\n",
            "N,A,b1,20240102-09:00:00,Z,B,100,10,\r\n\r\nN,B,s1,20240102-09:00:00,Z,S,100,9,",
        ],
        trades: &[TRADES, "T1,20240102-09:00:01,Z,A,b1,B,s1,100,9.5\n"],
        status: 0,
        report: "accepted,matching,Z\ntotals,2,1,100\n",
    },
    Row {
        name: "a mark, CR LF line ends, an empty line, and no last line end",
        words: "audit matching Z orders trades",
        orders: &[
            "\u{FEFF}kind,firm,id,time,symbol,side,quantity,price,target\r\n\r\n",
            "N,A,b1,20240102-09:00:00,Z,B,100,10,\r\nN,B,s1,20240102-09:00:00,Z,S,100,9,",
        ],
        trades: &[
            "\u{FEFF}trade,time,symbol,buy_firm,buy_id,sell_firm,sell_id,quantity,price\r\n\r\n",
            "T1,20240102-09:00:01,Z,A,b1,B,s1,100,9.5",
        ],
        status: 0,
        report: "accepted,matching,Z\ntotals,2,1,100\n",
    },
    Row {
        name: "a bad trade line after an unknown order",
        words: "audit matching Z orders trades",
        orders: &[ORDERS, "N,A,b1,20240102-09:00:00,Z,B,100,10,\n"],
        trades: &[
            TRADES,
            "T1,20240102-09:00:01,Z,A,b1,B,s9,100,9.5
T2,20240102-09:00:01,Z,A,b1,B,s9,100,9.5,
",
        ],
        status: 3,
        report: "malformed,trades,2,108,columns\n",
    },
    Row {
        name: "a replacement, and a market order without trades",
        words: "audit continuous Z orders trades",
        orders: &[
            ORDERS,
            "N,B,s1,20240102-09:00:00,Z,S,5,10,
R,B,r1,20240102-09:00:00,Z,S,5,11,s1
X,B,x1,20240102-09:00:00,Z,,,,s1
M,A,m1,20240102-09:00:00,Z,B,8,,
",
        ],
        trades: &[TRADES],
        status: 1,
        report: "rejected,spread,orders,4
order,4,buy,A,m1,8,9999999999.99999999,0
order,2,sell,B,r1,5,11,0
",
    },
    Row {
        name: "a day",
        words: CALL_FIRST,
        orders: &DAY_ORDERS,
        trades: &DAY_TRADES,
        status: 0,
        report: DAY_ACCEPTED,
    },
    Row {
        name: "certify",
        words: "certify uniform Z orders trades",
        orders: &STAIRCASE,
        trades: &TWO_TRADES,
        status: 0,
        report: CERTIFICATE,
    },
    Row {
        name: "expect",
        words: "expect uniform Z orders",
        orders: &STAIRCASE,
        trades: &[],
        status: 0,
        report: "trade,time,symbol,buy_firm,buy_id,sell_firm,sell_id,quantity,price
T1,20240102-09:00:00,Z,A,b2,B,s2,1,2
T2,20240102-09:00:00,Z,A,b3,B,s1,1,2
",
    },
    Row {
        name: "convert",
        words: "convert trades csv trades",
        orders: &[],
        trades: &[
            TRADES,
            "T1,20240102-09:00:01.000,Z,A,b1,B,s1,100.0,9.50
T2,20240102-09:00:01,Y,A,b1,B,s1,1,0
",
        ],
        status: 0,
        report: "trade,time,symbol,buy_firm,buy_id,sell_firm,sell_id,quantity,price
T1,20240102-09:00:01,Z,A,b1,B,s1,100,9.5
T2,20240102-09:00:01,Y,A,b1,B,s1,1,0
",
    },
];

#[test]
fn csv_logs_in_pieces_of_every_size(rt: HostRuntime) -> Result<(), Fail> {
    Ok(check_rows_in_pieces(rt.alloc(), &CSV_LOGS, 64)?)
}

const FIX_LOGS: [Row; 3] = [
    Row {
        name: "a day with messages that are passed over",
        words: MATCHING,
        orders: &FIX_ORDERS,
        trades: &FIX_TRADES,
        status: 0,
        report: ACCEPTED,
    },
    Row {
        name: "a message without its price after a good one",
        words: MATCHING,
        orders: &[BID, NO_PRICE],
        trades: &[BUY, SELL],
        status: 3,
        report: "malformed,orders,2,86,missing:44\n",
    },
    Row {
        name: "one file for both logs",
        words: "convert trades fix day",
        orders: &[],
        trades: &[BID, ASK, BUY, SELL],
        status: 0,
        report: "trade,time,symbol,buy_firm,buy_id,sell_firm,sell_id,quantity,price
T1,20240102-09:00:02,Z,A,1,B,2,100,9.5
",
    },
];

#[test]
fn fix_logs_in_pieces_of_every_size(rt: HostRuntime) -> Result<(), Fail> {
    Ok(check_rows_in_pieces(rt.alloc(), &FIX_LOGS, 373)?)
}
