//! Days of which each call of the shelf and each write fails once.
use crate::checks::faults::{ShelfRow, check_shelf_faults, check_sink_faults};
use crate::checks::inputs::{ORDERS, TRADES};
use crate::checks::rows::Row;
use std::test::Fail;

/// The orders of one trade, in 125 bytes, and the trade, in 108.
const ONE_TRADE_ORDERS: [&str; 2] = [
    ORDERS,
    "N,A,b1,20240102-09:00:00,Z,B,100,10,
N,B,s1,20240102-09:00:00,Z,S,100,9,
",
];

const ONE_TRADE: [&str; 2] = [TRADES, "T1,20240102-09:00:01,Z,A,b1,B,s1,100,9.5\n"];

/// What is in both logs.
const ONE_TRADE_CONTENTS: &str = "orders,N,2
trades,T,1
symbols,1
times,orders,20240102-09:00:00,20240102-09:00:00
times,trades,20240102-09:00:01,20240102-09:00:01
";

/// A day of a rule, one of phases, and one whose order log is out of its grammar, so that the trade
/// log is not started; the offences of a symbol; digests, for which both logs are started; and what
/// is in two logs.
const SHELF_ROWS: [ShelfRow; 6] = [
    ShelfRow {
        row: Row {
            name: "a day of a rule",
            words: "audit matching orders trades",
            orders: &ONE_TRADE_ORDERS,
            trades: &ONE_TRADE,
            status: 0,
            report: "day,1,1,0,matching\nZ,accepted,matching,Z\nZ,totals,2,1,100\n",
        },
        order_calls: 7,
        calls: 13,
    },
    ShelfRow {
        row: Row {
            name: "a day of phases",
            words: "session continuous@1 orders trades",
            orders: &ONE_TRADE_ORDERS,
            trades: &ONE_TRADE,
            status: 0,
            report: "day,1,1,0,continuous@1\nZ,session,Z,continuous@1\nZ,totals,2,1,100\n",
        },
        order_calls: 7,
        calls: 13,
    },
    ShelfRow {
        row: Row {
            name: "an order log that is out of its grammar",
            words: "audit matching orders trades",
            orders: &["no header\n"],
            trades: &ONE_TRADE,
            status: 3,
            report: "malformed,orders,1,0,header\n",
        },
        order_calls: 3,
        calls: 3,
    },
    ShelfRow {
        row: Row {
            name: "the offences of a symbol",
            words: "offences matching Z orders trades --records",
            orders: &ONE_TRADE_ORDERS,
            trades: &ONE_TRADE,
            status: 0,
            report: "accepted,matching,Z\ntotals,2,1,100\n",
        },
        order_calls: 7,
        calls: 13,
    },
    ShelfRow {
        row: Row {
            name: "digests of two logs",
            words: "digest orders trades",
            orders: &["abc"],
            trades: &ONE_TRADE,
            status: 0,
            report: "sha256,orders,ba7816bf8f01cfea414140de5dae2223b00361a396177a9cb410ff61f20015ad
sha256,trades,f544c800b95c6335be7ac53ba9a24b09ae0ef08fd8c1b0fc6fb07d6071dfbdfa
",
        },
        order_calls: 3,
        calls: 9,
    },
    ShelfRow {
        row: Row {
            name: "what is in two logs",
            words: "contents orders trades",
            orders: &ONE_TRADE_ORDERS,
            trades: &ONE_TRADE,
            status: 0,
            report: ONE_TRADE_CONTENTS,
        },
        order_calls: 7,
        calls: 13,
    },
];

/// Orders of Y and of Z.
const TWO_SYMBOLS: [&str; 2] = [
    ORDERS,
    "N,A,y1,20240102-09:00:00,Y,B,5,7,
N,B,y2,20240102-09:00:00,Y,S,5,7,
N,A,b1,20240102-09:00:00,Z,B,10,10,
N,B,s1,20240102-09:00:00,Z,S,20,9,
",
];

/// The trade of Y conforms, and the bid of Z trades more than its quantity.
const TWO_TRADES: [&str; 2] = [
    TRADES,
    "T1,20240102-09:00:01,Y,A,y1,B,y2,5,7
T2,20240102-09:00:01,Z,A,b1,B,s1,11,9
",
];

/// A text of each status but that of a log that is too long.
const SINK_ROWS: [Row; 8] = [
    Row {
        name: "a day of no symbol",
        words: "audit matching orders trades",
        orders: &[ORDERS],
        trades: &[TRADES],
        status: 0,
        report: "day,0,0,0,matching\n",
    },
    Row {
        name: "a day of two symbols",
        words: "audit matching orders trades",
        orders: &TWO_SYMBOLS,
        trades: &TWO_TRADES,
        status: 1,
        report: "day,2,1,1,matching
Y,accepted,matching,Y
Y,totals,2,1,5
Z,rejected,buy-quantity,trades,2
Z,order,3,buy,A,b1,10,10,11
",
    },
    Row {
        name: "a symbol that is not there",
        words: "offences matching z orders trades",
        orders: &ONE_TRADE_ORDERS,
        trades: &ONE_TRADE,
        status: 1,
        report: "absent,z\n",
    },
    Row {
        name: "words that are not well-formed",
        words: "audit best orders trades",
        orders: &[ORDERS],
        trades: &[TRADES],
        status: 2,
        report: "usage: audit RULE ORDERS TRADES | session PHASES ORDERS TRADES \
                 | offences RULE SYMBOL ORDERS TRADES | page RULE SYMBOL ORDERS TRADES \
                 | digest ORDERS TRADES \
                 | file DATABASE LABEL RULE SYMBOL ORDERS TRADES \
                 | file-all DATABASE LABEL RULE ORDERS TRADES \
                 | check DATABASE LABEL ORDERS TRADES | orders START COUNT \
                 | convert orders|trades csv|fix PATH csv|fix \
                 | plain DAY | contents ORDERS TRADES | help [COMMAND]\n",
    },
    Row {
        name: "digests of two logs",
        words: "digest orders trades",
        orders: &["abc"],
        trades: &[],
        status: 0,
        report: "sha256,orders,ba7816bf8f01cfea414140de5dae2223b00361a396177a9cb410ff61f20015ad
sha256,trades,e3b0c44298fc1c149afbf4c8996fb92427ae41e4649b934ca495991b7852b855
",
    },
    Row {
        name: "what is in two logs",
        words: "contents orders trades",
        orders: &ONE_TRADE_ORDERS,
        trades: &ONE_TRADE,
        status: 0,
        report: ONE_TRADE_CONTENTS,
    },
    Row {
        name: "a log that is not there",
        words: "audit matching order trades",
        orders: &[ORDERS],
        trades: &[TRADES],
        status: 4,
        report: "readfault,orders\n",
    },
    Row {
        name: "the version",
        words: "--version",
        orders: &[ORDERS],
        trades: &[TRADES],
        status: 0,
        report: "desk (Mekdrox) 1.0.0\nrattle-kit-13f logic dac8208d650f15bf\n",
    },
];

#[test]
fn each_call_of_the_shelf_and_each_write_fails(rt: HostRuntime) -> Result<(), Fail> {
    check_shelf_faults(rt.alloc(), &SHELF_ROWS)?;
    Ok(check_sink_faults(rt.alloc(), &SINK_ROWS)?)
}
