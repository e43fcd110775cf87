//! Logs that `orders` and `convert` write: over the ends of blocks, and where a call fails.
use crate::checks::answers::{RowFault, answer_into};
use crate::checks::faults::{ShelfRow, check_rooms, check_shelf_faults, check_sink_faults};
use crate::checks::inputs::ORDERS;
use crate::checks::rows::Row;
use audit_base::faults::NoMemory;
use log_source::memory_sink::MemorySink;
use log_source::quiet_shelf::QuietShelf;
use std::alloc::Global;
use std::test::Fail;

/// The orders of `formats`, section Vectors, as canonical CSV.
const TWO_ORDERS: [&str; 2] = [
    ORDERS,
    "N,A,1,20240102-09:00:00,Z,B,100,10,\nN,B,2,20240102-09:00:01,Z,S,100,9,\n",
];

const ONE_TRADE_TEXT: &str = "trade,time,symbol,buy_firm,buy_id,sell_firm,sell_id,quantity,price
T1,20240102-09:00:02,Z,A,1,B,2,100,9.5
";

/// The messages of these orders and of this trade, as `written-and-read-again` has them.
const TWO_MESSAGES: &str =
    "8=FIX.4.4\x019=76\x0135=D\x0149=A\x0156=EXCHANGE\x0111=1\x0160=20240102-09:00:00\x0155=Z\x01\
     54=1\x0138=100\x0140=2\x0144=10\x0110=128\x018=FIX.4.4\x019=75\x0135=D\x0149=B\x0156=EXCHANGE\
     \x0111=2\x0160=20240102-09:00:01\x0155=Z\x0154=2\x0138=100\x0140=2\x0144=9\x0110=091\x01";

const TWO_REPORTS: &str =
    "8=FIX.4.4\x019=85\x0135=8\x0149=EXCHANGE\x0156=A\x0111=1\x01150=F\x01527=T1\x01\
     60=20240102-09:00:02\x0155=Z\x0154=1\x0132=100\x0131=9.5\x0110=078\x018=FIX.4.4\x019=85\x01\
     35=8\x0149=EXCHANGE\x0156=B\x0111=2\x01150=F\x01527=T1\x0160=20240102-09:00:02\x0155=Z\x01\
     54=2\x0132=100\x0131=9.5\x0110=081\x01";

/// The first ten generated records of START 7, four of which the table of the generator has.
const TEN_ORDERS: &str = "kind,firm,id,time,symbol,side,quantity,price,target
N,F1,O1,20240102-09:00:00.000000001,GEN,S,49,99.81,
N,F2,O2,20240102-09:00:00.000000002,GEN,B,80,99.05,
N,F3,O3,20240102-09:00:00.000000003,GEN,B,8,100.59,
N,F4,O4,20240102-09:00:00.000000004,GEN,S,89,99.23,
N,F0,O5,20240102-09:00:00.000000005,GEN,S,3,99.7,
N,F1,O6,20240102-09:00:00.000000006,GEN,B,68,100.18,
N,F2,O7,20240102-09:00:00.000000007,GEN,B,94,99.1,
N,F3,O8,20240102-09:00:00.000000008,GEN,S,21,99.5,
N,F4,O9,20240102-09:00:00.000000009,GEN,B,96,99.24,
X,F0,O10,20240102-09:00:00.000000010,GEN,,,,O5
";

const TWO_GENERATED: Row = Row {
    name: "two generated messages",
    words: "orders 7 2 --form fix",
    orders: &[],
    trades: &[],
    status: 0,
    report: "8=FIX.4.4\x019=92\x0135=D\x0149=F1\x0156=EXCHANGE\x0111=O1\x01\
         60=20240102-09:00:00.000000001\x0155=GEN\x0154=2\x0138=49\x0140=2\x0144=99.81\x0110=231\x01\
         8=FIX.4.4\x019=92\x0135=D\x0149=F2\x0156=EXCHANGE\x0111=O2\x01\
         60=20240102-09:00:00.000000002\x0155=GEN\x0154=1\x0138=80\x0140=2\x0144=99.05\x01\
         10=224\x01",
};

const TEN_GENERATED: Row = Row {
    name: "ten generated lines",
    words: "orders 7 10",
    orders: &[],
    trades: &[],
    status: 0,
    report: TEN_ORDERS,
};

const ORDERS_INTO_FIX: Row = Row {
    name: "orders into FIX",
    words: "convert orders csv orders fix",
    orders: &TWO_ORDERS,
    trades: &[],
    status: 0,
    report: TWO_MESSAGES,
};

const TRADES_OUT_OF_FIX: Row = Row {
    name: "trades out of FIX",
    words: "convert trades fix trades csv",
    orders: &[],
    trades: &[TWO_REPORTS],
    status: 0,
    report: ONE_TRADE_TEXT,
};

const BAD_LINE: Row = Row {
    name: "a bad line behind a good one",
    words: "convert orders csv orders fix",
    orders: &[
        ORDERS,
        "N,A,1,20240102-09:00:00,Z,B,100,10,\nN,A,2,20240102-09:00:00,Z,B,100,x,\n",
    ],
    trades: &[],
    status: 3,
    report: "malformed,orders,2,88,value:price\n",
};

/// A log of 123 bytes: it is started, read in five pieces of at most 30 bytes, and read to its end.
const SHELF_ROWS: [ShelfRow; 1] = [ShelfRow {
    row: ORDERS_INTO_FIX,
    order_calls: 7,
    calls: 7,
}];

const SINK_ROWS: [Row; 4] = [TWO_GENERATED, ORDERS_INTO_FIX, TRADES_OUT_OF_FIX, BAD_LINE];

/// The records of a log that is longer than a block, and room for its text.
const RECORDS: usize = 5_000;

const ROOM: usize = 1_000_000;

/// What the command of this line writes over a shelf that has this order log under every name.
fn written_of(alloc: Global, line: &str, orders: Vec<u8>) -> Result<Vec<u8>, NoMemory> {
    let mut shelf = QuietShelf::new(orders, Vec::new(alloc), 1000);
    let out = MemorySink::new(alloc, ROOM, ROOM, Vec::new(alloc))?;
    let answer = answer_into(alloc, line, &mut shelf, out)?;
    Ok(Vec::from_slice(alloc, answer.out.bytes())?)
}

/// How many lines a text has.
fn line_count(text: &[u8]) -> usize {
    text.iter().filter(|byte| **byte == b'\n').count()
}

/// Checks that a generated log of several blocks is the same when it was converted there and back.
fn check_there_and_back(alloc: Global) -> Result<bool, NoMemory> {
    let lines = written_of(alloc, "orders 7 5000", Vec::new(alloc))?;
    let messages = written_of(alloc, "orders 7 5000 --form fix", Vec::new(alloc))?;
    let into = written_of(alloc, "convert orders csv o fix", lines.clone()?)?;
    let back = written_of(alloc, "convert orders fix o csv", messages.clone()?)?;
    Ok(line_count(&lines) == RECORDS + 1 && into == messages && back == lines)
}

#[test]
fn generated_logs_in_both_forms(rt: HostRuntime) -> Result<(), Fail> {
    assert!(rt; check_there_and_back(rt.alloc())?);
    Ok(())
}

#[test]
fn each_call_of_the_shelf_and_each_write_fails(rt: HostRuntime) -> Result<(), Fail> {
    check_shelf_faults(rt.alloc(), &SHELF_ROWS)?;
    check_sink_faults(rt.alloc(), &SINK_ROWS)?;
    Ok(check_rooms(rt.alloc(), &[TEN_GENERATED])?)
}
