//! Logs of the greatest length, and one byte longer; the greatest message, and lines of many bytes.
use crate::checks::answers::{RowFault, answer_into, answer_of};
use crate::long_shelf::LongShelf;
use audit_base::faults::NoMemory;
use log_source::memory_sink::MemorySink;
use log_source::quiet_shelf::QuietShelf;
use std::alloc::Global;
use std::test::Fail;

/// The greatest number of bytes of a log, 2^35.
const LONGEST: u64 = 34_359_738_368;

/// A command over two logs of these lengths, of which the first message or line is bad, so that no
/// later byte is looked at: all are counted.
#[derive(Clone, Copy)]
struct LongRow {
    words: &'static str,
    front: &'static [u8],
    order_bytes: u64,
    trade_bytes: u64,
    status: u8,
    text: &'static str,
}

const LONG: [LongRow; 10] = [
    LongRow {
        words: "plain day",
        front: b"8=FIX.5.0\x01",
        order_bytes: LONGEST,
        trade_bytes: 0,
        status: 3,
        text: "malformed,orders,1,0,begin\n",
    },
    LongRow {
        words: "plain day",
        front: b"8=FIX.5.0\x01",
        order_bytes: LONGEST + 1,
        trade_bytes: 0,
        status: 6,
        text: "toolong,orders\n",
    },
    LongRow {
        words: "plain day",
        front: b"8=FIX.4.2\x019=5\x0135=0\x0110=161\x018=FIX.5.0\x01",
        order_bytes: LONGEST + 1,
        trade_bytes: 0,
        status: 6,
        text: "8=FIX.4.4\x019=5\x0135=0\x0110=163\x01\ntoolong,orders\n",
    },
    LongRow {
        words: "plain day --lines --soh |",
        front: b"1 : 8=FIX.5.0|",
        order_bytes: LONGEST,
        trade_bytes: 0,
        status: 3,
        text: "malformed,orders,1,4,begin\n",
    },
    LongRow {
        words: "plain day --lines --soh |",
        front: b"1 : 8=FIX.4.2|9=5|35=0|10=161| 2 : 8=FIX.5.0|",
        order_bytes: LONGEST + 1,
        trade_bytes: 0,
        status: 6,
        text: "8=FIX.4.4\x019=5\x0135=0\x0110=163\x01\ntoolong,orders\n",
    },
    LongRow {
        words: "contents orders trades --orders-form fix --trades-form fix",
        front: b"8=FIX.4.2\x01",
        order_bytes: LONGEST,
        trade_bytes: LONGEST + 1,
        status: 3,
        text: "malformed,orders,1,0,begin\n",
    },
    LongRow {
        words: "contents orders trades --orders-form fix --trades-form fix",
        front: b"8=FIX.4.2\x01",
        order_bytes: LONGEST + 1,
        trade_bytes: 0,
        status: 6,
        text: "toolong,orders\n",
    },
    LongRow {
        words: "contents orders trades --orders-form fix --trades-form fix",
        front: b"8=FIX.4.2\x01",
        order_bytes: 0,
        trade_bytes: LONGEST,
        status: 3,
        text: "malformed,trades,1,0,begin\n",
    },
    LongRow {
        words: "contents orders trades --orders-form fix --trades-form fix",
        front: b"8=FIX.4.2\x01",
        order_bytes: 0,
        trade_bytes: LONGEST + 1,
        status: 6,
        text: "toolong,trades\n",
    },
    LongRow {
        words: "contents orders trades",
        front: b"no header\n",
        order_bytes: LONGEST + 1,
        trade_bytes: 0,
        status: 6,
        text: "toolong,orders\n",
    },
];

/// Checks each of these rows.
fn check_long(alloc: Global) -> Result<(), RowFault> {
    for row in &LONG {
        let mut shelf = LongShelf::new(row.front, row.order_bytes, row.trade_bytes);
        let answered = answer_of(alloc, row.words, &mut shelf)?;
        answered.check(alloc, row.words, 0, row.status, row.text.as_bytes())?;
    }
    Ok(())
}

#[test]
fn logs_of_the_greatest_length_and_one_byte_more(rt: HostRuntime) -> Result<(), Fail> {
    Ok(check_long(rt.alloc())?)
}

/// These bytes, so many of another, and these.
fn bytes_of(
    alloc: Global,
    front: &[u8],
    byte: u8,
    count: u32,
    end: &[u8],
) -> Result<Vec<u8>, NoMemory> {
    let mut bytes = Vec::from_slice(alloc, front)?;
    for _ in 0..count {
        bytes.push(byte)?;
    }
    bytes.extend_from_slice(end)?;
    Ok(bytes)
}

/// Checks what is written of a day that comes in pieces of 65,536 bytes.
fn check_day(
    alloc: Global,
    words: &str,
    day: Vec<u8>,
    status: u8,
    text: &[u8],
) -> Result<(), RowFault> {
    let mut shelf = QuietShelf::new(day, Vec::new(alloc), 65_536);
    let out = MemorySink::new(alloc, 1_100_000, 65_536, Vec::new(alloc))?;
    let answered = answer_into(alloc, words, &mut shelf, out)?;
    answered.check(alloc, words, 0, status, text)
}

/// Checks a message whose body has 1,048,576 bytes, framed and on a line, and one whose body has
/// one byte more.
fn check_greatest(alloc: Global) -> Result<(), RowFault> {
    let plain = b"8=FIX.4.4\x019=1048576\x0135=B\x0158=";
    let text = bytes_of(alloc, plain, b'x', 1_048_567, b"\x0110=098\x01\n")?;
    let front = b"8=FIX.4.2\x019=1048576\x0135=B\x0158=";
    let day = bytes_of(alloc, front, b'x', 1_048_567, b"\x0110=096\x01")?;
    check_day(alloc, "plain day", day, 0, &text)?;
    let front = b"1 : 8=FIX.4.2^A9=1048576^A35=B^A58=";
    let day = bytes_of(alloc, front, b'x', 1_048_567, b"^A10=096^A <-\n")?;
    check_day(alloc, "plain day --lines --soh ^A", day, 0, &text)?;
    let front = b"1 : 8=FIX.4.2|9=1048577|35=B|58=";
    let day = bytes_of(alloc, front, b'x', 1_048_568, b"|10=217|\n")?;
    let bad = b"malformed,orders,1,4,length\n";
    check_day(alloc, "plain day --lines --soh |", day, 3, bad)
}

#[test]
fn the_greatest_message(rt: HostRuntime) -> Result<(), Fail> {
    Ok(check_greatest(rt.alloc())?)
}

/// A message behind 3,000,000 bytes and before so many, on a line without an end.
fn long_line(alloc: Global, behind: u32) -> Result<Vec<u8>, NoMemory> {
    let end = bytes_of(alloc, b" 8=FIX.4.2|9=5|35=0|10=161|", b'=', behind, b"")?;
    bytes_of(alloc, b"", b'8', 3_000_000, &end)
}

/// Checks that the message is read.
fn check_line(alloc: Global, behind: u32) -> Result<(), RowFault> {
    let day = long_line(alloc, behind)?;
    let text = b"8=FIX.4.4\x019=5\x0135=0\x0110=163\x01\n";
    check_day(alloc, "plain day --lines --soh |", day, 0, text)
}

#[test]
fn a_line_without_an_end(rt: HostRuntime) -> Result<(), Fail> {
    check_line(rt.alloc(), 0)?;
    Ok(check_line(rt.alloc(), 3_000_000)?)
}
