//! Logs as long as a log may be, and a byte longer.
use crate::checks::answers::{RowFault, answer_of};
use crate::checks::certificates::{VERIFY, check_certificate};
use crate::checks::rows::Row;
use crate::staircase::{CERTIFICATE, STAIRCASE, TWO_TRADES};
use audit_base::faults::NoMemory;
use log_source::quiet_shelf::QuietShelf;
use std::alloc::Global;
use std::test::Fail;

/// The bytes of the longest log.
const LONGEST: usize = 67_108_864;

/// The words of a command, the byte that its logs are made of, the status and the text over
/// logs of the longest size, and the text over logs of a byte more.
type LongRow = (&'static str, u8, u8, &'static str, &'static str);

/// A FIX log of line ends is one without messages.
const EMPTY_LOGS: [LongRow; 5] = [
    (
        "audit matching Z orders trades --orders-form fix --trades-form fix",
        b'\n',
        0,
        "accepted,matching,Z\ntotals,0,0,0\n",
        "toolong,orders\n",
    ),
    (
        "session Z uniform@1,continuous@3 orders trades --orders-form fix --trades-form fix",
        b'\n',
        0,
        "session,Z,uniform@1,continuous@3\ntotals,0,0,0\n",
        "toolong,orders\n",
    ),
    (
        "expect continuous Z orders --orders-form fix",
        b'\n',
        0,
        "trade,time,symbol,buy_firm,buy_id,sell_firm,sell_id,quantity,price\n",
        "toolong,orders\n",
    ),
    (
        "convert orders fix orders",
        b'\n',
        0,
        "kind,firm,id,time,symbol,side,quantity,price,target\n",
        "toolong,orders\n",
    ),
    (
        "convert trades fix trades",
        b'\n',
        0,
        "trade,time,symbol,buy_firm,buy_id,sell_firm,sell_id,quantity,price\n",
        "toolong,trades\n",
    ),
];

/// A CSV log of line ends has no header up to its end, and one of digits begins with another
/// line, as a FIX log of digits does.
const MALFORMED_LOGS: [LongRow; 3] = [
    (
        "audit matching Z orders trades",
        b'\n',
        3,
        "malformed,orders,1,67108864,header\n",
        "toolong,orders\n",
    ),
    (
        "convert trades csv trades",
        b'8',
        3,
        "malformed,trades,1,0,header\n",
        "toolong,trades\n",
    ),
    (
        "audit matching Z orders trades --orders-form fix",
        b'8',
        3,
        "malformed,orders,1,0,begin\n",
        "toolong,orders\n",
    ),
];

/// A shelf both of whose logs are this byte this many times.
fn long_shelf(alloc: Global, byte: u8, size: usize) -> Result<QuietShelf, NoMemory> {
    let orders = vec![in alloc; byte; size]?;
    let trades = vec![in alloc; byte; size]?;
    Ok(QuietShelf::new(orders, trades, 65_536))
}

fn check_long(alloc: Global, row: &LongRow) -> Result<(), RowFault> {
    let (words, byte, status, report, too_long) = *row;
    let answered = answer_of(alloc, words, &mut long_shelf(alloc, byte, LONGEST)?)?;
    answered.check(alloc, words, 0, status, report.as_bytes())?;
    let answered = answer_of(alloc, words, &mut long_shelf(alloc, byte, LONGEST + 1)?)?;
    answered.check(alloc, words, 1, 6, too_long.as_bytes())
}

fn check_all_long(alloc: Global, rows: &[LongRow]) -> Result<(), RowFault> {
    for row in rows {
        check_long(alloc, row)?;
    }
    Ok(())
}

#[test]
fn the_longest_empty_log_is_read_and_one_of_a_byte_more_is_not(
    rt: HostRuntime,
) -> Result<(), Fail> {
    Ok(check_all_long(rt.alloc(), &EMPTY_LOGS)?)
}

#[test]
fn the_longest_malformed_log_is_read_and_one_of_a_byte_more_is_not(
    rt: HostRuntime,
) -> Result<(), Fail> {
    Ok(check_all_long(rt.alloc(), &MALFORMED_LOGS)?)
}

/// The certificate of the staircase, and after it one line more of such a length that the whole
/// has this many bytes.
fn certificate_of_size(alloc: Global, size: usize) -> Result<Vec<u8>, NoMemory> {
    let mut certificate = Vec::from_slice(alloc, CERTIFICATE.as_bytes())?;
    certificate.resize(size, b'x')?;
    Ok(certificate)
}

/// Checks what is answered to such a certificate.
fn check_long_certificate(
    alloc: Global,
    name: &'static str,
    size: usize,
    status: u8,
    report: &'static str,
) -> Result<(), RowFault> {
    let row = Row {
        name,
        words: VERIFY,
        orders: &STAIRCASE,
        trades: &TWO_TRADES,
        status,
        report,
    };
    check_certificate(alloc, &row, certificate_of_size(alloc, size)?)
}

#[test]
fn a_certificate_at_the_limit_and_one_above_it(rt: HostRuntime) -> Result<(), Fail> {
    check_long_certificate(rt.alloc(), "at the limit", LONGEST, 1, "refused,11\n")?;
    Ok(check_long_certificate(
        rt.alloc(),
        "one above it",
        LONGEST + 1,
        6,
        "toolong,trades\n",
    )?)
}
