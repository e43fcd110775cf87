//! Days of many symbols, and of one symbol with many records.
ghost use Rattle.std.specs.Prelude.{◌<◌};

use crate::day_texts::{ORDERS, TRADES, check_text, day_shelf, log_of, share_of, share_text};
use day_symbols::shares::DayShare;
use log_source::memory_shelf::MemoryShelf;
use std::alloc::Global;
use std::test::Fail;

/// One bid of each of 10,000 symbols.
fn many_orders(alloc: Global) -> Result<Vec<u8>, Fail> {
    let mut log = log_of(alloc, &[ORDERS])?;
    for number in 1..=10_000u32 {
        let line = format!(in alloc; "N,A,b1,20240102-09:00:00,S{number},B,5,7,\n")?;
        log.extend_from_slice(line.as_bytes())?;
    }
    Ok(log)
}

/// A trade of each hundredth of them, whose ask is not there.
fn many_trades(alloc: Global) -> Result<Vec<u8>, Fail> {
    let mut log = log_of(alloc, &[TRADES])?;
    for number in 1..=100u32 {
        let line = format!(in alloc; "T1,20240102-09:00:01,S{number}00,A,b1,B,s1,5,7\n")?;
        log.extend_from_slice(line.as_bytes())?;
    }
    Ok(log)
}

/// The lines of a text, each with its end.
fn lines_of<'a>(alloc: Global, text: &'a [u8]) -> Result<Vec<&'a [u8]>, Fail> {
    let mut lines = Vec::new(alloc);
    for line in text.split_inclusive(|byte| *byte == b'\n') {
        lines.push(line)?;
    }
    Ok(lines)
}

/// The line at an index, or an empty text.
fn line_at<'a>(lines: &[&'a [u8]], index: usize) -> &'a [u8] {
    lines.get(index).copied().unwrap_or(b"")
}

/// Lines of the day by their indices: the symbol number n has the lines 2 n - 1 and 2 n.
const DAY_LINES: [(usize, &str); 10] = [
    (0, "day,10000,9900,100,matching\n"),
    (1, "S1,accepted,matching,S1\n"),
    (2, "S1,totals,1,0,0\n"),
    (199, "S100,rejected,unknown-order,trades,1\n"),
    (200, "S100,unknown,sell,B,s1\n"),
    (9_999, "S5000,rejected,unknown-order,trades,50\n"),
    (10_001, "S5001,accepted,matching,S5001\n"),
    (19_998, "S9999,totals,1,0,0\n"),
    (19_999, "S10000,rejected,unknown-order,trades,100\n"),
    (20_000, "S10000,unknown,sell,B,s1\n"),
];

/// Fails where the text of the day does not have these lines, or has more.
fn check_day(alloc: Global, text: &[u8]) -> Result<(), Fail> {
    let lines = lines_of(alloc, text)?;
    for &(index, want) in &DAY_LINES {
        check_text("a line of the day", line_at(&lines, index), want.as_bytes())?;
    }
    check_text("what is after them", line_at(&lines, 20_001), b"")
}

/// Fails where the text of a share of three does not begin with this line, does not have this many
/// symbols, or has a line that is not that of its symbol in the day. The first symbol of the share
/// is at the index `from` of the day.
fn check_third(
    alloc: Global,
    day: &[u8],
    share: &[u8],
    from: usize,
    first: &str,
    symbols: usize,
) -> Result<(), Fail>
    requires from { from < 3 }
    requires symbols { symbols < 4000 }
{
    let day = lines_of(alloc, day)?;
    let share = lines_of(alloc, share)?;
    check_text(
        "the first line of a share",
        line_at(&share, 0),
        first.as_bytes(),
    )?;
    for index in 0..2 * symbols {
        let symbol = index / 2 * 3 + from;
        let in_day = line_at(&day, 1 + 2 * symbol + index % 2);
        check_text("a line of a share", line_at(&share, 1 + index), in_day)?;
    }
    check_text("what is after them", line_at(&share, 1 + 2 * symbols), b"")
}

#[test]
fn ten_thousand_symbols_of_one_order(rt: HostRuntime) -> Result<(), Fail> {
    let alloc = rt.alloc();
    let mut shelf = day_shelf(alloc, &many_orders(alloc)?, &many_trades(alloc)?)?;
    let day = share_text(alloc, &mut shelf, DayShare::whole())?;
    check_day(alloc, &day)
}

#[test]
fn three_shares_of_ten_thousand_symbols(rt: HostRuntime) -> Result<(), Fail> {
    let alloc = rt.alloc();
    let mut shelf = day_shelf(alloc, &many_orders(alloc)?, &many_trades(alloc)?)?;
    let day = share_text(alloc, &mut shelf, DayShare::whole())?;
    let share = share_text(alloc, &mut shelf, share_of(1, 3)?)?;
    check_third(alloc, &day, &share, 0, "day,3334,3300,34,matching\n", 3_334)?;
    let share = share_text(alloc, &mut shelf, share_of(2, 3)?)?;
    check_third(alloc, &day, &share, 1, "day,3333,3300,33,matching\n", 3_333)?;
    let share = share_text(alloc, &mut shelf, share_of(3, 3)?)?;
    check_third(alloc, &day, &share, 2, "day,3333,3300,33,matching\n", 3_333)
}

/// An order log of 500 bids and 500 asks of Z, and of these records after them.
fn orders_of_one(alloc: Global, others: &str) -> Result<Vec<u8>, Fail> {
    let mut log = log_of(alloc, &[ORDERS])?;
    for number in 1..=500u32 {
        let bid = format!(in alloc; "N,A,b{number},20240102-09:00:00,Z,B,5,7,\n")?;
        let ask = format!(in alloc; "N,B,s{number},20240102-09:00:00,Z,S,5,7,\n")?;
        log.extend_from_slice(bid.as_bytes())?;
        log.extend_from_slice(ask.as_bytes())?;
    }
    log.extend_from_slice(others.as_bytes())?;
    Ok(log)
}

/// A trade log of 250 trades between the bids and the asks of Z, and of these records before them
/// and after.
fn trades_of_one(alloc: Global, before: &str, after: &str) -> Result<Vec<u8>, Fail> {
    let mut log = log_of(alloc, &[TRADES, before])?;
    for number in 1..=250u32 {
        let parties = format!(in alloc; "A,b{number},B,s{number}")?;
        let trade = format!(in alloc; "T{number},20240102-09:00:01,Z,{parties},5,7\n")?;
        log.extend_from_slice(trade.as_bytes())?;
    }
    log.extend_from_slice(after.as_bytes())?;
    Ok(log)
}

/// The lines of Z, whatever there is beside it.
const ONE_SYMBOL: &str = "Z,accepted,matching,Z\nZ,totals,1000,250,1250\n";

/// What the logs have beside the records of Z; the first line of the day and that of its share
/// 2/2; and the lines that come after those of Z.
#[derive(Clone, Copy)]
struct BesideRow {
    name: &'static str,
    orders: &'static str,
    trades_before: &'static str,
    trades_after: &'static str,
    day: &'static str,
    second_share: &'static str,
    lines: &'static str,
}

const BESIDE: [BesideRow; 5] = [
    BesideRow {
        name: "nothing",
        orders: "",
        trades_before: "",
        trades_after: "",
        day: "day,1,1,0,matching\n",
        second_share: "day,0,0,0,matching\n",
        lines: "",
    },
    BesideRow {
        name: "one order",
        orders: "N,A,b1,20240102-09:00:00,Y,B,5,7,\n",
        trades_before: "",
        trades_after: "",
        day: "day,2,2,0,matching\n",
        second_share: "day,1,1,0,matching\n",
        lines: "Y,accepted,matching,Y\nY,totals,1,0,0\n",
    },
    BesideRow {
        name: "a cancel of an order that Z has, and no order of its own",
        orders: "X,A,x1,20240102-09:00:00,Y,,,,b1\n",
        trades_before: "",
        trades_after: "",
        day: "day,2,1,1,matching\n",
        second_share: "day,1,0,1,matching\n",
        lines: "Y,rejected,unknown-target,orders,1001\n",
    },
    BesideRow {
        name: "a trade between orders that Z has, after all others",
        orders: "",
        trades_before: "",
        trades_after: "T1,20240102-09:00:01,Y,A,b1,B,s1,5,7\n",
        day: "day,2,1,1,matching\n",
        second_share: "day,1,0,1,matching\n",
        lines: "Y,rejected,unknown-order,trades,251\nY,unknown,buy,A,b1\n",
    },
    BesideRow {
        name: "a trade between orders that Z has, before all others",
        orders: "",
        trades_before: "T1,20240102-09:00:01,Y,A,b1,B,s1,5,7\n",
        trades_after: "",
        day: "day,2,1,1,matching\n",
        second_share: "day,1,0,1,matching\n",
        lines: "Y,rejected,unknown-order,trades,1\nY,unknown,buy,A,b1\n",
    },
];

/// Fails where the day of Z and of what there is beside it, or a share of the day, has another
/// text.
fn check_beside(alloc: Global, row: &BesideRow) -> Result<(), Fail> {
    let orders = orders_of_one(alloc, row.orders)?;
    let trades = trades_of_one(alloc, row.trades_before, row.trades_after)?;
    let mut shelf = day_shelf(alloc, &orders, &trades)?;
    let day = share_text(alloc, &mut shelf, DayShare::whole())?;
    check_text(
        row.name,
        &day,
        &log_of(alloc, &[row.day, ONE_SYMBOL, row.lines])?,
    )?;
    let first = share_text(alloc, &mut shelf, share_of(1, 2)?)?;
    check_text(
        row.name,
        &first,
        &log_of(alloc, &["day,1,1,0,matching\n", ONE_SYMBOL])?,
    )?;
    let second = share_text(alloc, &mut shelf, share_of(2, 2)?)?;
    check_text(
        row.name,
        &second,
        &log_of(alloc, &[row.second_share, row.lines])?,
    )
}

#[test]
fn one_symbol_has_its_lines_whatever_there_is_beside_it(rt: HostRuntime) -> Result<(), Fail> {
    for row in &BESIDE {
        check_beside(rt.alloc(), row)?;
    }
    Ok(())
}
