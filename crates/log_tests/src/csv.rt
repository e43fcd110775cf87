//! Feeds of CSV lines that are made by literals.
use csv_logs::feeds::{CsvOrderFeed, CsvTradeFeed};
use csv_logs::logs::{csv_orders_of, csv_trades_of};
use log_source::feed::Feed;
use std::test::Fail;

/// The logs of row `one-trade`.
const ORDERS: &[u8] =
    b"kind,firm,id,time,symbol,side,quantity,price,target\nN,A,b1,20240102-09:00:00,Z,B,100,10,\nN,B,s1,20240102-09:00:00,Z,S,100,9,\n";

const TRADES: &[u8] =
    b"trade,time,symbol,buy_firm,buy_id,sell_firm,sell_id,quantity,price\nT1,20240102-09:00:01,Z,A,b1,B,s1,100,9.5\n";

#[test]
fn a_feed_made_by_a_literal_takes_a_whole_log(rt: HostRuntime) -> Result<(), Fail> {
    let mut feed = CsvTradeFeed {
        alloc: rt.alloc(),
        entries: Vec::new(rt.alloc()),
        rest: Vec::new(rt.alloc()),
        offset: 0,
        header: false,
        bad: None,
    };
    feed.feed(TRADES)?;
    let trades = feed.finish()?;
    let read = csv_trades_of(rt.alloc(), TRADES)?;
    assert!(rt; trades.len() == 1 && trades.as_slice() == read.as_slice());
    Ok(())
}

// It has the first order, and of the second the bytes `N,B,s1`.
#[test]
fn a_feed_made_by_a_literal_goes_on_within_a_line(rt: HostRuntime) -> Result<(), Fail> {
    let entries = csv_orders_of(rt.alloc(), &ORDERS[..89])?;
    let mut rest = Vec::new(rt.alloc());
    rest.extend_from_slice(b"N,B,s1")?;
    let mut feed = CsvOrderFeed {
        alloc: rt.alloc(),
        entries,
        rest,
        offset: 89,
        header: true,
        bad: None,
    };
    assert!(rt; feed.entries.len() == 1);
    feed.feed(&ORDERS[95..])?;
    let orders = feed.finish()?;
    let read = csv_orders_of(rt.alloc(), ORDERS)?;
    assert!(rt; orders.len() == 2 && orders.as_slice() == read.as_slice());
    Ok(())
}
