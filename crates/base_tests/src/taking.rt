//! Logs that are read from a shelf: taken whole or handed on in pieces, and calls that fail.
use audit_base::faults::NoMemory;
use audit_base::terms::Which;
use log_source::endless_shelf::EndlessShelf;
use log_source::feed::Feed;
use log_source::limits::LONGEST_READ;
use log_source::memory_shelf::MemoryShelf;
use log_source::pump::pump;
use log_source::quiet_shelf::QuietShelf;
use log_source::take::{TakeFault, take_log};
use std::alloc::Global;
use std::test::Fail;

const ORDERS: &[u8] =
    b"kind,firm,id,time,symbol,side,quantity,price,target\nN,A,b1,20240102-09:00:00,Z,B,100,10,\nN,B,s1,20240102-09:00:00,Z,S,100,9,\n";

const TRADES: &[u8] =
    b"trade,time,symbol,buy_firm,buy_id,sell_firm,sell_id,quantity,price\nT1,20240102-09:00:01,Z,A,b1,B,s1,100,9.5\n";

/// The number of bytes that a log may have here, 64 MiB.
const LIMIT: u64 = 67_108_864;

// The logs of one trade in pieces of 30 bytes; the call of this number fails.
fn failing_shelf(alloc: Global, fails: u32) -> Result<MemoryShelf, Fail> {
    let mut shelf = MemoryShelf::new(alloc, 30, Vec::from_slice(alloc, &[fails])?);
    shelf.put(
        String::from_str(alloc, "orders")?,
        Vec::from_slice(alloc, ORDERS)?,
    )?;
    shelf.put(
        String::from_str(alloc, "trades")?,
        Vec::from_slice(alloc, TRADES)?,
    )?;
    Ok(shelf)
}

// The order log takes a start and six reads, the trade log a start and five.
#[test]
fn a_failed_call_is_a_fault_of_the_log_that_is_taken(rt: HostRuntime) -> Result<(), Fail> {
    for fails in 1..=14 {
        let mut shelf = failing_shelf(rt.alloc(), fails)?;
        let orders = take_log(rt.alloc(), &mut shelf, Which::Orders, "orders", LIMIT);
        if fails <= 7 {
            assert!(rt; orders == Err(TakeFault::Fault), "call {fails}");
        } else {
            assert!(rt; orders?.as_slice() == ORDERS, "call {fails}");
            let trades = take_log(rt.alloc(), &mut shelf, Which::Trades, "trades", LIMIT);
            if fails <= 13 {
                assert!(rt; trades == Err(TakeFault::Fault), "call {fails}");
            } else {
                assert!(rt; trades?.as_slice() == TRADES, "call {fails}");
            }
        }
    }
    Ok(())
}

#[test]
fn a_name_is_given_new_bytes_and_another_is_not_there(rt: HostRuntime) -> Result<(), Fail> {
    let mut shelf = failing_shelf(rt.alloc(), 99)?;
    shelf.put(
        String::from_str(rt.alloc(), "orders")?,
        Vec::from_slice(rt.alloc(), TRADES)?,
    )?;
    let log = take_log(rt.alloc(), &mut shelf, Which::Orders, "orders", LIMIT)?;
    assert!(rt; log.as_slice() == TRADES);
    let none = take_log(rt.alloc(), &mut shelf, Which::Orders, "order", LIMIT);
    assert!(rt; none == Err(TakeFault::Fault));
    Ok(())
}

#[test]
fn a_log_is_taken_whole_at_every_piece(rt: HostRuntime) -> Result<(), Fail> {
    for piece in 1..=126 {
        let orders = Vec::from_slice(rt.alloc(), ORDERS)?;
        let trades = Vec::from_slice(rt.alloc(), TRADES)?;
        let mut shelf = QuietShelf::new(orders, trades, piece);
        let log = take_log(rt.alloc(), &mut shelf, Which::Orders, "any", LIMIT)?;
        assert!(rt; log.as_slice() == ORDERS, "piece {piece}");
    }
    Ok(())
}

#[test]
fn a_log_without_end_is_too_long(rt: HostRuntime) {
    let mut shelf = EndlessShelf::new(b'8');
    let log = take_log(rt.alloc(), &mut shelf, Which::Trades, "any", LIMIT);
    assert!(rt; log == Err(TakeFault::TooLong));
}

// A feed that counts, and says of what it has read only how long it is.
#[derive(Drop)]
struct ByteCount {
    bytes: usize,
}

impl Feed for ByteCount {
    ghost use Rattle.std.specs.Prelude.{◌≡◌, length};

    ghost stands_for = { λ counter bytes. counter.bytes ≡ length bytes };

    fn feed(&mut self, piece: &[u8]) -> Result<(), NoMemory> {
        self.bytes += piece.len();
        Ok(())
    }
}

#[test]
fn every_piece_is_handed_on(rt: HostRuntime) -> Result<(), Fail> {
    for (fails, handed) in [(1, 0), (2, 0), (3, 7), (4, 14), (5, 17), (6, 17)] {
        let list = Vec::from_slice(rt.alloc(), &[fails])?;
        let mut shelf = MemoryShelf::new(rt.alloc(), 7, list);
        shelf.put(
            String::from_str(rt.alloc(), "log")?,
            Vec::from_slice(rt.alloc(), b"seventeen letters")?,
        )?;
        let mut counter = ByteCount { bytes: 0 };
        let result = pump(&mut shelf, Which::Trades, "log", LONGEST_READ, &mut counter);
        let wanted = if fails <= 5 {
            Err(TakeFault::Fault)
        } else {
            Ok(())
        };
        assert!(rt; result == wanted, "call {fails}");
        assert!(rt; counter.bytes == handed, "call {fails}");
    }
    Ok(())
}

// The log has seventeen bytes, in pieces of seven.
#[test]
fn a_log_is_too_long_where_it_passes_the_limit(rt: HostRuntime) -> Result<(), Fail> {
    for limit in 0..=17 {
        let orders = Vec::from_slice(rt.alloc(), b"seventeen letters")?;
        let mut shelf = QuietShelf::new(orders, Vec::new(rt.alloc()), 7);
        let mut counter = ByteCount { bytes: 0 };
        let result = pump(&mut shelf, Which::Orders, "any", limit, &mut counter);
        if limit < 17 {
            assert!(rt; result == Err(TakeFault::TooLong), "limit {limit}");
            assert!(rt; counter.bytes as u64 == limit / 7 * 7, "limit {limit}");
        } else {
            assert!(rt; result.is_ok() && counter.bytes == 17, "limit {limit}");
        }
    }
    Ok(())
}

#[test]
fn the_piece_past_the_limit_is_not_handed_on(rt: HostRuntime) {
    let mut shelf = EndlessShelf::new(b'8');
    let mut counter = ByteCount { bytes: 0 };
    let result = pump(&mut shelf, Which::Orders, "any", LIMIT, &mut counter);
    assert!(rt; result == Err(TakeFault::TooLong));
    assert!(rt; counter.bytes == 67_108_864);
}
