//! A day whose logs cannot be read.
ghost use Rattle.std.specs.Prelude.{◌≤◌};

use audit_base::terms::{Form, Rule, Which};
use day_logs::answers::{DayAnswer, DayQuestion, verdicts_on};
use day_symbols::shares::DayShare;
use further_checks::findings::FurtherChecks;
use log_source::memory_shelf::MemoryShelf;
use log_verdict::sources::Source;
use log_verdict::stops::Stop;
use seeded_hash::seed::HashSeed;
use std::alloc::Global;
use std::test::Fail;

/// Y conforms, and the bid of Z trades more than its quantity.
const ORDERS: &[u8] = b"kind,firm,id,time,symbol,side,quantity,price,target\n\
    N,A,y1,20240102-09:00:00,Y,B,5,7,\n\
    N,B,y2,20240102-09:00:00,Y,S,5,7,\n\
    N,A,b1,20240102-09:00:00,Z,B,10,10,\n\
    N,B,s1,20240102-09:00:00,Z,S,20,9,\n";

const TRADES: &[u8] = b"trade,time,symbol,buy_firm,buy_id,sell_firm,sell_id,quantity,price\n\
    T1,20240102-09:00:01,Y,A,y1,B,y2,5,7\n\
    T2,20240102-09:00:01,Z,A,b1,B,s1,11,9\n";

/// A shelf with two logs, which gives at most `piece` bytes at once and fails at the call of this
/// number.
pub(crate) fn shelf_of(
    alloc: Global,
    orders: &[u8],
    trades: &[u8],
    piece: usize,
    fails: u32,
) -> Result<MemoryShelf, Fail>
    requires { 1 ≤ piece }
{
    let mut shelf = MemoryShelf::new(alloc, piece, Vec::from_slice(alloc, &[fails])?);
    let name = String::from_str(alloc, "orders")?;
    shelf.put(name, Vec::from_slice(alloc, orders)?)?;
    let name = String::from_str(alloc, "trades")?;
    shelf.put(name, Vec::from_slice(alloc, trades)?)?;
    Ok(shelf)
}

/// The answer to a whole day under `matching`.
fn answer_on(alloc: Global, shelf: &mut MemoryShelf) -> Result<DayAnswer, Stop> {
    let question = DayQuestion {
        rule: Rule::Matching,
        table: false,
        checks: FurtherChecks::none(),
        share: DayShare::whole(),
    };
    let orders = Source::of("orders", Form::Csv, HashSeed::fixed());
    let trades = Source::of("trades", Form::Csv, HashSeed::fixed());
    verdicts_on(alloc, shelf, &question, &orders, &trades)
}

#[test]
fn the_log_that_cannot_be_read_is_told(rt: HostRuntime) -> Result<(), Fail> {
    let mut shelf = shelf_of(rt.alloc(), ORDERS, TRADES, 1000, 1)?;
    match answer_on(rt.alloc(), &mut shelf) {
        Err(stop) => assert!(rt; stop == Stop::ReadFault(Which::Orders)),
        Ok(_) => assert!(rt; false),
    }
    let mut shelf = shelf_of(rt.alloc(), ORDERS, TRADES, 1000, 5)?;
    match answer_on(rt.alloc(), &mut shelf) {
        Err(stop) => assert!(rt; stop == Stop::ReadFault(Which::Trades)),
        Ok(_) => assert!(rt; false),
    }
    Ok(())
}
