//! Logs of 2,000 deals that all offend.
use crate::checks::answers::{RowFault, answer_into};
use crate::checks::inputs::{ORDERS, TRADES};
use audit_base::faults::NoMemory;
use audit_base::texts::write_number;
use log_source::memory_sink::MemorySink;
use log_source::quiet_shelf::QuietShelf;
use std::alloc::Global;
use std::test::Fail;

/// How many deals there are.
const DEALS: u32 = 2000;

/// More bytes than the text has.
const ROOM: usize = 1_000_000;

/// Appends a text, a number and a text.
fn append_numbered(
    alloc: Global,
    before: &[u8],
    number: u32,
    behind: &[u8],
    out: &mut Vec<u8>,
) -> Result<(), NoMemory> {
    out.extend_from_slice(before)?;
    write_number(alloc, u128::from(number), out)?;
    out.extend_from_slice(behind)?;
    Ok(())
}

/// A bid of 10,000 at 11, and 2,000 asks of 1 at 10.
fn orders_below(alloc: Global) -> Result<Vec<u8>, NoMemory> {
    let mut log = Vec::new(alloc);
    log.extend_from_slice(ORDERS.as_bytes())?;
    log.extend_from_slice(b"N,A,b1,20240102-09:00:00,Z,B,10000,11,\n")?;
    for number in 1..=DEALS {
        let behind = b",20240102-09:00:00,Z,S,1,10,\n";
        append_numbered(alloc, b"N,B,s", number, behind, &mut log)?;
    }
    Ok(log)
}

/// A deal of 1 at 12 between the bid and each of these asks.
fn trades_above(alloc: Global) -> Result<Vec<u8>, NoMemory> {
    let mut log = Vec::new(alloc);
    log.extend_from_slice(TRADES.as_bytes())?;
    for number in 1..=DEALS {
        let behind = b",20240102-09:00:03,Z,A,b1,B,s";
        append_numbered(alloc, b"T", number, behind, &mut log)?;
        append_numbered(alloc, b"", number, b",1,12\n", &mut log)?;
    }
    Ok(log)
}

/// The records behind the line of a deal.
fn append_records(alloc: Global, number: u32, out: &mut Vec<u8>) -> Result<(), NoMemory> {
    append_numbered(alloc, b"record,trades,", number, b",T", out)?;
    append_numbered(alloc, b"", number, b",20240102-09:00:03,Z,A,b1,B,s", out)?;
    append_numbered(alloc, b"", number, b",1,12\n", out)?;
    out.extend_from_slice(b"record,orders,1,N,A,b1,20240102-09:00:00,Z,B,10000,11,\n")?;
    append_numbered(
        alloc,
        b"record,orders,",
        number.saturating_add(1),
        b",N,B,s",
        out,
    )?;
    append_numbered(alloc, b"", number, b",20240102-09:00:00,Z,S,1,10,\n", out)
}

/// The whole text that is wanted: the line of each deal, and its records if they are asked for.
fn text_wanted(alloc: Global, records: bool) -> Result<Vec<u8>, NoMemory> {
    let mut text = Vec::new(alloc);
    text.extend_from_slice(
        b"rejected,limit,trades,1\n\
        order,1,buy,A,b1,10000,11,1\n\
        order,2,sell,B,s1,1,10,1\n",
    )?;
    for number in 1..=DEALS {
        append_numbered(alloc, b"offence,limit,trades,", number, b"\n", &mut text)?;
        if records {
            append_records(alloc, number, &mut text)?;
        }
    }
    append_numbered(alloc, b"offences,", DEALS, b"\n", &mut text)?;
    Ok(text)
}

/// Checks what this line is answered about these deals.
fn check_deals(alloc: Global, line: &str, records: bool) -> Result<(), RowFault> {
    let mut shelf = QuietShelf::new(orders_below(alloc)?, trades_above(alloc)?, 65_536);
    let out = MemorySink::new(alloc, ROOM, ROOM, Vec::new(alloc))?;
    let answered = answer_into(alloc, line, &mut shelf, out)?;
    answered.check(alloc, line, 0, 1, &text_wanted(alloc, records)?)
}

#[test]
fn all_of_2000_deals_of_a_call_offend(rt: HostRuntime) -> Result<(), Fail> {
    let line = "offences fair Z orders trades --trade-times";
    check_deals(rt.alloc(), line, false)?;
    let line = "offences fair Z orders trades --trade-times --records";
    Ok(check_deals(rt.alloc(), line, true)?)
}

#[test]
fn all_of_2000_places_offend(rt: HostRuntime) -> Result<(), Fail> {
    let line = "offences continuous Z orders trades --trade-times";
    check_deals(rt.alloc(), line, false)?;
    let line = "offences continuous Z orders trades --trade-times --records";
    Ok(check_deals(rt.alloc(), line, true)?)
}
