//! Sources without end, of line ends, of `8` and of 0x00.
use crate::checks::answers::{RowFault, answer_of};
use log_source::endless_shelf::EndlessShelf;
use std::alloc::Global;
use std::test::Fail;

/// Checks that this command answers over a source without end of each of these bytes that the
/// log is too long.
fn check_endless(alloc: Global, words: &str, report: &str) -> Result<(), RowFault> {
    for byte in [b'\n', b'8', 0] {
        let answered = answer_of(alloc, words, &mut EndlessShelf::new(byte))?;
        answered.check(alloc, words, byte as usize, 6, report.as_bytes())?;
    }
    Ok(())
}

/// The same of each of these commands.
fn check_all_endless(alloc: Global, commands: &[&str], report: &str) -> Result<(), RowFault> {
    for words in commands {
        check_endless(alloc, words, report)?;
    }
    Ok(())
}

const TOO_LONG_ORDERS: &str = "toolong,orders\n";

const TOO_LONG_TRADES: &str = "toolong,trades\n";

const AUDITS: [&str; 2] = [
    "audit matching Z orders trades",
    "audit matching Z orders trades --orders-form fix --trades-form fix",
];

const EXPECTATIONS: [&str; 2] = [
    "expect continuous Z orders",
    "expect maximum Z orders --orders-form fix",
];

const ORDER_CONVERSIONS: [&str; 2] = ["convert orders csv orders", "convert orders fix orders"];

const TRADE_CONVERSIONS: [&str; 2] = ["convert trades csv trades", "convert trades fix trades"];

const CERTIFICATES: [&str; 2] = [
    "certify uniform Z orders trades",
    "verify Z orders trades certificate --orders-form fix",
];

const DAYS: [&str; 2] = [
    "session Z uniform@1,continuous@3 orders trades",
    "session Z uniform@1,continuous@3 orders trades --orders-form fix --trades-form fix",
];

#[test]
fn a_source_without_end(rt: HostRuntime) -> Result<(), Fail> {
    check_all_endless(rt.alloc(), &AUDITS, TOO_LONG_ORDERS)?;
    check_all_endless(rt.alloc(), &EXPECTATIONS, TOO_LONG_ORDERS)?;
    check_all_endless(rt.alloc(), &ORDER_CONVERSIONS, TOO_LONG_ORDERS)?;
    check_all_endless(rt.alloc(), &TRADE_CONVERSIONS, TOO_LONG_TRADES)?;
    check_all_endless(rt.alloc(), &CERTIFICATES, TOO_LONG_ORDERS)?;
    Ok(check_all_endless(rt.alloc(), &DAYS, TOO_LONG_ORDERS)?)
}
