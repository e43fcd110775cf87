//! Days whose symbols have names that are nearly the same, or that look like something else.
ghost use Rattle.std.specs.Prelude.{◌<◌};

use crate::day_texts::{ORDERS, TRADES, check_text, day_shelf, log_of, share_of, share_text};
use audit_base::names::read_name;
use log_source::memory_shelf::MemoryShelf;
use seeded_hash::seed::HashSeed;
use std::alloc::Global;
use std::hash::BuildHasher;
use std::test::Fail;

/// Names of 64 bytes that differ in their last byte, and what they are without it.
const LONG: [&str; 4] = [
    "aaaaaaaaaaaaaaaaaaaaaaaaaaaaaaaaaaaaaaaaaaaaaaaaaaaaaaaaaaaaaaaA",
    "aaaaaaaaaaaaaaaaaaaaaaaaaaaaaaaaaaaaaaaaaaaaaaaaaaaaaaaaaaaaaaaB",
    "aaaaaaaaaaaaaaaaaaaaaaaaaaaaaaaaaaaaaaaaaaaaaaaaaaaaaaaaaaaaaaaa",
    "aaaaaaaaaaaaaaaaaaaaaaaaaaaaaaaaaaaaaaaaaaaaaaaaaaaaaaaaaaaaaaa",
];

/// Shorter names that differ in their last byte, or by one byte more.
const SHORT: [&str; 8] = ["A", "B", "a", "AA", "AB", "ABBA.1", "ABBA.2", "ABBA."];

/// Words of options, of headers and of the text itself.
const WORDS: [&str; 8] = [
    "-x", "--table", "day", "symbol", "accepted", "totals", "matching", "1/2",
];

/// Names with spaces, also at their ends.
const SPACES: [&str; 6] = ["a b", "a  b", "a", "a ", " a", " "];

/// Names with bytes that other texts take for signs.
const SIGNS: [&str; 8] = ["<b>", "</b>", "&lt;", "'", "\\n", "=1+1", "#", "|~"];

/// Two names with one hash under the fixed seed, and two others with another. Each was found by
/// hashing names, each made of the hash of the one before, until a hash came again.
const ONE: &str = "BHOJIFDINDKMIEDH";

const LIKE_ONE: &str = "AOCBLNFKICFAALIL";

const OTHER: &str = "LBEDCJCICPIBPNPH";

const LIKE_OTHER: &str = "PLDKLAJDHGGPOAEL";

/// The names that hash alike, each beside the other, and with the others between them.
const ALIKE_BESIDE: [&str; 4] = [ONE, LIKE_ONE, OTHER, LIKE_OTHER];

const ALIKE_APART: [&str; 4] = [ONE, OTHER, LIKE_OTHER, LIKE_ONE];

/// The symbols of days, in the order in which they appear.
const DAYS: [(&str, &[&str]); 7] = [
    ("long names", &LONG),
    ("short names", &SHORT),
    ("words", &WORDS),
    ("spaces", &SPACES),
    ("signs", &SIGNS),
    ("one hash", &ALIKE_BESIDE),
    ("one hash, with others between", &ALIKE_APART),
];

/// An order log in which each symbol has one bid more than the symbol before it, and the first has
/// one: a bid of each, then the second bid of each that has one, and so on. After the bids each
/// has an ask.
fn orders_of(alloc: Global, symbols: &[&str]) -> Result<Vec<u8>, Fail> {
    let mut log = log_of(alloc, &[ORDERS])?;
    for number in 0..symbols.len() {
        for symbol in &symbols[number..] {
            let bid = format!(in alloc; "N,A,b{number},20240102-09:00:00,{symbol},B,5,7,\n")?;
            log.extend_from_slice(bid.as_bytes())?;
        }
    }
    for symbol in symbols {
        let ask = format!(in alloc; "N,B,s0,20240102-09:00:00,{symbol},S,5,7,\n")?;
        log.extend_from_slice(ask.as_bytes())?;
    }
    Ok(log)
}

/// A trade log in which each symbol has one trade, that of the last symbol first.
fn trades_of(alloc: Global, symbols: &[&str]) -> Result<Vec<u8>, Fail> {
    let mut log = log_of(alloc, &[TRADES])?;
    for symbol in symbols.iter().rev() {
        let trade = format!(in alloc; "T1,20240102-09:00:01,{symbol},A,b0,B,s0,5,7\n")?;
        log.extend_from_slice(trade.as_bytes())?;
    }
    Ok(log)
}

/// The text of such a day, or of a share: of each `count`-th symbol, the first of them at the
/// index `from`. Every symbol conforms.
fn wanted_text(alloc: Global, symbols: &[&str], from: usize, count: usize) -> Result<Vec<u8>, Fail>
    requires { 0 < count }
{
    let mut lines = String::new(alloc);
    let mut in_share: usize = 0;
    for (index, symbol) in symbols.iter().enumerate() {
        if index % count == from {
            in_share = in_share.saturating_add(1);
            let orders = index + 2;
            let accepted = format!(in alloc; "{symbol},accepted,matching,{symbol}\n")?;
            let totals = format!(in alloc; "{symbol},totals,{orders},1,5\n")?;
            lines.push_str(&accepted)?;
            lines.push_str(&totals)?;
        }
    }
    let first = format!(in alloc; "day,{in_share},{in_share},0,matching\n")?;
    log_of(alloc, &[first.as_str(), lines.as_str()])
}

/// Fails where the share number/count of the day of these symbols has another text.
fn check_share(
    alloc: Global,
    name: &str,
    symbols: &[&str],
    shelf: &mut MemoryShelf,
    number: u32,
    count: u32,
) -> Result<(), Fail>
    requires number { 0 < number }
    requires count { 0 < count }
{
    let text = share_text(alloc, shelf, share_of(number, count)?)?;
    let wanted = wanted_text(alloc, symbols, (number - 1) as usize, count as usize)?;
    check_text(name, &text, &wanted)
}

#[test]
fn each_name_is_a_symbol_of_its_own(rt: HostRuntime) -> Result<(), Fail> {
    let alloc = rt.alloc();
    for &(name, symbols) in &DAYS {
        let orders = orders_of(alloc, symbols)?;
        let mut shelf = day_shelf(alloc, &orders, &trades_of(alloc, symbols)?)?;
        check_share(alloc, name, symbols, &mut shelf, 1, 1)?;
        check_share(alloc, name, symbols, &mut shelf, 1, 2)?;
        check_share(alloc, name, symbols, &mut shelf, 2, 2)?;
        check_share(alloc, name, symbols, &mut shelf, 3, 3)?;
    }
    Ok(())
}

/// The hash under the fixed seed of the name that a text is.
fn hash_of(text: &str) -> Option<u64> {
    match read_name(text.as_bytes()) {
        Some(name) => Some(HashSeed::fixed().hash_one(name)),
        None => None,
    }
}

#[test]
fn names_of_one_hash_are_there(rt: HostRuntime) {
    for &(first, second) in &[(ONE, LIKE_ONE), (OTHER, LIKE_OTHER)] {
        assert!(rt; first != second);
        assert!(rt; hash_of(first).is_some());
        assert_eq!(rt; hash_of(first), hash_of(second));
    }
}
