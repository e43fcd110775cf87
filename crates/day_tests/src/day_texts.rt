//! The text of a day of two logs in memory, and how it differs from what is wanted.
use crate::two_logs::shelf_of;
use audit_base::terms::{Form, Rule};
use day_logs::answers::{DayQuestion, verdicts_on};
use day_logs::texts::text_of_day;
use day_symbols::shares::DayShare;
use further_checks::findings::FurtherChecks;
use log_source::memory_shelf::MemoryShelf;
use log_verdict::sources::Source;
use seeded_hash::seed::HashSeed;
use std::alloc::Global;
use std::test::Fail;

/// The first line of a CSV order log.
pub(crate) const ORDERS: &str = "kind,firm,id,time,symbol,side,quantity,price,target\n";

/// The first line of a CSV trade log.
pub(crate) const TRADES: &str =
    "trade,time,symbol,buy_firm,buy_id,sell_firm,sell_id,quantity,price\n";

/// The log of these texts, one after another.
pub(crate) fn log_of(alloc: Global, texts: &[&str]) -> Result<Vec<u8>, Fail> {
    let mut log = Vec::new(alloc);
    for text in texts {
        log.extend_from_slice(text.as_bytes())?;
    }
    Ok(log)
}

/// A shelf with these logs of a day.
pub(crate) fn day_shelf(alloc: Global, orders: &[u8], trades: &[u8]) -> Result<MemoryShelf, Fail> {
    shelf_of(alloc, orders, trades, 65_536, 0)
}

/// The share number/count of a day.
pub(crate) fn share_of(number: u32, count: u32) -> Result<DayShare, Fail> {
    match DayShare::of(number, count) {
        Some(share) => Ok(share),
        None => Err(Fail::new("no share")),
    }
}

/// The text of the verdicts that are asked of a day of two CSV logs.
pub(crate) fn text_asked(
    alloc: Global,
    shelf: &mut MemoryShelf,
    question: &DayQuestion,
) -> Result<Vec<u8>, Fail> {
    let orders = Source::of("orders", Form::Csv, HashSeed::fixed());
    let trades = Source::of("trades", Form::Csv, HashSeed::fixed());
    let answer = verdicts_on(alloc, shelf, question, &orders, &trades)?;
    Ok(text_of_day(alloc, &answer, question.rule.word())?)
}

/// The text of a share of a day under `matching`.
pub(crate) fn share_text(
    alloc: Global,
    shelf: &mut MemoryShelf,
    share: DayShare,
) -> Result<Vec<u8>, Fail> {
    let question = DayQuestion {
        rule: Rule::Matching,
        table: false,
        checks: FurtherChecks::none(),
        share,
    };
    text_asked(alloc, shelf, &question)
}

/// Fails where the text of a row is not the one that is wanted.
pub(crate) fn check_text(row: &str, text: &[u8], want: &[u8]) -> Result<(), Fail> {
    if text == want {
        return Ok(());
    }
    let shown = std::str::from_utf8(text).unwrap_or("bytes that are no text");
    Err(Fail::new(format_args!("{row}: {shown}")))
}
