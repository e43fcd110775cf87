//! A day of forty symbols, of each of which the day says what the verdict on it alone says.
use crate::day_texts::{ORDERS, TRADES, check_text, day_shelf, log_of, text_asked};
use audit_base::names::{Name, read_name};
use audit_base::terms::{Form, Rule, Which};
use audit_report::reports::report_text;
use day_logs::answers::DayQuestion;
use day_symbols::shares::DayShare;
use further_checks::findings::FurtherChecks;
use log_source::memory_shelf::MemoryShelf;
use log_verdict::sources::Source;
use log_verdict::verdicts::verdict_on;
use record_verdict::questions::Question;
use seeded_hash::seed::HashSeed;
use std::alloc::Global;
use std::test::Fail;

/// The records of a symbol, with `@` in the place of its name, and `#` in that of a quantity from
/// 1 to 5.
#[derive(Clone, Copy)]
struct Records {
    orders: &'static [&'static str],
    trades: &'static [&'static str],
}

const BID: &str = "N,A,b1,20240102-09:00:00,@,B,#,8,\n";

const LOWER_BID: &str = "N,A,b2,20240102-09:00:00,@,B,#,7,\n";

const ASK: &str = "N,B,s1,20240102-09:00:00,@,S,#,7,\n";

const TRADE: &str = "T1,20240102-09:00:01,@,A,b1,B,s1,#,8\n";

/// What a symbol has by the number that it has modulo 8.
const RECORDS: [Records; 8] = [
    // An order and no trade: it conforms to every rule.
    Records {
        orders: &[BID],
        trades: &[],
    },
    // All that meets trades: it conforms to every rule.
    Records {
        orders: &[BID, ASK],
        trades: &[TRADE],
    },
    // An ask trades with two bids at their prices: not `uniform`.
    Records {
        orders: &[BID, LOWER_BID, "N,B,s1,20240102-09:00:00,@,S,1#,7,\n"],
        trades: &[TRADE, "T2,20240102-09:00:01,@,A,b2,B,s1,#,7\n"],
    },
    // Orders that meet do not trade: no rule but `matching` and `fair`.
    Records {
        orders: &[BID, ASK],
        trades: &[],
    },
    // The lower bid trades: `matching` alone.
    Records {
        orders: &[BID, LOWER_BID, ASK],
        trades: &["T1,20240102-09:00:01,@,A,b2,B,s1,#,7\n"],
    },
    // Two orders have one key: no rule.
    Records {
        orders: &[BID, BID, ASK],
        trades: &[TRADE],
    },
    // An order that does not rest: `continuous` alone.
    Records {
        orders: &[BID, "I,B,s1,20240102-09:00:00,@,S,#,7,\n"],
        trades: &[TRADE],
    },
    // An ask of 10 is replaced, and what is left of it has to trade 9 with a bid: `continuous`
    // alone, where 4 were traded before it was replaced, since 6 trade afterwards.
    Records {
        orders: &[
            "N,B,s1,20240102-09:00:00,@,S,10,7,\n",
            "N,A,b1,20240102-09:00:00,@,B,#,8,\n",
            "R,B,r1,20240102-09:00:00,@,S,10,7,s1\n",
            "N,A,b2,20240102-09:00:00,@,B,9,7,\n",
        ],
        trades: &[
            "T1,20240102-09:00:01,@,A,b1,B,s1,#,7\n",
            "T2,20240102-09:00:01,@,A,b2,B,r1,6,7\n",
        ],
    },
];

/// Appends a record of the symbol with this number, from 0 to 39.
fn append_record(
    alloc: Global,
    record: &str,
    number: usize,
    log: &mut Vec<u8>,
) -> Result<(), Fail> {
    let symbol = format!(in alloc; "S{number}")?;
    for byte in record.as_bytes() {
        match *byte {
            b'@' => log.extend_from_slice(symbol.as_bytes())?,
            b'#' => log.push(b"12345"[number / 8 % 5])?,
            other => log.push(other)?,
        }
    }
    Ok(())
}

/// The records of one log that a symbol has by its number.
fn records_of(number: usize, which: Which) -> &'static [&'static str] {
    match which {
        Which::Orders => RECORDS[number % 8].orders,
        Which::Trades => RECORDS[number % 8].trades,
    }
}

/// A log of forty symbols: the first record of each in it, then the second of each, and so on.
fn log_of_symbols(alloc: Global, header: &str, which: Which) -> Result<Vec<u8>, Fail> {
    let mut log = log_of(alloc, &[header])?;
    for round in 0..4usize {
        for number in 0..40usize {
            if let Some(record) = records_of(number, which).get(round) {
                append_record(alloc, record, number, &mut log)?;
            }
        }
    }
    Ok(log)
}

/// Appends the lines of the verdict on a symbol alone, with the symbol before each.
fn append_alone(
    alloc: Global,
    shelf: &mut MemoryShelf,
    question: &Question,
    lines: &mut Vec<u8>,
) -> Result<(), Fail> {
    let orders = Source::of("orders", Form::Csv, HashSeed::fixed());
    let trades = Source::of("trades", Form::Csv, HashSeed::fixed());
    let verdict = verdict_on(alloc, shelf, question, &orders, &trades)?;
    let report = report_text(alloc, &verdict)?;
    for line in report.split_inclusive(|byte| *byte == b'\n') {
        lines.extend_from_slice(question.symbol.bytes())?;
        lines.push(b',')?;
        lines.extend_from_slice(line)?;
    }
    Ok(())
}

/// The name of the symbol with this number.
fn symbol_of(alloc: Global, number: usize) -> Result<Name, Fail> {
    let text = format!(in alloc; "S{number}")?;
    match read_name(text.as_bytes()) {
        Some(name) => Ok(name),
        None => Err(Fail::new("no name")),
    }
}

/// A rule, whether the table of its quantities is asked for, and the first line of the day.
const ASKED: [(Rule, bool, &str); 8] = [
    (Rule::Matching, false, "day,40,25,15,matching\n"),
    (Rule::Fair, false, "day,40,20,20,fair\n"),
    (Rule::Uniform, false, "day,40,10,30,uniform\n"),
    (Rule::Uniform, true, "day,40,10,30,uniform\n"),
    (Rule::Maximum, false, "day,40,15,25,maximum\n"),
    (Rule::Maximum, true, "day,40,15,25,maximum\n"),
    (Rule::Continuous, false, "day,40,21,19,continuous\n"),
    (Rule::Continuous, true, "day,40,21,19,continuous\n"),
];

/// Fails where the text of the day is not this line and what is said of each symbol alone.
fn check_asked(
    alloc: Global,
    shelf: &mut MemoryShelf,
    rule: Rule,
    table: bool,
    first: &str,
) -> Result<(), Fail> {
    let mut wanted = log_of(alloc, &[first])?;
    for number in 0..40usize {
        let symbol = symbol_of(alloc, number)?;
        let question = Question {
            rule,
            symbol,
            table,
        };
        append_alone(alloc, shelf, &question, &mut wanted)?;
    }
    let question = DayQuestion {
        rule,
        table,
        checks: FurtherChecks::none(),
        share: DayShare::whole(),
    };
    let text = text_asked(alloc, shelf, &question)?;
    check_text(first, &text, &wanted)
}

#[test]
fn each_symbol_of_a_day_has_the_lines_that_it_has_alone(rt: HostRuntime) -> Result<(), Fail> {
    let alloc = rt.alloc();
    let orders = log_of_symbols(alloc, ORDERS, Which::Orders)?;
    let trades = log_of_symbols(alloc, TRADES, Which::Trades)?;
    let mut shelf = day_shelf(alloc, &orders, &trades)?;
    for &(rule, table, first) in &ASKED {
        check_asked(alloc, &mut shelf, rule, table, first)?;
    }
    Ok(())
}
