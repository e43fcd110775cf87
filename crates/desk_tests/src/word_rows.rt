//! Words that no example says: those that the program hands to another call, one empty word, logs
//! that are too long to be compared, and what one line of many options asks for.
use crate::checks::inputs::words_of;
use audit_base::faults::NoMemory;
use audit_base::terms::{Form, Rule};
use command_words::requests::WordsFault;
use day_symbols::shares::DayShare;
use desk_words::requests::{DeskRequest, EarlyRequest, NamedLogs, WholeRequest, read_desk_words};
use std::alloc::Global;
use std::test::Fail;

/// What these words ask `run_desk` for.
fn asked_by(alloc: Global, line: &str) -> Result<Result<DeskRequest, WordsFault>, NoMemory> {
    let words = words_of(alloc, line)?;
    Ok(read_desk_words(alloc, &words))
}

const LONG_LOGS: [&str; 3] = [
    "orders 1 1 --form csv",
    "orders 7 1000 --form fix",
    "orders 2147483646 1000000",
];

#[test]
fn words_of_another_call_and_of_generated_logs(rt: HostRuntime) -> Result<(), Fail> {
    let alloc = rt.alloc();
    let page = asked_by(alloc, "page uniform Z o t")?;
    assert!(rt; matches!(&page, Err(WordsFault::Usage)));
    let mut empty = Vec::new(alloc);
    empty.push(String::new(alloc))?;
    let asked = read_desk_words(alloc, &empty);
    assert!(rt; matches!(&asked, Err(WordsFault::Usage)));
    for line in &LONG_LOGS {
        let asked = asked_by(alloc, line)?;
        let is_early = matches!(&asked, Ok(DeskRequest::Early(EarlyRequest::Orders { .. })));
        assert!(rt; is_early, "{line}");
    }
    Ok(())
}

/// Whether these are the logs `o`, which is CSV, and `t`, which is FIX.
fn are_logs_of_two_forms(logs: &NamedLogs) -> bool {
    logs.orders.as_str() == "o"
        && logs.trades.as_str() == "t"
        && logs.orders_form == Form::Csv
        && logs.trades_form == Form::Fix
}

/// Whether a page of a second share of three is asked for, with the times of trades.
fn is_page_of_a_share(asked: &Result<DeskRequest, WordsFault>) -> bool {
    match asked {
        Ok(
            DeskRequest::Whole(
                WholeRequest::Audit {
                    rule,
                    logs,
                    table,
                    share,
                    checks,
                    page,
                },
            ),
        ) => {
            *rule == Rule::Continuous
                && are_logs_of_two_forms(logs)
                && *share == DayShare::of(2, 3)
                && checks.trade_times
                && *page
                && !*table
        }
        _ => false,
    }
}

#[test]
fn a_line_of_many_options(rt: HostRuntime) -> Result<(), Fail> {
    let line = "audit continuous o t --page --trade-times --trades-form fix --share 2/3";
    assert!(rt; is_page_of_a_share(&asked_by(rt.alloc(), line)?));
    Ok(())
}
