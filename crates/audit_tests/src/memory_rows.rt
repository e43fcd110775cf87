//! Runs over logs in memory, into a sink in memory, by the call that is for these.
use crate::checks::answers::Answer;
use crate::checks::inputs::{ORDERS, TRADES, log_of, words_of};
use audit_run::in_memory::run_in_memory;
use log_source::memory_sink::MemorySink;
use log_source::quiet_shelf::QuietShelf;
use std::test::Fail;

/// A bid and an ask that meet.
const TWO_ORDERS: &str = "N,A,b1,20240102-09:00:00,Z,B,100,10,
N,B,s1,20240102-09:00:00,Z,S,100,9,
";

/// Their trade.
const ONE_TRADE: &str = "T1,20240102-09:00:01,Z,A,b1,B,s1,100,9.5
";

/// Words, and the status and the text that they are answered by.
const RUNS: [(&str, u8, &str); 3] = [
    (
        "audit matching Z orders trades",
        0,
        "accepted,matching,Z\ntotals,2,1,100\n",
    ),
    (
        "convert orders csv log",
        0,
        "kind,firm,id,time,symbol,side,quantity,price,target
N,A,b1,20240102-09:00:00,Z,B,100,10,
N,B,s1,20240102-09:00:00,Z,S,100,9,
",
    ),
    (
        "audit matching Z orders fix",
        0,
        "accepted,matching,Z\ntotals,2,1,100\n",
    ),
];

#[test]
fn runs_over_logs_in_memory(rt: HostRuntime) -> Result<(), Fail> {
    for &(line, status, text) in &RUNS {
        let orders = log_of(rt.alloc(), &[ORDERS, TWO_ORDERS])?;
        let trades = log_of(rt.alloc(), &[TRADES, ONE_TRADE])?;
        let mut shelf = QuietShelf::new(orders, trades, 7);
        let mut out = MemorySink::new(rt.alloc(), 4096, 4096, Vec::new(rt.alloc()))?;
        let words = words_of(rt.alloc(), line)?;
        let answered = run_in_memory(rt.alloc(), &words, &mut shelf, &mut out);
        let answer = Answer {
            status: answered,
            out,
        };
        answer.check(rt.alloc(), line, 0, status, text.as_bytes())?;
    }
    Ok(())
}
