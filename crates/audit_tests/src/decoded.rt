//! Logs that are there as a whole, read into records and judged.
use crate::checks::inputs::log_of;
use crate::fix::messages::{ACCEPTED, ASK, BID, BUY, SELL};
use crate::staircase::{STAIRCASE, TWO_TRADES};
use audit_base::names::read_name;
use audit_base::terms::{Form, Rule};
use audit_report::reports::report_text;
use log_verdict::decoding::{decode_orders, decode_trades};
use record_verdict::judging::judge;
use std::process::Abort;

/// The report on the symbol Z of two logs of this form.
fn judged<R: AllocGlobal + Abort>(
    rt: &R,
    form: Form,
    rule: Rule,
    orders: &[&str],
    trades: &[&str],
) -> Vec<u8> {
    let order_log = log_of(rt.alloc(), orders).expect(rt, "memory");
    let trade_log = log_of(rt.alloc(), trades).expect(rt, "memory");
    assert!(rt; order_log.len() < 1000 && trade_log.len() < 1000);
    let symbol = read_name(b"Z").expect(rt, "a name");
    let Ok(entries) = decode_orders(rt.alloc(), form, &order_log) else {
        panic!(rt; "no orders");
    };
    let Ok(paired) = decode_trades(rt.alloc(), form, &trade_log) else {
        panic!(rt; "no trades");
    };
    let Ok(verdict) = judge(rt.alloc(), rule, &symbol, false, &entries, &paired) else {
        panic!(rt; "no memory");
    };
    report_text(rt.alloc(), &verdict).expect(rt, "memory")
}

#[test]
fn csv_logs_are_decoded_and_judged(rt: HostRuntime) {
    let report = judged(&rt, Form::Csv, Rule::Uniform, &STAIRCASE, &TWO_TRADES);
    let wanted = "accepted,uniform,Z\ntotals,6,2,2\nbound,2,2\n";
    assert_eq!(rt; report.as_slice(), wanted.as_bytes());
}

#[test]
fn fix_logs_are_decoded_and_judged(rt: HostRuntime) {
    let report = judged(&rt, Form::Fix, Rule::Matching, &[BID, ASK], &[BUY, SELL]);
    assert_eq!(rt; report.as_slice(), ACCEPTED.as_bytes());
}
