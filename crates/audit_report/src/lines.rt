//! The lines of a report, each appended by a function of its own.
ghost use Rattle.std.specs.Prelude.{◌≡◌, ◌++◌, OnOk};
ghost use Rattle.std.specs.List.{join_with_byte};
ghost use Rattle.audit_report.specs.Lines as text;
ghost use Rattle.audit_report.specs.Texts.{IsBoundInRange};

use super::line_parts::{LinePart, append, append_joined, append_line, append_rest};
use super::reasons::reason_part;
use super::tables::Line;
use super::words::{log_word, side_word};
use audit_base::faults::{BadPlace, NoMemory};
use audit_base::findings::{Finding, OrderLine, Short, Shown};
use audit_base::names::{Key, Name};
use audit_base::orders::Cut;
use audit_base::terms::{Rule, Side, Which};
use audit_base::texts::write_price;
use std::alloc::Global;

/// `accepted,RULE,SYMBOL`.
pub fn append_accepted_line(
    alloc: Global,
    rule: Rule,
    symbol: &Name,
    out: &mut Vec<u8>,
) -> Result<(), NoMemory>
    ensures { OnOk result (out.new.items ≡ out.old.items ++ text.accepted_line rule symbol.now) }
{
    append_line(
        alloc,
        b"accepted",
        &[LinePart::Word(rule.word()), LinePart::Word(symbol.bytes())],
        out,
    )
}

/// `totals,ORDERS,TRADES,VOLUME`.
pub fn append_totals_line(
    alloc: Global,
    orders: usize,
    trades: u32,
    volume: u128,
    out: &mut Vec<u8>,
) -> Result<(), NoMemory>
    ensures { let line = text.totals_line orders trades volume in
        OnOk result (out.new.items ≡ out.old.items ++ line) }
{
    let parts = [
        LinePart::Number(orders as u128),
        LinePart::Number(u128::from(trades)),
        LinePart::Number(volume),
    ];
    append_line(alloc, b"totals", &parts, out)
}

/// `bound,PRICE,VOLUME`. The price may be 10^18 units, one more than any `Price`.
pub fn append_bound_line(alloc: Global, cut: &Cut, out: &mut Vec<u8>) -> Result<(), NoMemory>
    requires { IsBoundInRange cut.now }
    ensures { OnOk result (out.new.items ≡ out.old.items ++ text.bound_line cut.now) }
{
    append(b"bound,", out)?;
    write_price(alloc, cut.price, out)?;
    append_rest(alloc, &[LinePart::Number(cut.volume)], out)?;
    append(b"\n", out)
}

/// `order,PLACE,SIDE,FIRM,ID,QUANTITY,PRICE,TRADED`.
pub fn append_order_line(alloc: Global, line: &OrderLine, out: &mut Vec<u8>) -> Result<(), NoMemory>
    ensures { OnOk result (out.new.items ≡ out.old.items ++ text.order_line line.now) }
{
    append_order(alloc, line, out)?;
    append(b"\n", out)
}

/// The order line with a last part, its due.
pub fn append_due_line(
    alloc: Global,
    line: &OrderLine,
    due: u128,
    out: &mut Vec<u8>,
) -> Result<(), NoMemory>
    ensures { OnOk result (out.new.items ≡ out.old.items ++ text.due_line line.now due) }
{
    append_order(alloc, line, out)?;
    append_rest(alloc, &[LinePart::Number(due)], out)?;
    append(b"\n", out)
}

/// The parts of an order line.
fn append_order(alloc: Global, line: &OrderLine, out: &mut Vec<u8>) -> Result<(), NoMemory>
    ensures { OnOk result
        (out.new.items ≡ out.old.items ++ join_with_byte 44 (text.order_parts line.now)) }
{
    let parts = [
        LinePart::Number(u128::from(line.place)),
        LinePart::Word(side_word(line.side)),
        LinePart::Word(line.key.firm.bytes()),
        LinePart::Word(line.key.id.bytes()),
        LinePart::Number(u128::from(line.quantity.value())),
        LinePart::Price(line.limit),
        LinePart::Number(line.traded),
    ];
    append_joined(alloc, b"order", &parts, out)
}

/// `pair,BUYPLACE,SELLPLACE,QUANTITY`.
pub fn append_pair_line(
    alloc: Global,
    bid: u32,
    ask: u32,
    quantity: u128,
    out: &mut Vec<u8>,
) -> Result<(), NoMemory>
    ensures { OnOk result (out.new.items ≡ out.old.items ++ text.pair_line bid ask quantity) }
{
    let parts = [
        LinePart::Number(u128::from(bid)),
        LinePart::Number(u128::from(ask)),
        LinePart::Number(quantity),
    ];
    append_line(alloc, b"pair", &parts, out)
}

/// A line of a table.
pub fn append_table_line(alloc: Global, row: &Line, out: &mut Vec<u8>) -> Result<(), NoMemory>
    ensures { OnOk result (out.new.items ≡ out.old.items ++ text.table_line row.now) }
{
    match row {
        Line::Order(line) => append_order_line(alloc, line, out),
        Line::Pair { bid, ask, quantity } => append_pair_line(alloc, *bid, *ask, *quantity, out),
    }
}

/// `rejected,PROPERTY,LOG,PLACE`.
pub fn append_rejected_line(
    alloc: Global,
    finding: &Finding,
    out: &mut Vec<u8>,
) -> Result<(), NoMemory>
    ensures { OnOk result (out.new.items ≡ out.old.items ++ text.rejected_line finding.now) }
{
    let parts = [
        LinePart::Word(finding.property.word()),
        LinePart::Word(log_word(finding.log)),
        LinePart::Number(u128::from(finding.place)),
    ];
    append_line(alloc, b"rejected", &parts, out)
}

/// `volume,REACHED,GREATEST`.
pub fn append_volume_line(alloc: Global, short: &Short, out: &mut Vec<u8>) -> Result<(), NoMemory>
    ensures { OnOk result (out.new.items ≡ out.old.items ++ text.volume_line short.now) }
{
    append_line(
        alloc,
        b"volume",
        &[
            LinePart::Number(short.reached),
            LinePart::Number(short.greatest),
        ],
        out,
    )
}

/// The line of what shows a finding.
pub fn append_shown_line(alloc: Global, shown: &Shown, out: &mut Vec<u8>) -> Result<(), NoMemory>
    ensures { OnOk result (out.new.items ≡ out.old.items ++ text.shown_line shown.now) }
{
    match shown {
        Shown::Place { log, place } => append_see_line(alloc, *log, *place, out),
        Shown::Unknown { side, key } => append_unknown_line(alloc, *side, key, out),
        Shown::Order(line) => append_order_line(alloc, line, out),
        Shown::Due(line, due) => append_due_line(alloc, line, *due, out),
    }
}

/// `see,LOG,PLACE`.
fn append_see_line(alloc: Global, log: Which, place: u32, out: &mut Vec<u8>) -> Result<(), NoMemory>
    ensures { OnOk result (out.new.items ≡ out.old.items ++ text.see_line log place) }
{
    append_line(
        alloc,
        b"see",
        &[
            LinePart::Word(log_word(log)),
            LinePart::Number(u128::from(place)),
        ],
        out,
    )
}

/// `unknown,SIDE,FIRM,ID`.
fn append_unknown_line(
    alloc: Global,
    side: Side,
    key: &Key,
    out: &mut Vec<u8>,
) -> Result<(), NoMemory>
    ensures { OnOk result (out.new.items ≡ out.old.items ++ text.unknown_line side key.now) }
{
    let parts = [
        LinePart::Word(side_word(side)),
        LinePart::Word(key.firm.bytes()),
        LinePart::Word(key.id.bytes()),
    ];
    append_line(alloc, b"unknown", &parts, out)
}

/// `malformed,LOG,PLACE,OFFSET,REASON`.
pub fn append_malformed_line(
    alloc: Global,
    log: Which,
    bad: &BadPlace,
    out: &mut Vec<u8>,
) -> Result<(), NoMemory>
    ensures { OnOk result (out.new.items ≡ out.old.items ++ text.malformed_line log bad.now) }
{
    let parts = [
        LinePart::Word(log_word(log)),
        LinePart::Number(u128::from(bad.place)),
        LinePart::Number(u128::from(bad.offset)),
        reason_part(log, bad.reason),
    ];
    append_line(alloc, b"malformed", &parts, out)
}
