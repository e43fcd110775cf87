//! The lines of records that are quoted: `record,LOG,PLACE,` and the record in canonical CSV. After
//! `NoMemory` nothing is known of `out`.
ghost use Rattle.std.specs.Prelude.{◌≡◌, ◌++◌, ◌∷◌, OnOk, map};
ghost use Rattle.audit_base.specs.Stamps.{stamp_text};
ghost use Rattle.audit_base.specs.declared.terms.Which.TheVariants.{Orders, Trades};
ghost use Rattle.audit_report.specs.LineParts.{part_text};
ghost use Rattle.csv_logs.specs.Written as csv;
ghost use Rattle.symbol_offences.specs.Quotes.{record_line};

use audit_base::faults::NoMemory;
use audit_base::numbers::Price;
use audit_base::records::{OrderRecord, TradeRecord};
use audit_base::stamps::Stamp;
use audit_base::terms::{Life, Side, Which};
use audit_base::texts::write_stamp;
use audit_report::line_parts::{LinePart, append, append_joined, append_rest};
use audit_report::words::log_word;
use std::alloc::Global;

/// The kind of a new order, by its life.
fn kind_word(life: Life) -> &'static [u8]
    ensures { result.now ≡ csv.kind_text life }
{
    match life {
        Life::Rests => b"N",
        Life::Immediate => b"I",
        Life::Market => b"M",
    }
}

/// `B` for a bid, `S` for an ask.
fn side_letter(side: Side) -> &'static [u8]
    ensures { result.now ≡ csv.row_side_text side }
{
    match side {
        Side::Buy => b"B",
        Side::Sell => b"S",
    }
}

/// The price column, which a market order leaves empty.
fn limit_part(life: Life, price: Price) -> LinePart<'static>
    ensures { part_text result ≡ csv.limit_text life price }
{
    match life {
        Life::Rests | Life::Immediate => LinePart::Price(price),
        Life::Market => LinePart::Word(b""),
    }
}

/// Where a record is: its log, and its place in it.
#[derive(Clone, Copy)]
struct RecordPlace {
    log: Which,
    place: u32,
}

/// The line of a record: its fields before its time, the time, and its fields behind it.
#[tactic(auto, using(crate::proofs::TextLemmas::line_in_parts))]
fn append_record(
    alloc: Global,
    at: RecordPlace,
    front: &[LinePart<'_>],
    time: Stamp,
    back: &[LinePart<'_>],
    out: &mut Vec<u8>,
) -> Result<(), NoMemory>
    ensures { let behind = stamp_text time ∷ map part_text back.now in
        let line = record_line at.log at.place (map part_text front.now ++ behind) in
        OnOk result (out.new.items ≡ out.old.items ++ line) }
{
    let head = [
        LinePart::Word(log_word(at.log)),
        LinePart::Number(u128::from(at.place)),
    ];
    append_joined(alloc, b"record", &head, out)?;
    append_rest(alloc, front, out)?;
    append(b",", out)?;
    write_stamp(alloc, time, out)?;
    append_rest(alloc, back, out)?;
    append(b"\n", out)
}

/// The line of an order record at its place.
pub(crate) fn append_order_record(
    alloc: Global,
    place: u32,
    entry: &OrderRecord,
    out: &mut Vec<u8>,
) -> Result<(), NoMemory>
    ensures { let line = record_line Orders place (csv.order_row entry.now) in
        OnOk result (out.new.items ≡ out.old.items ++ line) }
{
    let at = RecordPlace {
        log: Which::Orders,
        place,
    };
    match entry {
        OrderRecord::New {
            key,
            time,
            symbol,
            side,
            quantity,
            price,
            life,
        } => {
            let front = [
                LinePart::Word(kind_word(*life)),
                LinePart::Word(key.firm.bytes()),
                LinePart::Word(key.id.bytes()),
            ];
            let back = [
                LinePart::Word(symbol.bytes()),
                LinePart::Word(side_letter(*side)),
                LinePart::Number(u128::from(quantity.value())),
                limit_part(*life, *price),
                LinePart::Word(b""),
            ];
            append_record(alloc, at, &front, *time, &back, out)
        }
        OrderRecord::Cancel {
            key,
            time,
            symbol,
            target,
        } => {
            let front = [
                LinePart::Word(b"X"),
                LinePart::Word(key.firm.bytes()),
                LinePart::Word(key.id.bytes()),
            ];
            let back = [
                LinePart::Word(symbol.bytes()),
                LinePart::Word(b""),
                LinePart::Word(b""),
                LinePart::Word(b""),
                LinePart::Word(target.bytes()),
            ];
            append_record(alloc, at, &front, *time, &back, out)
        }
        OrderRecord::Replace {
            key,
            time,
            symbol,
            target,
            side,
            quantity,
            price,
        } => {
            let front = [
                LinePart::Word(b"R"),
                LinePart::Word(key.firm.bytes()),
                LinePart::Word(key.id.bytes()),
            ];
            let back = [
                LinePart::Word(symbol.bytes()),
                LinePart::Word(side_letter(*side)),
                LinePart::Number(u128::from(quantity.value())),
                LinePart::Price(*price),
                LinePart::Word(target.bytes()),
            ];
            append_record(alloc, at, &front, *time, &back, out)
        }
    }
}

/// The line of a trade at its place.
pub(crate) fn append_trade_record(
    alloc: Global,
    place: u32,
    trade: &TradeRecord,
    out: &mut Vec<u8>,
) -> Result<(), NoMemory>
    ensures { let line = record_line Trades place (csv.trade_row trade.now) in
        OnOk result (out.new.items ≡ out.old.items ++ line) }
{
    let front = [LinePart::Word(trade.trade.bytes())];
    let back = [
        LinePart::Word(trade.symbol.bytes()),
        LinePart::Word(trade.buy.firm.bytes()),
        LinePart::Word(trade.buy.id.bytes()),
        LinePart::Word(trade.sell.firm.bytes()),
        LinePart::Word(trade.sell.id.bytes()),
        LinePart::Number(u128::from(trade.quantity.value())),
        LinePart::Price(trade.price),
    ];
    let at = RecordPlace {
        log: Which::Trades,
        place,
    };
    append_record(alloc, at, &front, trade.time, &back, out)
}
