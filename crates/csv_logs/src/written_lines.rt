//! The lines of written logs: the header, and the line of a record.
ghost use Rattle.std.specs.Prelude.{◌≡◌, ℕ, List, IfOk, IsTrue, OnOk, Some, length, map};
ghost use Rattle.std.specs.List.{list_all};
ghost use Rattle.audit_base.specs.Names.{is_name_byte};
ghost use Rattle.audit_base.specs.Numbers.{price_form, price_text};
ghost use Rattle.csv_logs.specs.Written.{order_row, row_side_text, kind_text, limit_text};
ghost use Rattle.csv_logs.specs.WrittenLines.{IsAtLine, IsLineOf, IsOrderRow, WritesRow, have_name_bytes, csv_cancel_order, csv_new_order, csv_replace_order};

use crate::entries::CsvRecord;
use crate::orders::{LineHead, LineTerms};
use audit_base::columns::columns;
use audit_base::faults::NoMemory;
use audit_base::field_texts::{price_text, quantity_text, stamp_text};
use audit_base::names::Name;
use audit_base::numbers::{Price, Quantity};
use audit_base::records::{LogRecord, OrderRecord, TradeRecord};
use audit_base::terms::{Life, Side, Which};
use csv::Writer;
use std::alloc::Global;
use std::io::Write;

/// Writes one line of unquoted fields.
fn write_row<W: Write + Drop>(writer: &mut Writer<W>, fields: &[&[u8]]) -> Result<(), NoMemory>
    requires at_line { IsAtLine writer.old }
    requires nine { length fields.now ≡ 9 }
    requires unquoted { IsTrue (have_name_bytes (map (λ field. field.now) fields.now)) }
    ensures at_line { OnOk result (IsAtLine writer.new) }
    ensures written { let row = map (λ field. field.now) fields.now in
        OnOk result (WritesRow W.contents writer.old writer.new row) }
{
    match writer.write_fields(fields) {
        Ok(()) => Ok(()),
        Err(_) => Err(NoMemory),
    }
}

/// `B` for a bid, `S` for an ask.
fn side_bytes(side: Side) -> &'static [u8]
    ensures { result.now ≡ row_side_text side }
{
    match side {
        Side::Buy => b"B",
        Side::Sell => b"S",
    }
}

/// The letter of column 1 of a new order, by its life.
fn kind_bytes(life: Life) -> &'static [u8]
    ensures { result.now ≡ kind_text life }
{
    match life {
        Life::Rests => b"N",
        Life::Immediate => b"I",
        Life::Market => b"M",
    }
}

/// The price column, which a market order leaves empty.
fn limit_bytes(alloc: Global, life: Life, price: Price) -> Result<Vec<u8>, NoMemory>
    ensures text { IfOk result (λ text. text.items ≡ limit_text life price) }
    ensures unquoted { IsTrue (list_all is_name_byte (limit_text life price)) }
    ensures again { price_form (price_text price) ≡ Some price }
{
    let text = price_text(alloc, price)?;
    match life {
        Life::Rests | Life::Immediate => Ok(text),
        Life::Market => Ok(Vec::new(alloc)),
    }
}

/// The line of a new order, of any life.
fn write_new<W: Write + Drop>(
    alloc: Global,
    head: LineHead,
    terms: LineTerms,
    life: Life,
    writer: &mut Writer<W>,
) -> Result<(), NoMemory>
    requires { IsAtLine writer.old }
    ensures at_line { OnOk result (IsAtLine writer.new) }
    ensures written { let row = order_row (csv_new_order head terms life) in
        OnOk result (WritesRow W.contents writer.old writer.new row) }
    ensures line { OnOk result (IsOrderRow (csv_new_order head terms life)) }
{
    let time = stamp_text(alloc, head.time)?;
    let quantity = quantity_text(alloc, terms.quantity)?;
    let price = limit_bytes(alloc, life, terms.price)?;
    let row: [&[u8]; 9] = [
        kind_bytes(life),
        head.key.firm.bytes(),
        head.key.id.bytes(),
        &time,
        head.symbol.bytes(),
        side_bytes(terms.side),
        &quantity,
        &price,
        &[],
    ];
    write_row(writer, &row)
}

/// The line of a cancel, whose columns 6 to 8 are empty.
fn write_cancel<W: Write + Drop>(
    alloc: Global,
    head: LineHead,
    target: Name,
    writer: &mut Writer<W>,
) -> Result<(), NoMemory>
    requires { IsAtLine writer.old }
    ensures at_line { OnOk result (IsAtLine writer.new) }
    ensures written { let row = order_row (csv_cancel_order head target) in
        OnOk result (WritesRow W.contents writer.old writer.new row) }
    ensures line { OnOk result (IsOrderRow (csv_cancel_order head target)) }
{
    let time = stamp_text(alloc, head.time)?;
    let row: [&[u8]; 9] = [
        b"X",
        head.key.firm.bytes(),
        head.key.id.bytes(),
        &time,
        head.symbol.bytes(),
        &[],
        &[],
        &[],
        target.bytes(),
    ];
    write_row(writer, &row)
}

/// The line of a replacement.
fn write_replace<W: Write + Drop>(
    alloc: Global,
    head: LineHead,
    terms: LineTerms,
    target: Name,
    writer: &mut Writer<W>,
) -> Result<(), NoMemory>
    requires { IsAtLine writer.old }
    ensures at_line { OnOk result (IsAtLine writer.new) }
    ensures written { let row = order_row (csv_replace_order head terms target) in
        OnOk result (WritesRow W.contents writer.old writer.new row) }
    ensures line { OnOk result (IsOrderRow (csv_replace_order head terms target)) }
{
    let time = stamp_text(alloc, head.time)?;
    let quantity = quantity_text(alloc, terms.quantity)?;
    let price = price_text(alloc, terms.price)?;
    let row: [&[u8]; 9] = [
        b"R",
        head.key.firm.bytes(),
        head.key.id.bytes(),
        &time,
        head.symbol.bytes(),
        side_bytes(terms.side),
        &quantity,
        &price,
        target.bytes(),
    ];
    write_row(writer, &row)
}

/// A record that can be written as a line.
pub trait LogLine: CsvRecord {
    // The nine fields of its line.
    ghost fields: { Self → List (List ℕ) };

    /// Writes the header.
    fn write_names<W: Write + Drop>(writer: &mut Writer<W>) -> Result<(), NoMemory>
        requires { IsAtLine writer.old }
        ensures at_line { OnOk result (IsAtLine writer.new) }
        ensures written { OnOk result (WritesRow W.contents writer.old writer.new Self.names) }
        ensures nine { length Self.names ≡ 9 }
        ensures unquoted { IsTrue (have_name_bytes Self.names) };

    /// Writes the line of the record.
    fn write<W: Write + Drop>(&self, alloc: Global, writer: &mut Writer<W>) -> Result<(), NoMemory>
        requires { IsAtLine writer.old }
        ensures at_line { OnOk result (IsAtLine writer.new) }
        ensures written { let row = fields self.now in
            OnOk result (WritesRow W.contents writer.old writer.new row) }
        ensures line { OnOk result (IsLineOf Self.meaning Self.sound self.now (fields self.now)) };
}

impl LogLine for TradeRecord {
    ghost use Rattle.csv_logs.specs.Written.{trade_row};

    ghost fields = { trade_row };

    fn write_names<W: Write + Drop>(writer: &mut Writer<W>) -> Result<(), NoMemory> {
        write_row(writer, &columns(Which::Trades))
    }

    fn write<W: Write + Drop>(
        &self,
        alloc: Global,
        writer: &mut Writer<W>,
    ) -> Result<(), NoMemory> {
        let time = stamp_text(alloc, self.time)?;
        let quantity = quantity_text(alloc, self.quantity)?;
        let price = price_text(alloc, self.price)?;
        let row: [&[u8]; 9] = [
            self.trade.bytes(),
            &time,
            self.symbol.bytes(),
            self.buy.firm.bytes(),
            self.buy.id.bytes(),
            self.sell.firm.bytes(),
            self.sell.id.bytes(),
            &quantity,
            &price,
        ];
        write_row(writer, &row)
    }
}

impl LogLine for OrderRecord {
    ghost use Rattle.csv_logs.specs.Written.{order_row};

    ghost fields = { order_row };

    fn write_names<W: Write + Drop>(writer: &mut Writer<W>) -> Result<(), NoMemory> {
        write_row(writer, &columns(Which::Orders))
    }

    fn write<W: Write + Drop>(
        &self,
        alloc: Global,
        writer: &mut Writer<W>,
    ) -> Result<(), NoMemory> {
        let head = LineHead {
            key: *self.key(),
            time: self.time(),
            symbol: *self.symbol(),
        };
        match *self {
            OrderRecord::New {
                side,
                quantity,
                price,
                life,
                ..
            } => {
                let terms = LineTerms::of(side, quantity, price);
                write_new(alloc, head, terms, life, writer)
            }
            OrderRecord::Cancel { target, .. } => write_cancel(alloc, head, target, writer),
            OrderRecord::Replace {
                target,
                side,
                quantity,
                price,
                ..
            } => {
                let terms = LineTerms::of(side, quantity, price);
                write_replace(alloc, head, terms, target, writer)
            }
        }
    }
}
