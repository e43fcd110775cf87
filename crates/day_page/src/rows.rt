//! The rows of the table of a day, from the lines of the day's text.
ghost use Rattle.std.specs.Prelude.{◌≡◌, ◌++◌, IfOk};
ghost use Rattle.day_page.specs.Rows as spec;

use crate::file_names::page_address;
use crate::lines::{behind_line, field_at, first_line, is_word};
use crate::links::has_page;
use crate::property_words::{is_of_volume, rejected_words};
use audit_base::faults::NoMemory;
use page_markup::markup::Markup;
use page_markup::words::{AttributeName, Tag};
use page_parts::cells::{with_gaps, with_words};
use page_parts::elements::{attribute, with_link};
use std::alloc::Global;

/// The heading of a row, whose spaces are kept.
fn row_heading_of(alloc: Global, inner: &Markup) -> Result<Markup, NoMemory>
    ensures { IfOk result (λ made. made ≡ spec.row_heading_of inner.now) }
{
    let said = [
        attribute(AttributeName::Scope, b"row"),
        attribute(AttributeName::Class, b"name"),
    ];
    Markup::new(alloc).with_element(Tag::HeaderCell, &said, inner)
}

/// The heading of the row of a symbol.
fn symbol_heading(alloc: Global, symbol: &[u8]) -> Result<Markup, NoMemory>
    ensures { IfOk result (λ made. made ≡ spec.symbol_heading symbol.now) }
{
    let inner = Markup::new(alloc).with_text(symbol)?;
    row_heading_of(alloc, &inner)
}

/// The heading of the row of a symbol, with a link to its page.
fn linked_heading(alloc: Global, symbol: &[u8]) -> Result<Markup, NoMemory>
    ensures { IfOk result (λ made. made ≡ spec.linked_heading symbol.now) }
{
    let address = page_address(alloc, symbol)?;
    let inner = with_link(alloc, Markup::new(alloc), &address, symbol)?;
    row_heading_of(alloc, &inner)
}

/// The heading of the row of a symbol that is rejected, by whether it has a page.
fn rejected_heading(alloc: Global, linked: bool, symbol: &[u8]) -> Result<Markup, NoMemory>
    ensures { IfOk result (λ made. made ≡ spec.rejected_heading linked symbol.now) }
{
    if linked {
        return linked_heading(alloc, symbol);
    }
    symbol_heading(alloc, symbol)
}

/// With a cell of a number behind it, as the report writes it.
fn with_digits(alloc: Global, row: Markup, digits: &[u8]) -> Result<Markup, NoMemory>
    ensures { IfOk result (λ more. more ≡ row ++ spec.digits_cell digits.now) }
{
    let text = Markup::new(alloc).with_text(digits)?;
    row.with_element(
        Tag::Cell,
        &[attribute(AttributeName::Class, b"number")],
        &text,
    )
}

/// With the cells of the totals behind it.
fn with_totals(
    alloc: Global,
    row: Markup,
    orders: &[u8],
    trades: &[u8],
    volume: &[u8],
) -> Result<Markup, NoMemory>
    ensures { IfOk result
        (λ more. more ≡ row ++ spec.totals_cells orders.now trades.now volume.now) }
{
    let row = with_digits(alloc, row, orders)?;
    let row = with_digits(alloc, row, trades)?;
    with_digits(alloc, row, volume)
}

/// The cells of the row of a symbol that is accepted.
fn accepted_cells(
    alloc: Global,
    symbol: &[u8],
    orders: &[u8],
    trades: &[u8],
    volume: &[u8],
) -> Result<Markup, NoMemory>
    ensures { IfOk result
        (λ made. made ≡ spec.accepted_cells symbol.now orders.now trades.now volume.now) }
{
    let row = symbol_heading(alloc, symbol)?;
    let row = with_words(alloc, row, b"accepted")?;
    let row = with_gaps(alloc, row, 2)?;
    with_totals(alloc, row, orders, trades, volume)
}

/// With the cells of the record that offends behind it, where one does.
fn with_record(
    alloc: Global,
    row: Markup,
    property: &[u8],
    log: &[u8],
    place: &[u8],
) -> Result<Markup, NoMemory>
    ensures { IfOk result
        (λ more. more ≡ row ++ spec.record_cells property.now log.now place.now) }
{
    if is_of_volume(property) {
        return Ok(row);
    }
    let row = with_words(alloc, row, log)?;
    with_digits(alloc, row, place)
}

/// The cells of the row of a symbol that is rejected, by whether it has a page.
fn rejected_cells(
    alloc: Global,
    linked: bool,
    symbol: &[u8],
    property: &[u8],
    log: &[u8],
    place: &[u8],
) -> Result<Markup, NoMemory>
    ensures { IfOk result
        (λ made. made ≡ spec.rejected_cells linked symbol.now property.now log.now place.now) }
{
    let words = rejected_words(alloc, property)?;
    let row = rejected_heading(alloc, linked, symbol)?;
    let row = with_words(alloc, row, &words)?;
    with_record(alloc, row, property, log, place)
}

/// With the row of the symbol behind it that a line of totals accepts.
fn with_accepted(alloc: Global, rows: Markup, line: &[u8]) -> Result<Markup, NoMemory>
    ensures { IfOk result (λ more. more ≡ rows ++ spec.row_of_totals line.now) }
{
    let symbol = field_at(line, 0);
    let orders = field_at(line, 2);
    let trades = field_at(line, 3);
    let cells = accepted_cells(alloc, symbol, orders, trades, field_at(line, 4))?;
    rows.with_element(Tag::Row, &[], &cells)
}

/// With the row of the symbol behind it that a line rejects, where this is asked of the day.
fn with_rejected(alloc: Global, rows: Markup, asked: &[u8], line: &[u8]) -> Result<Markup, NoMemory>
    ensures { IfOk result (λ more. more ≡ rows ++ spec.row_of_rejection asked.now line.now) }
{
    let symbol = field_at(line, 0);
    let property = field_at(line, 2);
    let log = field_at(line, 3);
    let linked = has_page(asked, symbol, property);
    let cells = rejected_cells(alloc, linked, symbol, property, log, field_at(line, 4))?;
    rows.with_element(Tag::Row, &[], &cells)
}

/// With the row behind it that a line gives, if it gives one, where this is asked of the day.
fn with_row_of_line(
    alloc: Global,
    rows: Markup,
    asked: &[u8],
    line: &[u8],
) -> Result<Markup, NoMemory>
    ensures { IfOk result (λ more. more ≡ rows ++ spec.row_of_line asked.now line.now) }
{
    let kind = field_at(line, 1);
    if is_word(kind, b"totals") {
        return with_accepted(alloc, rows, line);
    }
    if is_word(kind, b"rejected") {
        return with_rejected(alloc, rows, asked, line);
    }
    Ok(rows)
}

/// The rows that the lines of a text give, in their order, where this is asked of the day.
pub(crate) fn rows_of_text(alloc: Global, asked: &[u8], text: &[u8]) -> Result<Markup, NoMemory>
    ensures { IfOk result (λ rows. rows ≡ spec.rows_of_text asked.now text.now) }
{
    let mut rows = Markup::new(alloc);
    let mut rest = text;
    while !rest.is_empty() {
        rows = with_row_of_line(alloc, rows, asked, first_line(rest))?;
        rest = behind_line(rest);
    }
    Ok(rows)
}
