//! Cells of tables, and the rows of their headings.
ghost use Rattle.std.specs.Prelude.{◌≡◌, ◌++◌, IfOk};
ghost use Rattle.page_parts.specs.TableElements as spec;

use crate::elements::attribute;
use audit_base::faults::NoMemory;
use audit_base::numbers::Price;
use audit_base::texts::write_price;
use itoa::Buffer;
use page_markup::markup::Markup;
use page_markup::words::{AttributeName, Tag};
use std::alloc::Global;

/// With a cell of words behind it.
pub fn with_words(alloc: Global, row: Markup, words: &[u8]) -> Result<Markup, NoMemory>
    ensures { IfOk result (λ made. made ≡ row ++ spec.words_cell words.now) }
{
    let text = Markup::new(alloc).with_text(words)?;
    row.with_element(Tag::Cell, &[], &text)
}

/// With a cell of a name behind it, whose spaces are kept.
pub fn with_name(alloc: Global, row: Markup, name: &[u8]) -> Result<Markup, NoMemory>
    ensures { IfOk result (λ made. made ≡ row ++ spec.name_cell name.now) }
{
    let text = Markup::new(alloc).with_text(name)?;
    row.with_element(
        Tag::Cell,
        &[attribute(AttributeName::Class, b"name")],
        &text,
    )
}

/// With a cell of a number behind it.
pub fn with_number(alloc: Global, row: Markup, number: u128) -> Result<Markup, NoMemory>
    ensures { IfOk result (λ made. made ≡ row ++ spec.number_cell number) }
{
    let mut buffer = Buffer::new();
    let text = Markup::new(alloc).with_text(buffer.format(number).as_bytes())?;
    row.with_element(
        Tag::Cell,
        &[attribute(AttributeName::Class, b"number")],
        &text,
    )
}

/// With a cell of a price behind it.
pub fn with_price(alloc: Global, row: Markup, price: Price) -> Result<Markup, NoMemory>
    ensures { IfOk result (λ made. made ≡ row ++ spec.price_cell price) }
{
    let mut words = Vec::new(alloc);
    write_price(alloc, price.units(), &mut words)?;
    let text = Markup::new(alloc).with_text(&words)?;
    row.with_element(
        Tag::Cell,
        &[attribute(AttributeName::Class, b"number")],
        &text,
    )
}

/// With so many empty cells behind it.
pub fn with_gaps(alloc: Global, row: Markup, count: usize) -> Result<Markup, NoMemory>
    ensures { IfOk result (λ made. made ≡ row ++ spec.gaps count) }
{
    let mut row = row;
    for cell in 0..count {
        row = with_words(alloc, row, b"")?;
    }
    Ok(row)
}

/// With the heading of a row behind it.
pub fn with_row_heading(alloc: Global, row: Markup, words: &[u8]) -> Result<Markup, NoMemory>
    ensures { IfOk result (λ made. made ≡ row ++ spec.row_heading words.now) }
{
    let text = Markup::new(alloc).with_text(words)?;
    row.with_element(
        Tag::HeaderCell,
        &[attribute(AttributeName::Scope, b"row")],
        &text,
    )
}

/// A column of a table.
#[derive(Clone, Copy, Debug, PartialEq, Eq)]
pub enum TableColumn {
    /// What the record is to the finding.
    Role,
    /// Its mark in the picture.
    Mark,
    /// The log of the record.
    Log,
    /// Its place in the log.
    Record,
    Side,
    Firm,
    Id,
    Quantity,
    Limit,
    Traded,
    /// What is left of the quantity.
    Left,
    /// What it trades in every list of trades that conforms.
    Due,
    Symbol,
    /// What is said of the symbol.
    Answer,
    /// How many orders it has.
    Orders,
    /// How many trades it has.
    Trades,
    Volume,
}

impl TableColumn {
    /// The heading of the column.
    fn words(self) -> &'static [u8]
        ensures { result.now ≡ spec.column_words self }
    {
        match self {
            TableColumn::Role => b"Role",
            TableColumn::Mark => b"Mark",
            TableColumn::Log => b"Log",
            TableColumn::Record => b"Record",
            TableColumn::Side => b"Side",
            TableColumn::Firm => b"Firm",
            TableColumn::Id => b"Id",
            TableColumn::Quantity => b"Quantity",
            TableColumn::Limit => b"Limit",
            TableColumn::Traded => b"Traded",
            TableColumn::Left => b"Left",
            TableColumn::Due => b"Due",
            TableColumn::Symbol => b"Symbol",
            TableColumn::Answer => b"Answer",
            TableColumn::Orders => b"Orders",
            TableColumn::Trades => b"Trades",
            TableColumn::Volume => b"Volume",
        }
    }

    /// The class of its heading: numbers stand at the right.
    fn class(self) -> &'static [u8]
        ensures { result.now ≡ spec.column_class self }
    {
        match self {
            TableColumn::Record
            | TableColumn::Quantity
            | TableColumn::Limit
            | TableColumn::Traded
            | TableColumn::Left
            | TableColumn::Due
            | TableColumn::Orders
            | TableColumn::Trades
            | TableColumn::Volume => b"number",
            _ => b"text",
        }
    }
}

/// With the heading of a column behind it.
fn with_column(alloc: Global, row: Markup, column: TableColumn) -> Result<Markup, NoMemory>
    ensures { IfOk result (λ made. made ≡ row ++ spec.column_heading column) }
{
    let text = Markup::new(alloc).with_text(column.words())?;
    let said = [
        attribute(AttributeName::Scope, b"col"),
        attribute(AttributeName::Class, column.class()),
    ];
    row.with_element(Tag::HeaderCell, &said, &text)
}

/// The head of a table with these columns.
pub fn head_of(alloc: Global, columns: &[TableColumn]) -> Result<Markup, NoMemory>
    ensures { IfOk result (λ made. made ≡ spec.head_of_table columns.now) }
{
    let mut row = Markup::new(alloc);
    for column in columns {
        row = with_column(alloc, row, *column)?;
    }
    let rows = Markup::new(alloc).with_element(Tag::Row, &[], &row)?;
    Markup::new(alloc).with_element(Tag::TableHead, &[], &rows)
}

/// A table, which scrolls where it is wider than the page.
pub fn table_of(
    alloc: Global,
    caption: &[u8],
    head: &Markup,
    rows: &Markup,
) -> Result<Markup, NoMemory>
    ensures { IfOk result
        (λ made. made ≡ spec.table_element caption.now head.now rows.now) }
{
    let words = Markup::new(alloc).with_text(caption)?;
    let body = Markup::new(alloc)
        .with_element(Tag::Caption, &[], &words)?
        .with_markup(head)?
        .with_element(Tag::TableBody, &[], rows)?;
    Markup::new(alloc).with_element(Tag::Table, &[], &body)
}
