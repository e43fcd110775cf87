//! What shows a finding, as a table: the record that offends, and what the report shows beside it.
ghost use Rattle.std.specs.Prelude.{◌≡◌, ◌++◌, IfOk};
ghost use Rattle.page_parts.specs.Evidence as spec;

use crate::cells::{
    TableColumn, head_of, table_of, with_gaps, with_name, with_number, with_price,
    with_row_heading, with_words,
};
use crate::wording::role_words;
use audit_base::faults::NoMemory;
use audit_base::findings::{Finding, OrderLine, Property, Shown};
use audit_base::names::Key;
use audit_base::terms::{Side, Which};
use audit_report::words::{log_word, side_word};
use page_markup::markup::Markup;
use page_markup::words::Tag;
use std::alloc::Global;

/// The columns of the table where nothing is due.
const COLUMNS: [TableColumn; 10] = [
    TableColumn::Role,
    TableColumn::Mark,
    TableColumn::Log,
    TableColumn::Record,
    TableColumn::Side,
    TableColumn::Firm,
    TableColumn::Id,
    TableColumn::Quantity,
    TableColumn::Limit,
    TableColumn::Traded,
];

const COLUMNS_WITH_DUE: [TableColumn; 11] = [
    TableColumn::Role,
    TableColumn::Mark,
    TableColumn::Log,
    TableColumn::Record,
    TableColumn::Side,
    TableColumn::Firm,
    TableColumn::Id,
    TableColumn::Quantity,
    TableColumn::Limit,
    TableColumn::Traded,
    TableColumn::Due,
];

/// A row that names a record of a log and says no more of it.
fn place_row(alloc: Global, role: &[u8], log: Which, place: u32) -> Result<Markup, NoMemory>
    ensures { IfOk result (λ made. made ≡ spec.place_row role.now log place) }
{
    let row = with_row_heading(alloc, Markup::new(alloc), role)?;
    let row = with_words(alloc, row, b"")?;
    let row = with_words(alloc, row, log_word(log))?;
    with_number(alloc, row, u128::from(place))
}

/// A row of a key that names no order.
fn unknown_row(alloc: Global, side: Side, key: &Key) -> Result<Markup, NoMemory>
    ensures { IfOk result (λ made. made ≡ spec.unknown_row side key.now) }
{
    let row = with_row_heading(alloc, Markup::new(alloc), b"no such order")?;
    let row = with_gaps(alloc, row, 3)?;
    let row = with_words(alloc, row, side_word(side))?;
    let row = with_name(alloc, row, key.firm.bytes())?;
    with_name(alloc, row, key.id.bytes())
}

/// The mark of what is shown first or second.
fn mark_words(is_first: bool) -> &'static [u8]
    ensures { result.now ≡ spec.mark_words is_first }
{
    if is_first { b"1" } else { b"2" }
}

/// With a cell of what is due to an order behind it, where that is told.
fn with_due(alloc: Global, row: Markup, due: Option<u128>) -> Result<Markup, NoMemory>
    ensures { IfOk result (λ made. made ≡ row ++ spec.due_cell due) }
{
    match due {
        Some(due) => with_number(alloc, row, due),
        None => Ok(row),
    }
}

/// The cells that name an order.
fn order_names(alloc: Global, line: &OrderLine) -> Result<Markup, NoMemory>
    ensures { IfOk result (λ made. made ≡ spec.order_names line.now) }
{
    let row = with_number(alloc, Markup::new(alloc), u128::from(line.place))?;
    let row = with_words(alloc, row, side_word(line.side))?;
    let row = with_name(alloc, row, line.key.firm.bytes())?;
    with_name(alloc, row, line.key.id.bytes())
}

/// The cells of the numbers of an order.
fn order_numbers(alloc: Global, line: &OrderLine, due: Option<u128>) -> Result<Markup, NoMemory>
    ensures { IfOk result (λ made. made ≡ spec.order_numbers line.now due) }
{
    let quantity = u128::from(line.quantity.value());
    let row = with_number(alloc, Markup::new(alloc), quantity)?;
    let row = with_price(alloc, row, line.limit)?;
    let row = with_number(alloc, row, line.traded)?;
    with_due(alloc, row, due)
}

/// A row of an order, with its mark in the picture.
fn order_line_row(
    alloc: Global,
    role: &[u8],
    mark: &[u8],
    line: &OrderLine,
    due: Option<u128>,
) -> Result<Markup, NoMemory>
    ensures { IfOk result (λ made. made ≡ spec.order_line_row role.now mark.now line.now due) }
{
    let names = order_names(alloc, line)?;
    let numbers = order_numbers(alloc, line, due)?;
    let row = with_row_heading(alloc, Markup::new(alloc), role)?;
    let row = with_words(alloc, row, mark)?;
    let row = with_words(alloc, row, log_word(Which::Orders))?;
    row.with_markup(&names)?.with_markup(&numbers)
}

/// The row of what is shown first or second.
fn shown_row(
    alloc: Global,
    property: Property,
    is_first: bool,
    shown: &Shown,
) -> Result<Markup, NoMemory>
    ensures { IfOk result (λ made. made ≡ spec.shown_row property is_first shown.now) }
{
    match shown {
        Shown::Place { log, place } => {
            place_row(alloc, b"the record it conflicts with", *log, *place)
        }
        Shown::Unknown { side, key } => unknown_row(alloc, *side, key),
        Shown::Order(line) => {
            let role = role_words(property, is_first, line.side);
            order_line_row(alloc, role, mark_words(is_first), line, None)
        }
        Shown::Due(line, due) => {
            let role = role_words(property, is_first, line.side);
            order_line_row(alloc, role, mark_words(is_first), line, Some(*due))
        }
    }
}

/// With the row of what is shown behind it, where something is.
fn with_shown(
    alloc: Global,
    rows: Markup,
    property: Property,
    is_first: bool,
    shown: &Option<Shown>,
) -> Result<Markup, NoMemory>
    ensures { IfOk result
        (λ made. made ≡ rows ++ spec.shown_row_if_there property is_first shown.now) }
{
    match shown {
        Some(shown) => {
            let row = shown_row(alloc, property, is_first, shown)?;
            rows.with_element(Tag::Row, &[], &row)
        }
        None => Ok(rows),
    }
}

/// The row of the record that offends, where one does.
fn offending_row(alloc: Global, finding: &Finding) -> Result<Markup, NoMemory>
    ensures { IfOk result (λ made. made ≡ spec.offending_row finding.now) }
{
    if finding.short.is_some() {
        return Ok(Markup::new(alloc));
    }
    let row = place_row(alloc, b"the offending record", finding.log, finding.place)?;
    Markup::new(alloc).with_element(Tag::Row, &[], &row)
}

/// Whether something shown tells what is due to an order.
fn tells_due(shown: &Option<Shown>) -> bool
    ensures { result ≡ spec.tells_due shown.now }
{
    match shown {
        Some(shown) => match shown {
            Shown::Place { .. } => false,
            Shown::Unknown { .. } => false,
            Shown::Order(_) => false,
            Shown::Due(_, _) => true,
        },
        None => false,
    }
}

/// Whether a finding tells what is due to an order.
fn finding_tells_due(finding: &Finding) -> bool
    ensures { result ≡ spec.finding_tells_due finding.now }
{
    tells_due(&finding.first) || tells_due(&finding.second)
}

/// The head of the table.
fn evidence_head(alloc: Global, due: bool) -> Result<Markup, NoMemory>
    ensures { IfOk result (λ made. made ≡ spec.evidence_head due) }
{
    if due {
        head_of(alloc, &COLUMNS_WITH_DUE)
    } else {
        head_of(alloc, &COLUMNS)
    }
}

/// What the table has, and what is due to an order where that is told.
#[tactic(auto, unfolding(crate::specs::Evidence::evidence_caption))]
fn evidence_caption(due: bool) -> &'static [u8]
    ensures { result.now ≡ spec.evidence_caption due }
{
    if due {
        b"Records of the two logs. Due: what it trades in every list of trades that conforms."
    } else {
        b"Records of the two logs"
    }
}

/// The table of what shows a finding: the record that offends, and what the report shows beside it.
pub fn evidence_table(alloc: Global, finding: &Finding) -> Result<Markup, NoMemory>
    ensures { IfOk result (λ made. made ≡ spec.evidence_table finding.now) }
{
    let rows = offending_row(alloc, finding)?;
    let rows = with_shown(alloc, rows, finding.property, true, &finding.first)?;
    let rows = with_shown(alloc, rows, finding.property, false, &finding.second)?;
    let due = finding_tells_due(finding);
    let head = evidence_head(alloc, due)?;
    table_of(alloc, evidence_caption(due), &head, &rows)
}
