//! The rows of the table of cases. A row has six columns: the label, the number of the rule,
//! the symbol, and of an offence the number of its property, that of its log, and its place; of
//! no offence three times 0.
ghost use Rattle.std.specs.Prelude.{◌≡◌, map, MatchBool};
ghost use Rattle.sqlite_value.specs.Value.{owned};
ghost use Rattle.sqlite_value.specs.Order.{column};
ghost use Rattle.case_sqlite.specs.CaseRows.{RowSays, case_columns, offence_columns, integer_value, OffenceHasPlace};
ghost use Rattle.case_sqlite.specs.Readings.{number_in_column, name_in_column, offence_form, offence_in_row, rule_in_row, case_in_columns, case_form};

use crate::codes::{log_number, log_with, property_number, property_with, rule_number, rule_with};
use audit_base::names::{Name, read_name};
use audit_base::terms::Rule;
use case_keeper::case::{Case, Offence};
use sqlite::Row;
use sqlite::types::ValueRef;

/// The value in a column, which is null past the last one.
fn value_at(row: &Row, at: usize) -> ValueRef<'_>
    ensures { owned result ≡ column row.now at }
{
    match row.get_ref(at) {
        Ok(value) => value,
        Err(_) => ValueRef::Null,
    }
}

/// The number of 32 bits in a column.
fn number_at(row: &Row, at: usize) -> Option<u32>
    ensures { result ≡ number_in_column (column row.now at) }
{
    match value_at(row, at) {
        ValueRef::Int(number) => u32::try_from(number).ok(),
        _ => None,
    }
}

/// The name in a column.
fn name_at(row: &Row, at: usize) -> Option<Name>
    ensures { result ≡ name_in_column (column row.now at) }
{
    match value_at(row, at) {
        ValueRef::Text(text) => read_name(text),
        _ => None,
    }
}

/// The rule in column 1.
fn rule_at(row: &Row) -> Option<Rule>
    ensures { result ≡ rule_in_row row.now }
{
    rule_with(number_at(row, 1)?)
}

/// What the numbers of a property, a log and a place say: that there is no offence where all
/// are 0, or which it is.
fn offence_of(property: u32, log: u32, place: u32) -> Option<Option<Offence>>
    ensures { result ≡ offence_form property log place }
{
    if property == 0 && log == 0 && place == 0 {
        return Some(None);
    }
    let property = property_with(property)?;
    let log = log_with(log)?;
    if place == 0 {
        return None;
    }
    Some(Some(Offence {
        property,
        log,
        place,
    }))
}

/// What columns 3 to 5 say of an offence.
fn offence_at(row: &Row) -> Option<Option<Offence>>
    ensures { result ≡ offence_in_row row.now }
{
    let property = number_at(row, 3)?;
    let log = number_at(row, 4)?;
    offence_of(property, log, number_at(row, 5)?)
}

/// The case in the first six columns.
fn case_at(row: &Row) -> Option<Case>
    ensures { result ≡ case_in_columns row.now }
{
    let label = name_at(row, 0)?;
    let rule = rule_at(row)?;
    let symbol = name_at(row, 2)?;
    let offence = offence_at(row)?;
    Some(Case {
        label,
        rule,
        symbol,
        offence,
    })
}

/// The case in a row of six columns.
fn case_of(row: &Row) -> Option<Case>
    ensures { result ≡ case_form row.now }
{
    if row.column_count() == 6 {
        case_at(row)
    } else {
        None
    }
}

/// The case whose row it is. None exactly where it is the row of no case. Takes no memory.
#[tactic(auto, using(crate::proofs::RowLemmas::row_tells))]
pub fn read_case(row: &Row) -> Option<Case>
    ensures told { RowSays row.now result }
    ensures form { result ≡ case_form row.now }
{
    case_of(row)
}

/// Whether the place of an offence is that of a record, from 1.
pub fn has_place(case: &Case) -> bool
    ensures { MatchBool result (OffenceHasPlace case.now) (¬ OffenceHasPlace case.now) }
{
    match case.offence {
        Some(offence) => offence.place > 0,
        None => true,
    }
}

/// A number as a column has it.
fn number_value(number: u32) -> ValueRef<'static>
    ensures { owned result ≡ integer_value number }
{
    ValueRef::Int(i64::from(number))
}

/// The columns of an offence, or three times 0.
fn offence_values(offence: &Option<Offence>) -> [ValueRef<'static>; 3]
    ensures { map owned result ≡ offence_columns offence.now }
{
    match offence {
        Some(offence) => [
            number_value(property_number(offence.property)),
            number_value(log_number(offence.log)),
            number_value(offence.place),
        ],
        None => [number_value(0), number_value(0), number_value(0)],
    }
}

/// The columns of a case. Takes no memory.
pub fn case_values(case: &Case) -> [ValueRef<'_>; 6]
    ensures { map owned result ≡ case_columns case.now }
{
    let [property, log, place] = offence_values(&case.offence);
    [
        ValueRef::Text(case.label.bytes()),
        number_value(rule_number(case.rule)),
        ValueRef::Text(case.symbol.bytes()),
        property,
        log,
        place,
    ]
}
