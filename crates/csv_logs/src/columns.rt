//! The columns of a line, each read in its form. A column that is not in its form is named by its
//! number, from 1 on. Names are tested first, and copied when all columns of the line are known
//! to be in their forms, so that each is written once, where it stays.
ghost use Rattle.std.specs.Prelude.{◌≡◌, ◌+◌, ◌<◌, ◌↔◌, Err, IfErr, IsTrue, Ok, OnOk, Some, map};
ghost use Rattle.csv.specs.Records.{field_at};
ghost use Rattle.audit_base.specs.Names.{is_name};
ghost use Rattle.csv_logs.specs.Columns.{column_text, in_column, empty_form, row_side_form, row_name, row_stamp, row_side, row_quantity, row_price, row_blank, row_key, test_result, HasKey, HasName, written_key};
ghost use Rattle.csv_logs.specs.Logs.{same_fields};

use crate::fields::Fields;
use crate::nine_fields::NineFields;
use audit_base::faults::Reason;
use audit_base::names::{Key, Name, is_name, is_name_by_size, name_of};
use audit_base::numbers::{Price, Quantity, read_price, read_quantity};
use audit_base::stamp_reader::StampReader;
use audit_base::stamps::Stamp;
use audit_base::terms::Side;

/// The text of a column, which is empty where the line has fewer columns.
pub(crate) fn column_text<'l>(fields: &NineFields<'l>, number: u8) -> &'l [u8]
    requires { 0 < number }
    ensures { result.now ≡ column_text number fields.now }
{
    match fields.get(usize::from(number) - 1) {
        Some(text) => text,
        None => &[],
    }
}

/// A column's value, or that the column is not in its form.
pub(crate) fn in_column<T>(number: u8, value: Option<T>) -> Result<T, Reason>
    ensures { result ≡ in_column number value }
{
    value.ok_or(Reason::Column(number))
}

/// `B` for a bid, `S` for an ask, and nothing else.
fn read_side(text: &[u8]) -> Option<Side>
    ensures { result ≡ row_side_form text.now }
{
    match text {
        b"B" => Some(Side::Buy),
        b"S" => Some(Side::Sell),
        _ => None,
    }
}

/// The form of a column that must be empty.
fn read_empty(text: &[u8]) -> Option<()>
    ensures { result ≡ empty_form text.now }
{
    if text.is_empty() { Some(()) } else { None }
}

/// Whether a column's text is a name.
fn is_name_in(number: u8, fields: &NineFields<'_>) -> bool
    requires { 0 < number }
    ensures { result ≡ is_name (column_text number fields.now) }
{
    let text = column_text(fields, number);
    if fields.have_name_bytes() {
        is_name_by_size(text)
    } else {
        is_name(text)
    }
}

/// Whether a column holds a name.
pub(crate) fn test_name(number: u8, fields: &NineFields<'_>) -> Result<(), Reason>
    requires { 0 < number }
    ensures tests { result ≡ test_result (row_name number fields.now) }
    ensures named { OnOk result (HasName number fields.now) }
    ensures read { OnOk result (row_name number fields.now ≡ Ok (column_text number fields.now)) }
    ensures why { IfErr result (λ why. row_name number fields.now ≡ Err why) }
{
    if is_name_in(number, fields) {
        Ok(())
    } else {
        Err(Reason::Column(number))
    }
}

/// Whether a column holds a firm, and the next one an id.
pub(crate) fn test_key(number: u8, fields: &NineFields<'_>) -> Result<(), Reason>
    requires first { 0 < number }
    requires next { number < 9 }
    ensures tests { result ≡ test_result (row_key number fields.now) }
    ensures named { OnOk result (HasKey number fields.now) }
    ensures read { OnOk result (row_key number fields.now ≡ Ok (written_key number fields.now)) }
    ensures why { IfErr result (λ why. row_key number fields.now ≡ Err why) }
{
    test_name(number, fields)?;
    test_name(number + 1, fields)
}

/// The name in a column that holds one.
pub(crate) fn known_name(number: u8, fields: &NineFields<'_>) -> Name
    requires first { 0 < number }
    requires named { HasName number fields.now }
    ensures { result ≡ column_text number fields.now }
{
    name_of(column_text(fields, number))
}

/// The firm in a column and its id in the next one, where both hold names.
pub(crate) fn known_key(number: u8, fields: &NineFields<'_>) -> Key
    requires first { 0 < number }
    requires next { number < 9 }
    requires named { HasKey number fields.now }
    ensures { result ≡ written_key number fields.now }
{
    Key {
        firm: known_name(number, fields),
        id: known_name(number + 1, fields),
    }
}

/// The point in time in a column.
pub(crate) fn stamp_at(
    number: u8,
    fields: &NineFields<'_>,
    stamps: &mut StampReader,
) -> Result<Stamp, Reason>
    requires { 0 < number }
    ensures { result ≡ row_stamp number fields.now }
{
    in_column(number, stamps.read(column_text(fields, number)))
}

/// The side in a column: `B` for a bid, `S` for an ask.
pub(crate) fn side_at(number: u8, fields: &NineFields<'_>) -> Result<Side, Reason>
    requires { 0 < number }
    ensures { result ≡ row_side number fields.now }
{
    in_column(number, read_side(column_text(fields, number)))
}

/// The quantity in a column.
pub(crate) fn quantity_at(number: u8, fields: &NineFields<'_>) -> Result<Quantity, Reason>
    requires { 0 < number }
    ensures { result ≡ row_quantity number fields.now }
{
    in_column(number, read_quantity(column_text(fields, number)))
}

/// The price in a column.
pub(crate) fn price_at(number: u8, fields: &NineFields<'_>) -> Result<Price, Reason>
    requires { 0 < number }
    ensures { result ≡ row_price number fields.now }
{
    in_column(number, read_price(column_text(fields, number)))
}

/// A column that holds nothing.
pub(crate) fn empty_at(number: u8, fields: &NineFields<'_>) -> Result<(), Reason>
    requires { 0 < number }
    ensures { result ≡ row_blank number fields.now }
{
    in_column(number, read_empty(column_text(fields, number)))
}

/// Whether there is a field at this index, from 0 on, and it is this name.
fn has_name(fields: &Fields, at: usize, name: &[u8]) -> bool
    ensures { IsTrue result ↔ (field_at fields.now at ≡ Some name.now) }
{
    match fields.get(at) {
        Some(text) => text == name,
        None => false,
    }
}

/// Whether the fields are these names.
pub(crate) fn have_names(fields: &Fields, names: &[&[u8]]) -> bool
    ensures { result ≡ same_fields fields.now (map (λ name. name.now) names.now) }
{
    if fields.len() != names.len() {
        return false;
    }
    for (at, name) in names.iter().enumerate() {
        if !has_name(fields, at, name) {
            return false;
        }
    }
    true
}
