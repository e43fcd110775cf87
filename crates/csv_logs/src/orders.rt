//! The lines of an order log.
ghost use Rattle.std.specs.Prelude.{◌≡◌, ◌∷◌, [], Err, IfErr, IfOk, Ok, OnOk};
ghost use Rattle.audit_base.specs.declared.terms.Life.{Life};
ghost use Rattle.audit_base.specs.declared.terms.Life.TheVariants.{Market};
ghost use Rattle.csv_logs.specs.Columns.{HasName, column_text, test_result};
ghost use Rattle.csv_logs.specs.declared.orders.LineHead.{LineHead};
ghost use Rattle.csv_logs.specs.Steps.{TakesFields, entry_says};
ghost use Rattle.csv_logs.specs.WrittenLines.{csv_cancel_order, csv_new_order, csv_replace_order};
ghost use Rattle.log_source.specs.Collectors.{HasPlace};
ghost use Rattle.log_source.specs.Handing.{HandsOnMore};
ghost use Rattle.csv_logs.specs.OrderLines.{kind_form, row_head, row_limit_order, row_market_order, row_cancel, row_replacement, order_of_kind, order_of_row, HasHeadNames, written_head};

use crate::columns::{
    column_text, empty_at, in_column, known_key, known_name, price_at, quantity_at, side_at,
    stamp_at, test_key, test_name,
};
use crate::nine_fields::NineFields;
use audit_base::faults::{NoMemory, Reason};
use audit_base::names::{Key, Name};
use audit_base::numbers::{Price, Quantity, market_price};
use audit_base::records::OrderRecord;
use audit_base::stamp_reader::StampReader;
use audit_base::stamps::Stamp;
use audit_base::terms::{Life, Side};
use log_source::collector::Collector;

/// What the first column of an order line says that the line is.
#[derive(Clone, Copy)]
pub(crate) enum LineKind {
    New,
    Cancel,
    Replace,
    Immediate,
    Market,
}

/// The columns that every order line has.
#[derive(Clone, Copy)]
pub(crate) struct LineHead {
    pub(crate) key: Key,
    pub(crate) time: Stamp,
    pub(crate) symbol: Name,
}

/// The kind that the one letter of column 1 says.
fn read_kind(text: &[u8]) -> Option<LineKind>
    ensures { result ≡ kind_form text.now }
{
    match text {
        b"N" => Some(LineKind::New),
        b"X" => Some(LineKind::Cancel),
        b"R" => Some(LineKind::Replace),
        b"I" => Some(LineKind::Immediate),
        b"M" => Some(LineKind::Market),
        _ => None,
    }
}

/// The time in the columns that every order line has, whose names are tested.
#[inline(always)]
fn head_time(fields: &NineFields<'_>, stamps: &mut StampReader) -> Result<Stamp, Reason>
    ensures named { OnOk result (HasHeadNames fields.now) }
    ensures read { IfOk result (λ time. row_head fields.now ≡ Ok (written_head time fields.now)) }
    ensures why { IfErr result (λ why. row_head fields.now ≡ Err why) }
{
    test_key(2, fields)?;
    let time = stamp_at(4, fields, stamps)?;
    test_name(5, fields)?;
    Ok(time)
}

/// What only a new order or a replacement says: columns 6 to 8.
#[derive(Clone, Copy)]
pub(crate) struct LineTerms {
    pub(crate) side: Side,
    pub(crate) quantity: Quantity,
    pub(crate) price: Price,
}

impl LineTerms {
    pub(crate) fn of(side: Side, quantity: Quantity, price: Price) -> LineTerms
        ensures { result ≡ record { side = side; quantity = quantity; price = price } }
    {
        LineTerms {
            side,
            quantity,
            price,
        }
    }
}

/// Columns 6 to 9 of an order with a limit: side, quantity and price, and no target.
fn limit_terms(fields: &NineFields<'_>) -> Result<LineTerms, Reason>
    ensures read { IfOk result (λ terms. (head : LineHead) (life : Life)
        → row_limit_order head life fields.now ≡ Ok (csv_new_order head terms life)) }
    ensures why { IfErr result (λ why. (head : LineHead) (life : Life)
        → row_limit_order head life fields.now ≡ Err why) }
{
    let side = side_at(6, fields)?;
    let quantity = quantity_at(7, fields)?;
    let price = price_at(8, fields)?;
    empty_at(9, fields)?;
    Ok(LineTerms::of(side, quantity, price))
}

/// Columns 6 to 9 of a market order, which has the market price of its side.
fn market_terms(fields: &NineFields<'_>) -> Result<LineTerms, Reason>
    ensures read { IfOk result (λ terms. (head : LineHead)
        → row_market_order head fields.now ≡ Ok (csv_new_order head terms Market)) }
    ensures why { IfErr result (λ why. (head : LineHead) → row_market_order head fields.now ≡ Err why) }
{
    let side = side_at(6, fields)?;
    let quantity = quantity_at(7, fields)?;
    empty_at(8, fields)?;
    empty_at(9, fields)?;
    Ok(LineTerms::of(side, quantity, market_price(side)))
}

/// Columns 6 to 9 of a cancel: a target alone.
fn test_cancel(fields: &NineFields<'_>) -> Result<(), Reason>
    ensures tests { (head : LineHead) → result ≡ test_result (row_cancel head fields.now) }
    ensures named { OnOk result (HasName 9 fields.now) }
    ensures read { OnOk result ((head : LineHead)
        → row_cancel head fields.now ≡ Ok (csv_cancel_order head (column_text 9 fields.now))) }
    ensures why { IfErr result (λ why. (head : LineHead) → row_cancel head fields.now ≡ Err why) }
{
    empty_at(6, fields)?; // no side
    empty_at(7, fields)?;
    empty_at(8, fields)?;
    test_name(9, fields)
}

/// Columns 6 to 9 of a replacement; its target is only tested here.
fn replacement_terms(fields: &NineFields<'_>) -> Result<LineTerms, Reason>
    ensures named { OnOk result (HasName 9 fields.now) }
    ensures read { IfOk result (λ terms. (head : LineHead)
        → row_replacement head fields.now
        ≡ Ok (csv_replace_order head terms (column_text 9 fields.now))) }
    ensures why { IfErr result (λ why. (head : LineHead) → row_replacement head fields.now ≡ Err why) }
{
    let side = side_at(6, fields)?;
    let quantity = quantity_at(7, fields)?;
    let price = price_at(8, fields)?;
    test_name(9, fields)?;
    Ok(LineTerms::of(side, quantity, price))
}

/// Hands on a new order. Its record is made where it is handed on, and not copied.
fn take_new<K: Collector<Entry = OrderRecord>>(
    entries: &mut K,
    time: Stamp,
    life: Life,
    terms: LineTerms,
    fields: &NineFields<'_>,
) -> Result<(), NoMemory>
    requires names { HasHeadNames fields.now }
    requires place { HasPlace K.has_taken entries.old }
    ensures { let order = csv_new_order (written_head time fields.now) terms life in
        OnOk result (HandsOnMore (K.has_taken entries.old) (K.has_taken entries.new) (order ∷ [])) }
{
    entries.take(OrderRecord::New {
        key: known_key(2, fields),
        time,
        symbol: known_name(5, fields),
        side: terms.side,
        quantity: terms.quantity,
        price: terms.price,
        life,
    })
}

/// Hands on a new order with a limit, or gives the first column that is not in its form.
fn take_limit<K: Collector<Entry = OrderRecord>>(
    entries: &mut K,
    time: Stamp,
    life: Life,
    fields: &NineFields<'_>,
) -> Result<Result<(), Reason>, NoMemory>
    requires names { HasHeadNames fields.now }
    requires place { HasPlace K.has_taken entries.old }
    ensures { let says = entry_says
        (row_limit_order (written_head time fields.now) life fields.now) in
        IfOk result (TakesFields says (K.has_taken entries.old) (K.has_taken entries.new)) }
{
    match limit_terms(fields) {
        Ok(terms) => {
            take_new(entries, time, life, terms, fields)?;
            Ok(Ok(()))
        }
        Err(why) => Ok(Err(why)),
    }
}

/// Hands on a market order, or gives the first column that is not in its form.
fn take_market<K: Collector<Entry = OrderRecord>>(
    entries: &mut K,
    time: Stamp,
    fields: &NineFields<'_>,
) -> Result<Result<(), Reason>, NoMemory>
    requires names { HasHeadNames fields.now }
    requires place { HasPlace K.has_taken entries.old }
    ensures { let says = entry_says (row_market_order (written_head time fields.now) fields.now) in
        IfOk result (TakesFields says (K.has_taken entries.old) (K.has_taken entries.new)) }
{
    match market_terms(fields) {
        Ok(terms) => {
            take_new(entries, time, Life::Market, terms, fields)?;
            Ok(Ok(()))
        }
        Err(why) => Ok(Err(why)),
    }
}

/// Hands on a cancel, or gives the first column that is not in its form.
fn take_cancel<K: Collector<Entry = OrderRecord>>(
    entries: &mut K,
    time: Stamp,
    fields: &NineFields<'_>,
) -> Result<Result<(), Reason>, NoMemory>
    requires names { HasHeadNames fields.now }
    requires place { HasPlace K.has_taken entries.old }
    ensures { let says = entry_says (row_cancel (written_head time fields.now) fields.now) in
        IfOk result (TakesFields says (K.has_taken entries.old) (K.has_taken entries.new)) }
{
    match test_cancel(fields) {
        Ok(()) => {
            entries.take(OrderRecord::Cancel {
                key: known_key(2, fields),
                time,
                symbol: known_name(5, fields),
                target: known_name(9, fields),
            })?;
            Ok(Ok(()))
        }
        Err(why) => Ok(Err(why)),
    }
}

/// Hands on a replacement, or gives the first column that is not in its form.
fn take_replacement<K: Collector<Entry = OrderRecord>>(
    entries: &mut K,
    time: Stamp,
    fields: &NineFields<'_>,
) -> Result<Result<(), Reason>, NoMemory>
    requires names { HasHeadNames fields.now }
    requires place { HasPlace K.has_taken entries.old }
    ensures { let says = entry_says (row_replacement (written_head time fields.now) fields.now) in
        IfOk result (TakesFields says (K.has_taken entries.old) (K.has_taken entries.new)) }
{
    match replacement_terms(fields) {
        Ok(terms) => {
            entries.take(OrderRecord::Replace {
                key: known_key(2, fields),
                time,
                symbol: known_name(5, fields),
                target: known_name(9, fields),
                side: terms.side,
                quantity: terms.quantity,
                price: terms.price,
            })?;
            Ok(Ok(()))
        }
        Err(why) => Ok(Err(why)),
    }
}

/// Takes columns 6 to 9 of a line of this kind, whose first columns are tested.
fn take_order_of_kind<K: Collector<Entry = OrderRecord>>(
    entries: &mut K,
    kind: LineKind,
    time: Stamp,
    fields: &NineFields<'_>,
) -> Result<Result<(), Reason>, NoMemory>
    requires names { HasHeadNames fields.now }
    requires place { HasPlace K.has_taken entries.old }
    ensures { let head = written_head time fields.now in
        let says = entry_says (order_of_kind kind head fields.now) in
        IfOk result (TakesFields says (K.has_taken entries.old) (K.has_taken entries.new)) }
{
    match kind {
        LineKind::New => take_limit(entries, time, Life::Rests, fields),
        LineKind::Immediate => take_limit(entries, time, Life::Immediate, fields),
        LineKind::Market => take_market(entries, time, fields),
        LineKind::Cancel => take_cancel(entries, time, fields),
        LineKind::Replace => take_replacement(entries, time, fields),
    }
}

/// The kind of a line and its time, in the columns that every order line has,
/// whose names are tested.
#[inline(always)]
#[tactic(auto, unfolding(crate::specs::OrderLines::order_of_row))]
fn kind_and_time(
    fields: &NineFields<'_>,
    stamps: &mut StampReader,
) -> Result<(LineKind, Stamp), Reason>
    ensures named { OnOk result (HasHeadNames fields.now) }
    ensures read { IfOk result (λ found. order_of_row fields.now
        ≡ order_of_kind found.0 (written_head found.1 fields.now) fields.now) }
    ensures why { IfErr result (λ why. order_of_row fields.now ≡ Err why) }
{
    let kind = in_column(1, read_kind(column_text(fields, 1)))?;
    let time = head_time(fields, stamps)?;
    Ok((kind, time))
}

/// Hands on the record that nine fields mean in an order log, or gives the first column
/// that is not in its form.
pub(crate) fn take_order<K: Collector<Entry = OrderRecord>>(
    entries: &mut K,
    fields: &NineFields<'_>,
    stamps: &mut StampReader,
) -> Result<Result<(), Reason>, NoMemory>
    requires { HasPlace K.has_taken entries.old }
    ensures { let says = entry_says (order_of_row fields.now) in
        IfOk result (TakesFields says (K.has_taken entries.old) (K.has_taken entries.new)) }
{
    match kind_and_time(fields, stamps) {
        Ok((kind, time)) => take_order_of_kind(entries, kind, time, fields),
        Err(why) => Ok(Err(why)),
    }
}

fn test_limit(fields: &NineFields<'_>) -> Result<(), Reason>
    ensures { (head : LineHead) (life : Life)
        → result ≡ test_result (row_limit_order head life fields.now) }
{
    limit_terms(fields)?;
    Ok(())
}

fn test_market(fields: &NineFields<'_>) -> Result<(), Reason>
    ensures { (head : LineHead) → result ≡ test_result (row_market_order head fields.now) }
{
    market_terms(fields)?;
    Ok(())
}

fn test_replacement(fields: &NineFields<'_>) -> Result<(), Reason>
    ensures { (head : LineHead) → result ≡ test_result (row_replacement head fields.now) }
{
    replacement_terms(fields)?;
    Ok(())
}

/// The tests of columns 6 to 9 alone, for an order of which no record is made.
fn test_order_of_kind(kind: LineKind, fields: &NineFields<'_>) -> Result<(), Reason>
    ensures { (head : LineHead) → result ≡ test_result (order_of_kind kind head fields.now) }
{
    match kind {
        LineKind::New | LineKind::Immediate => test_limit(fields),
        LineKind::Market => test_market(fields),
        LineKind::Cancel => test_cancel(fields),
        LineKind::Replace => test_replacement(fields),
    }
}

/// Whether nine fields mean a record in an order log, or else the first column
/// that is not in its form.
pub(crate) fn test_order(fields: &NineFields<'_>, stamps: &mut StampReader) -> Result<(), Reason>
    ensures { result ≡ test_result (order_of_row fields.now) }
{
    let (kind, _) = kind_and_time(fields, stamps)?;
    test_order_of_kind(kind, fields)
}
