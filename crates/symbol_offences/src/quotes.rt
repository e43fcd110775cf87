//! The records that are quoted behind an offence. After `NoMemory` nothing is known of `out`.
ghost use Rattle.std.specs.Prelude.{◌≡◌, ◌++◌, OnOk, slice_get, option_map};
ghost use Rattle.audit_base.specs.Orders.{IsOrderList};
ghost use Rattle.audit_report.specs.Texts.{line_if_there};
ghost use Rattle.symbol_offences.specs.Quotes as spec;
ghost use Rattle.symbol_offences.specs.SymbolBeforeRule.{AreInLogOrder};

use crate::places::find_place;
use crate::record_lines::{append_order_record, append_trade_record};
use crate::symbol_before_rule::QuotedRecords;
use audit_base::faults::NoMemory;
use audit_base::findings::{Finding, Property, Shown};
use audit_base::terms::Which;
use further_checks::findings::FurtherFinding;
use order_list::listed::ListedOrder;
use order_list::lists::OrderList;
use std::alloc::Global;

/// The order record at a place, if one is there.
fn append_order_quote(
    alloc: Global,
    quoted: &QuotedRecords,
    place: u32,
    out: &mut Vec<u8>,
) -> Result<(), NoMemory>
    requires { AreInLogOrder quoted.now }
    ensures { OnOk result (out.new.items ≡ out.old.items ++ spec.order_quote quoted.now place) }
{
    match find_place(&quoted.orders, place) {
        Some(index) => append_order_record(alloc, place, &quoted.orders.at(index).1, out),
        None => Ok(()),
    }
}

/// The trade at a place, if one is there.
fn append_trade_quote(
    alloc: Global,
    quoted: &QuotedRecords,
    place: u32,
    out: &mut Vec<u8>,
) -> Result<(), NoMemory>
    requires { AreInLogOrder quoted.now }
    ensures { OnOk result (out.new.items ≡ out.old.items ++ spec.trade_quote quoted.now place) }
{
    match find_place(&quoted.trades, place) {
        Some(index) => append_trade_record(alloc, place, &quoted.trades.at(index).1, out),
        None => Ok(()),
    }
}

/// The record of a log at a place, if one is there.
fn append_quote_in(
    alloc: Global,
    quoted: &QuotedRecords,
    log: Which,
    place: u32,
    out: &mut Vec<u8>,
) -> Result<(), NoMemory>
    requires { AreInLogOrder quoted.now }
    ensures { OnOk result (out.new.items ≡ out.old.items ++ spec.quote_in quoted.now log place) }
{
    match log {
        Which::Orders => append_order_quote(alloc, quoted, place, out),
        Which::Trades => append_trade_quote(alloc, quoted, place, out),
    }
}

/// The order record at a place, if there is a place.
fn append_if_there(
    alloc: Global,
    quoted: &QuotedRecords,
    place: Option<u32>,
    out: &mut Vec<u8>,
) -> Result<(), NoMemory>
    requires { AreInLogOrder quoted.now }
    ensures { let quote = line_if_there (spec.order_quote quoted.now) place in
        OnOk result (out.new.items ≡ out.old.items ++ quote) }
{
    match place {
        Some(place) => append_order_quote(alloc, quoted, place, out),
        None => Ok(()),
    }
}

/// The place of the order record that is shown, if one is.
fn shown_order_place(shown: &Option<Shown>) -> Option<u32>
    ensures { result ≡ spec.shown_order_place shown.now }
{
    match shown {
        None => None,
        Some(Shown::Place { log, place }) => match log {
            Which::Orders => Some(*place),
            Which::Trades => None,
        },
        Some(Shown::Unknown { .. }) => None,
        Some(Shown::Order(line)) => Some(line.place),
        Some(Shown::Due(line, _)) => Some(line.place),
    }
}

/// Whether the property is `inactive`.
fn is_inactive(property: Property) -> bool
    ensures { result ≡ spec.is_inactive property }
{
    matches!(property, Property::Inactive)
}

/// The place of the record that ended the order, if one did.
fn ending_of_order(order: &ListedOrder<'_>) -> Option<u32>
    ensures { result ≡ spec.ending_of_order order.now }
{
    let place = order.cancelled()?;
    if place == order.place() {
        return None;
    }
    Some(place)
}

/// The place of the record that ended the order whose record is at this place, if one did.
fn ending_at(orders: &OrderList<'_>, place: u32) -> Option<u32>
    requires { IsOrderList orders.now }
    ensures { result ≡ spec.ending_at orders.now place }
{
    let index = find_place(orders, place)?;
    ending_of_order(&orders.at(index))
}

/// Of `inactive`, the place of the record that ended the order that is shown, if one did.
pub(crate) fn ending_place(orders: &OrderList<'_>, finding: &Finding) -> Option<u32>
    requires { IsOrderList orders.now }
    ensures { result ≡ spec.ending_place orders.now finding.now }
{
    if !is_inactive(finding.property) {
        return None;
    }
    ending_at(orders, shown_order_place(&finding.first)?)
}

/// The records that are quoted behind a finding: the offending one, the order records that it
/// shows, first before second, and the one at the place `ending`, which ended an order.
pub(crate) fn append_quotes(
    alloc: Global,
    quoted: &QuotedRecords,
    finding: &Finding,
    ending: Option<u32>,
    out: &mut Vec<u8>,
) -> Result<(), NoMemory>
    requires { AreInLogOrder quoted.now }
    ensures { let quotes = spec.quotes_with quoted.now finding.now ending in
        OnOk result (out.new.items ≡ out.old.items ++ quotes) }
{
    append_quote_in(alloc, quoted, finding.log, finding.place, out)?;
    append_if_there(alloc, quoted, shown_order_place(&finding.first), out)?;
    append_if_there(alloc, quoted, shown_order_place(&finding.second), out)?;
    append_if_there(alloc, quoted, ending, out)
}

/// The records that are quoted behind a further finding: the trade, and the orders that it shows.
pub(crate) fn append_further_quotes(
    alloc: Global,
    quoted: &QuotedRecords,
    finding: &FurtherFinding,
    out: &mut Vec<u8>,
) -> Result<(), NoMemory>
    requires { AreInLogOrder quoted.now }
    ensures { let quotes = spec.further_quotes quoted.now finding.now in
        OnOk result (out.new.items ≡ out.old.items ++ quotes) }
{
    append_trade_quote(alloc, quoted, finding.place(), out)?;
    match finding {
        FurtherFinding::RestingPrice {
            resting,
            incoming,
            ..
        } => {
            append_order_quote(alloc, quoted, resting.place, out)?;
            append_order_quote(alloc, quoted, incoming.place, out)
        }
        FurtherFinding::TradeTime { order, .. } => {
            append_order_quote(alloc, quoted, order.place, out)
        }
    }
}
