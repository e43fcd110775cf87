//! The table of an accepted log: under a rule of a call what each order of the history traded,
//! under `continuous` what each pair of a bid and an ask did.
ghost use Rattle.std.specs.Prelude.{◌≡◌, ◌<◌, ◌++◌, ◌∷◌, [], All, IfOk, OnOk, length};
ghost use Rattle.audit_base.specs.Deals.{AreTotals, IsDealList};
ghost use Rattle.record_verdict.specs.RecordVerdicts as table;
ghost use Rattle.record_verdict.specs.Tables as spec;

use crate::questions::Question;
use audit_base::faults::NoMemory;
use audit_base::orders::Deal;
use audit_base::terms::Rule;
use audit_report::tables::{Line, Table};
use canonical_form::shares::{Share, canonical};
use order_list::listed::ListedOrder;
use order_list::lists::OrderList;
use std::alloc::Global;

/// The line of an order with what it traded.
fn order_line(order: &ListedOrder<'_>, traded: u128) -> Line
    ensures { result ≡ spec.line_of_order order.now traded }
{
    Line::Order(order.line(traded))
}

/// Adds the line of an order.
fn push_line(lines: &mut Vec<Line>, order: &ListedOrder<'_>, traded: u128) -> Result<(), NoMemory>
    ensures { OnOk result
        (lines.new.items ≡ lines.old.items ++ spec.line_of_order order.now traded ∷ []) }
{
    lines.push(order_line(order, traded))?;
    Ok(())
}

/// The lines of all orders, in log order.
fn order_lines(
    alloc: Global,
    orders: &OrderList<'_>,
    traded: &[u128],
) -> Result<Vec<Line>, NoMemory>
    requires { length traded.now ≡ length orders.now }
    ensures { IfOk result (λ lines. lines.items ≡ spec.lines_of orders.now traded.now) }
{
    let mut lines = Vec::with_capacity(alloc, orders.len())?;
    for index in 0..orders.len() {
        push_line(&mut lines, &orders.at(index), traded[index])?;
    }
    Ok(lines)
}

/// Adds the line of a bid and an ask that trade with one another.
fn push_pair(lines: &mut Vec<Line>, orders: &OrderList<'_>, share: &Share) -> Result<(), NoMemory>
    requires { spec.IsShareOf orders.now share.now }
    ensures { OnOk result
        (lines.new.items ≡ lines.old.items ++ spec.line_of_share orders.now share.now ∷ []) }
{
    lines.push(Line::Pair {
        bid: orders.at(share.bid).place(),
        ask: orders.at(share.ask).place(),
        quantity: share.quantity,
    })?;
    Ok(())
}

/// The lines of some pairs, in their order.
fn share_lines(
    alloc: Global,
    orders: &OrderList<'_>,
    shares: &[Share],
) -> Result<Vec<Line>, NoMemory>
    requires { All (spec.IsShareOf orders.now) shares.now }
    ensures { IfOk result (λ lines.
        lines.items ≡ spec.share_lines orders.now shares.now (length shares.now)) }
{
    let mut lines = Vec::with_capacity(alloc, shares.len())?;
    for index in 0..shares.len() {
        push_pair(&mut lines, orders, &shares[index])?;
    }
    Ok(lines)
}

/// The lines of all pairs that trade, in order of the bid and then of the ask.
fn pair_lines(alloc: Global, orders: &OrderList<'_>, deals: &[Deal]) -> Result<Vec<Line>, NoMemory>
    requires { IsDealList orders.now deals.now }
    ensures { IfOk result (λ lines. lines.items ≡ table.pair_table_lines orders.now deals.now) }
{
    let shares = canonical(alloc, deals)?;
    share_lines(alloc, orders, &shares)
}

/// The lines of a rule.
fn lines_of(
    alloc: Global,
    rule: Rule,
    orders: &OrderList<'_>,
    deals: &[Deal],
    traded: &[u128],
) -> Result<Vec<Line>, NoMemory>
    requires deal_list { IsDealList orders.now deals.now }
    requires totals { AreTotals orders.now deals.now traded.now }
    ensures { IfOk result (λ lines. lines.items ≡ table.rule_lines rule orders.now deals.now) }
{
    match rule.call_rule() {
        Some(_) => order_lines(alloc, orders, traded),
        None => pair_lines(alloc, orders, deals),
    }
}

/// The table, if one is asked for; else one without lines.
pub(crate) fn table_of(
    alloc: Global,
    question: &Question,
    orders: &OrderList<'_>,
    deals: &[Deal],
    traded: &[u128],
) -> Result<Table, NoMemory>
    requires deal_list { IsDealList orders.now deals.now }
    requires totals { AreTotals orders.now deals.now traded.now }
    ensures { IfOk result (λ made. made
        ≡ table.table_lines question.now.rule question.now.table orders.now deals.now) }
{
    if question.table {
        let lines = lines_of(alloc, question.rule, orders, deals, traded)?;
        Ok(Table::of(lines))
    } else {
        Ok(Table::of(Vec::new(alloc)))
    }
}
