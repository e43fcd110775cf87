//! The text of a day that conforms, line by line. After `NoMemory` nothing is known of `out`.
ghost use Rattle.std.specs.Prelude.{◌≡◌, ◌++◌, ◌∷◌, IfOk, OnOk, length, map};
ghost use Rattle.audit_report.specs.LineParts.{later_parts_text};
ghost use Rattle.session_audit.specs.Texts as text;
ghost use Rattle.session_audit.specs.Texts.{day_text};

use super::days::DayTotals;
use super::phases::Phase;
use super::questions::PhaseQuestion;
use audit_base::faults::NoMemory;
use audit_base::names::Name;
use audit_base::texts::write_number;
use audit_report::line_parts::{LinePart, append, append_joined, append_line};
use audit_report::lines::append_totals_line;
use order_list::lists::OrderList;
use std::alloc::Global;

/// Appends `KIND@FIRST`.
#[tactic(auto, using(std::proofs::Common::append_assoc))]
fn append_phase(alloc: Global, phase: &Phase, out: &mut Vec<u8>) -> Result<(), NoMemory>
    ensures { OnOk result (out.new.items ≡ out.old.items ++ text.phase_text phase.now) }
{
    append(phase.kind.rule().word(), out)?;
    append(b"@", out)?;
    write_number(alloc, u128::from(phase.first), out)
}

/// Appends a comma and the phase.
#[tactic(auto, using(std::proofs::Common::append_assoc))]
fn append_after_comma(alloc: Global, phase: &Phase, out: &mut Vec<u8>) -> Result<(), NoMemory>
    ensures { OnOk result (out.new.items ≡ out.old.items ++ 44 ∷ text.phase_text phase.now) }
{
    append(b",", out)?;
    append_phase(alloc, phase, out)
}

/// Appends the phases, each with a comma before it.
fn append_rest(alloc: Global, phases: &[Phase], out: &mut Vec<u8>) -> Result<(), NoMemory>
    ensures { OnOk result
        (out.new.items ≡ out.old.items ++ later_parts_text (map text.phase_text phases.now)) }
{
    for phase in phases {
        append_after_comma(alloc, phase, out)?;
    }
    Ok(())
}

/// Appends the phases, joined by commas.
pub fn append_phases(alloc: Global, phases: &[Phase], out: &mut Vec<u8>) -> Result<(), NoMemory>
    ensures { OnOk result (out.new.items ≡ out.old.items ++ text.phases_text phases.now) }
{
    if phases.is_empty() {
        return Ok(());
    }
    append_phase(alloc, &phases[0], out)?;
    append_rest(alloc, &phases[1..], out)
}

/// Appends `session,SYMBOL,PHASES`.
#[tactic(auto, using(std::proofs::Common::append_assoc))]
fn append_session_line(
    alloc: Global,
    symbol: &Name,
    phases: &[Phase],
    out: &mut Vec<u8>,
) -> Result<(), NoMemory>
    ensures { let line = text.session_line symbol.now phases.now in
        OnOk result (out.new.items ≡ out.old.items ++ line) }
{
    append_joined(alloc, b"session", &[LinePart::Word(symbol.bytes())], out)?;
    append(b",", out)?;
    append_phases(alloc, phases, out)?;
    append(b"\n", out)
}

/// Appends `order,PLACE,TRADED`.
fn append_total_line(
    alloc: Global,
    place: u32,
    traded: u128,
    out: &mut Vec<u8>,
) -> Result<(), NoMemory>
    ensures { OnOk result (out.new.items ≡ out.old.items ++ text.total_line place traded) }
{
    let parts = [
        LinePart::Number(u128::from(place)),
        LinePart::Number(traded),
    ];
    append_line(alloc, b"order", &parts, out)
}

/// Appends a line for each order.
fn append_total_lines(
    alloc: Global,
    orders: &OrderList<'_>,
    totals: &[u128],
    out: &mut Vec<u8>,
) -> Result<(), NoMemory>
    requires { length totals.now ≡ length orders.now }
    ensures { let lines = text.total_lines orders.now totals.now (length orders.now) in
        OnOk result (out.new.items ≡ out.old.items ++ lines) }
{
    for index in 0..orders.len() {
        append_total_line(alloc, orders.at(index).place(), totals[index], out)?;
    }
    Ok(())
}

/// Appends the lines of the orders, with the option.
fn append_table(
    alloc: Global,
    orders: &OrderList<'_>,
    totals: &[u128],
    table: bool,
    out: &mut Vec<u8>,
) -> Result<(), NoMemory>
    requires { length totals.now ≡ length orders.now }
    ensures { let lines = text.table_text table orders.now totals.now in
        OnOk result (out.new.items ≡ out.old.items ++ lines) }
{
    if table {
        append_total_lines(alloc, orders, totals, out)
    } else {
        Ok(())
    }
}

/// The accepted text of a day: `session,SYMBOL,PHASES`; `totals,ORDERS,TRADES,VOLUME`; and with
/// the option `order,PLACE,TRADED` for each order. Err only out of memory.
#[tactic(auto, using(std::proofs::Common::append_assoc))]
pub fn session_text(
    alloc: Global,
    question: &PhaseQuestion<'_>,
    orders: &OrderList<'_>,
    totals: &DayTotals,
    trades: u32,
) -> Result<Vec<u8>, NoMemory>
    requires { length totals.now.0 ≡ length orders.now }
    ensures { let q = question.now in IfOk result (λ text. text.items
        ≡ day_text q.symbol q.phases.now orders.now totals.now trades q.table) }
{
    let mut out = Vec::new(alloc);
    append_session_line(alloc, &question.symbol, question.phases, &mut out)?;
    append_totals_line(alloc, orders.len(), trades, totals.volume(), &mut out)?;
    append_table(alloc, orders, totals.as_slice(), question.table, &mut out)?;
    Ok(out)
}
