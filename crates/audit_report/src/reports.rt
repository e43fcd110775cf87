//! The text of a verdict, and the lines of a run that has no verdict.
ghost use Rattle.std.specs.Prelude.{◌≡◌, ◌++◌, OnOk, IfOk};
ghost use Rattle.std.specs.Option.{ForSome};
ghost use Rattle.std.specs.List.{flat_map};
ghost use Rattle.audit_report.specs.Lines as text;
ghost use Rattle.audit_report.specs.Texts.{accepted_text, rejected_text, verdict_text, line_if_there, IsBoundInRange, IsVerdictInRange};

use super::lines::{
    append_accepted_line, append_bound_line, append_malformed_line, append_rejected_line,
    append_shown_line, append_table_line, append_totals_line, append_volume_line,
};
use super::tables::Line;
use super::verdicts::{Accepted, Verdict};
use audit_base::faults::NoMemory;
use audit_base::findings::{Finding, Short, Shown};
use audit_base::orders::Cut;
use audit_base::terms::Which;
use std::alloc::Global;

/// The text of the verdict. The bound line is there where there is a bound,
/// the volume line where the finding has one, and the lines of the table are in their order.
/// The price of a bound is at most 10^18 units. A column that a reason names is from 1 to 9;
/// any other has no name in the text.
pub fn report_text(alloc: Global, verdict: &Verdict) -> Result<Vec<u8>, NoMemory>
    requires { IsVerdictInRange verdict.now }
    ensures { IfOk result (λ text. text.items ≡ verdict_text verdict.now) }
{
    let mut out = Vec::new(alloc);
    append_verdict(alloc, verdict, &mut out)?;
    Ok(out)
}

/// Appends the text of the verdict.
fn append_verdict(alloc: Global, verdict: &Verdict, out: &mut Vec<u8>) -> Result<(), NoMemory>
    requires { IsVerdictInRange verdict.now }
    ensures { OnOk result (out.new.items ≡ out.old.items ++ verdict_text verdict.now) }
{
    match verdict {
        Verdict::Accepted(accepted) => append_accepted(alloc, accepted, out),
        Verdict::Rejected(finding) => append_rejected(alloc, finding, out),
        Verdict::Malformed { log, bad } => append_malformed_line(alloc, *log, bad, out),
    }
}

/// Appends the text of an accepted log.
fn append_accepted(alloc: Global, accepted: &Accepted, out: &mut Vec<u8>) -> Result<(), NoMemory>
    requires { ForSome accepted.now.bound IsBoundInRange }
    ensures { OnOk result (out.new.items ≡ out.old.items ++ accepted_text accepted.now) }
{
    append_accepted_line(alloc, accepted.rule, &accepted.symbol, out)?;
    let orders = accepted.orders as usize;
    append_totals_line(alloc, orders, accepted.trades, accepted.volume, out)?;
    append_bound(alloc, &accepted.bound, out)?;
    append_table(alloc, accepted.table.as_slice(), out)
}

/// Appends the bound line, where there is a bound.
fn append_bound(alloc: Global, bound: &Option<Cut>, out: &mut Vec<u8>) -> Result<(), NoMemory>
    requires { ForSome bound.now IsBoundInRange }
    ensures { OnOk result
        (out.new.items ≡ out.old.items ++ line_if_there text.bound_line bound.now) }
{
    match bound {
        Some(cut) => append_bound_line(alloc, cut, out),
        None => Ok(()),
    }
}

/// Appends the lines of a table.
fn append_table(alloc: Global, lines: &[Line], out: &mut Vec<u8>) -> Result<(), NoMemory>
    ensures { OnOk result (out.new.items ≡ out.old.items ++ flat_map text.table_line lines.now) }
{
    for line in lines {
        append_table_line(alloc, line, out)?;
    }
    Ok(())
}

/// Appends the text of a finding.
fn append_rejected(alloc: Global, finding: &Finding, out: &mut Vec<u8>) -> Result<(), NoMemory>
    ensures { OnOk result (out.new.items ≡ out.old.items ++ rejected_text finding.now) }
{
    append_rejected_line(alloc, finding, out)?;
    append_short(alloc, &finding.short, out)?;
    append_shown(alloc, &finding.first, out)?;
    append_shown(alloc, &finding.second, out)
}

/// Appends the volume line, where a volume is short.
fn append_short(alloc: Global, short: &Option<Short>, out: &mut Vec<u8>) -> Result<(), NoMemory>
    ensures { OnOk result
        (out.new.items ≡ out.old.items ++ line_if_there text.volume_line short.now) }
{
    match short {
        Some(short) => append_volume_line(alloc, short, out),
        None => Ok(()),
    }
}

/// Appends the line of what shows a finding, where something does.
fn append_shown(alloc: Global, shown: &Option<Shown>, out: &mut Vec<u8>) -> Result<(), NoMemory>
    ensures { OnOk result
        (out.new.items ≡ out.old.items ++ line_if_there text.shown_line shown.now) }
{
    match shown {
        Some(shown) => append_shown_line(alloc, shown, out),
        None => Ok(()),
    }
}

/// The line that says that a log could not be read.
pub fn read_fault_text(log: Which) -> &'static [u8]
    ensures { result.now ≡ text.read_fault_line log }
{
    match log {
        Which::Orders => b"readfault,orders\n",
        Which::Trades => b"readfault,trades\n",
    }
}

/// The line that says that a log has more bytes than the program reads.
pub fn too_long_text(log: Which) -> &'static [u8]
    ensures { result.now ≡ text.too_long_line log }
{
    match log {
        Which::Orders => b"toolong,orders\n",
        Which::Trades => b"toolong,trades\n",
    }
}

/// The line that says how the command line is used.
pub fn usage_text() -> &'static [u8]
    ensures { result.now ≡ text.auditor_usage_line }
{
    b"usage: audit RULE SYMBOL ORDERS TRADES \
      | expect RULE SYMBOL ORDERS \
      | convert orders|trades csv|fix PATH \
      | generate START COUNT \
      | certify RULE SYMBOL ORDERS TRADES \
      | verify SYMBOL ORDERS TRADES CERTIFICATE \
      | session SYMBOL PHASES ORDERS TRADES\n"
}
