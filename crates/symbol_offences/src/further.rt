//! All trades that fail a further check, as they are told. After `NoMemory` nothing is known of
//! `out`.
ghost use Rattle.std.specs.Prelude.{◌≡◌, ◌++◌, OnOk};
ghost use Rattle.std.specs.List.{flat_map};
ghost use Rattle.symbol_offences.specs.OffenceLines.{failure_lines, quoted_failure};
ghost use Rattle.symbol_offences.specs.SymbolBeforeRule.{AreInLogOrder};

use crate::quotes::append_further_quotes;
use crate::symbol_before_rule::QuotedRecords;
use audit_base::faults::NoMemory;
use further_checks::findings::FurtherFinding;
use further_checks::texts::append_further_line;
use offence_list::offence_lines::append_count_line;
use std::alloc::Global;

/// The line of a finding, and the records that it quotes.
fn append_failure(
    alloc: Global,
    quoted: &QuotedRecords,
    finding: &FurtherFinding,
    out: &mut Vec<u8>,
) -> Result<(), NoMemory>
    requires { AreInLogOrder quoted.now }
    ensures { let lines = quoted_failure quoted.now finding.now in
        OnOk result (out.new.items ≡ out.old.items ++ lines) }
{
    append_further_line(alloc, b"offence", finding, out)?;
    append_further_quotes(alloc, quoted, finding, out)
}

/// The lines of all findings.
fn append_each(
    alloc: Global,
    quoted: &QuotedRecords,
    found: &[FurtherFinding],
    out: &mut Vec<u8>,
) -> Result<(), NoMemory>
    requires { AreInLogOrder quoted.now }
    ensures { let lines = flat_map (quoted_failure quoted.now) found.now in
        OnOk result (out.new.items ≡ out.old.items ++ lines) }
{
    for finding in found {
        append_failure(alloc, quoted, finding, out)?;
    }
    Ok(())
}

/// The lines of all findings, and how many there are.
pub(crate) fn append_failures(
    alloc: Global,
    quoted: &QuotedRecords,
    found: &[FurtherFinding],
    out: &mut Vec<u8>,
) -> Result<(), NoMemory>
    requires { AreInLogOrder quoted.now }
    ensures { let lines = failure_lines quoted.now found.now in
        OnOk result (out.new.items ≡ out.old.items ++ lines) }
{
    append_each(alloc, quoted, found, out)?;
    append_count_line(alloc, found.len(), out)
}
