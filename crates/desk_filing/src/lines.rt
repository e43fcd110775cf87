//! The lines of filing and checking, beside those of a casebook.
ghost use Rattle.std.specs.Prelude.{◌≡◌, IfOk};
ghost use Rattle.audit_report.specs.Texts.{verdict_text};
ghost use Rattle.audit_report.specs.declared.verdicts.Verdict.TheVariants as verdict;
ghost use Rattle.case_run.specs.Lines.{no_case_line};
ghost use Rattle.desk_filing.specs.Lines as text;
ghost use Rattle.desk_filing.specs.Steps.{case_lines};
ghost use Rattle.symbol_offences.specs.OffenceLines.{absent_line};

use crate::differences::CaseDifference;
use audit_base::faults::NoMemory;
use audit_base::findings::Finding;
use audit_base::names::Name;
use audit_report::line_parts::{LinePart, append_line};
use audit_report::reports::report_text;
use audit_report::verdicts::Verdict;
use case_run::lines::{append_case_line, append_no_case_line};
use digest_keeper::digested::DigestedCase;
use std::alloc::Global;

/// The lines of cases, in their order.
pub(crate) fn case_text(alloc: Global, cases: &[DigestedCase]) -> Result<Vec<u8>, NoMemory>
    ensures { IfOk result (λ made. made.items ≡ case_lines cases.now) }
{
    let mut made = Vec::new(alloc);
    for one in cases {
        append_case_line(alloc, &one.case, &mut made)?;
    }
    Ok(made)
}

/// `absent,SYMBOL`.
pub(crate) fn absent_text(alloc: Global, symbol: &Name) -> Result<Vec<u8>, NoMemory>
    ensures { IfOk result (λ made. made.items ≡ absent_line symbol.now) }
{
    let mut made = Vec::new(alloc);
    append_line(
        alloc,
        b"absent",
        &[LinePart::Word(symbol.bytes())],
        &mut made,
    )?;
    Ok(made)
}

/// `longlabel,SYMBOL`.
pub(crate) fn long_label_text(alloc: Global, symbol: &Name) -> Result<Vec<u8>, NoMemory>
    ensures { IfOk result (λ made. made.items ≡ text.long_label_line symbol.now) }
{
    let mut made = Vec::new(alloc);
    append_line(
        alloc,
        b"longlabel",
        &[LinePart::Word(symbol.bytes())],
        &mut made,
    )?;
    Ok(made)
}

/// `nocase,LABEL`.
pub(crate) fn no_case_text(alloc: Global, label: &Name) -> Result<Vec<u8>, NoMemory>
    ensures { IfOk result (λ made. made.items ≡ no_case_line label.now) }
{
    let mut made = Vec::new(alloc);
    append_no_case_line(alloc, label, &mut made)?;
    Ok(made)
}

/// `nodigest,LABEL`.
pub(crate) fn no_digest_text(alloc: Global, label: &Name) -> Result<Vec<u8>, NoMemory>
    ensures { IfOk result (λ made. made.items ≡ text.no_digest_line label.now) }
{
    let mut made = Vec::new(alloc);
    append_line(
        alloc,
        b"nodigest",
        &[LinePart::Word(label.bytes())],
        &mut made,
    )?;
    Ok(made)
}

/// `same,LABEL`, or `differs,LABEL` and what differs.
pub(crate) fn comparison_text(
    alloc: Global,
    label: &Name,
    difference: Option<CaseDifference>,
) -> Result<Vec<u8>, NoMemory>
    ensures { IfOk result (λ made. made.items ≡ text.comparison_line label.now difference) }
{
    let mut made = Vec::new(alloc);
    match difference {
        Some(what) => {
            let parts = [LinePart::Word(label.bytes()), LinePart::Word(what.word())];
            append_line(alloc, b"differs", &parts, &mut made)?;
        }
        None => append_line(alloc, b"same", &[LinePart::Word(label.bytes())], &mut made)?,
    }
    Ok(made)
}

/// The text of a finding that rejects.
pub(crate) fn finding_text(alloc: Global, finding: &Finding) -> Result<Vec<u8>, NoMemory>
    ensures { IfOk result (λ made. made.items ≡ verdict_text (verdict.Rejected finding.now)) }
{
    report_text(alloc, &Verdict::Rejected(*finding))
}
