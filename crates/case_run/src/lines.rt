//! The lines of a casebook, each appended by a function of its own. After `NoMemory` nothing is
//! known of `out`.
ghost use Rattle.std.specs.Prelude.{◌≡◌, ◌++◌, None, Some, OnOk};
ghost use Rattle.case_run.specs.Lines as text;

use audit_base::faults::NoMemory;
use audit_base::names::Name;
use audit_report::line_parts::{LinePart, append_line};
use audit_report::words::log_word;
use case_keeper::case::{Case, Offence};
use std::alloc::Global;

/// How the command line is used: a line.
pub fn usage_text() -> &'static [u8]
    ensures { result.now ≡ text.casebook_usage_line }
{
    b"usage: DATABASE file LABEL RULE SYMBOL FORM ORDERS TRADES | list [SYMBOL [RESULT]] | show LABEL, joined by then\n"
}

/// `keeperfault`.
pub fn keeper_fault_text() -> &'static [u8]
    ensures { result.now ≡ text.keeper_fault_line }
{
    b"keeperfault\n"
}

/// `known`.
pub fn append_known_line(alloc: Global, out: &mut Vec<u8>) -> Result<(), NoMemory>
    ensures { OnOk result (out.new.items ≡ out.old.items ++ text.known_line) }
{
    append_line(alloc, b"known", &[], out)
}

/// `nocase,LABEL`.
pub fn append_no_case_line(alloc: Global, label: &Name, out: &mut Vec<u8>) -> Result<(), NoMemory>
    ensures { OnOk result (out.new.items ≡ out.old.items ++ text.no_case_line label.now) }
{
    append_line(alloc, b"nocase", &[LinePart::Word(label.bytes())], out)
}

/// `case,LABEL,RULE,SYMBOL,accepted` or `case,LABEL,RULE,SYMBOL,PROPERTY,LOG,PLACE`.
pub fn append_case_line(alloc: Global, case: &Case, out: &mut Vec<u8>) -> Result<(), NoMemory>
    ensures { OnOk result (out.new.items ≡ out.old.items ++ text.case_line case.now) }
{
    match case.offence {
        Some(offence) => append_broken(alloc, case, offence, out),
        None => append_accepted(alloc, case, out),
    }
}

/// `case,LABEL,RULE,SYMBOL,accepted`.
fn append_accepted(alloc: Global, case: &Case, out: &mut Vec<u8>) -> Result<(), NoMemory>
    ensures { OnOk result (out.new.items ≡ out.old.items ++ text.case_line_with case.now None) }
{
    let parts = [
        LinePart::Word(case.label.bytes()),
        LinePart::Word(case.rule.word()),
        LinePart::Word(case.symbol.bytes()),
        LinePart::Word(b"accepted"),
    ];
    append_line(alloc, b"case", &parts, out)
}

/// `case,LABEL,RULE,SYMBOL,PROPERTY,LOG,PLACE`.
fn append_broken(
    alloc: Global,
    case: &Case,
    offence: Offence,
    out: &mut Vec<u8>,
) -> Result<(), NoMemory>
    ensures { let line = text.case_line_with case.now (Some offence) in
        OnOk result (out.new.items ≡ out.old.items ++ line) }
{
    let parts = [
        LinePart::Word(case.label.bytes()),
        LinePart::Word(case.rule.word()),
        LinePart::Word(case.symbol.bytes()),
        LinePart::Word(offence.property.word()),
        LinePart::Word(log_word(offence.log)),
        LinePart::Number(u128::from(offence.place)),
    ];
    append_line(alloc, b"case", &parts, out)
}
