//! The lines that say what came of a certificate, each appended by a function of its own.
//! After `NoMemory` nothing is known of `out`.
ghost use Rattle.std.specs.Prelude.{◌≡◌, ◌++◌, OnOk};
ghost use Rattle.audit_report.specs.Certificates as text;

use super::line_parts::{LinePart, append_line};
use audit_base::faults::NoMemory;
use audit_base::names::Name;
use audit_base::terms::Rule;
use std::alloc::Global;

/// `verified,RULE,SYMBOL,VOLUME`.
pub fn append_verified_line(
    alloc: Global,
    rule: Rule,
    symbol: &Name,
    volume: u128,
    out: &mut Vec<u8>,
) -> Result<(), NoMemory>
    ensures { let line = text.verified_line rule symbol.now volume in
        OnOk result (out.new.items ≡ out.old.items ++ line) }
{
    let parts = [
        LinePart::Word(rule.word()),
        LinePart::Word(symbol.bytes()),
        LinePart::Number(volume),
    ];
    append_line(alloc, b"verified", &parts, out)
}

/// `refused,LINE`, the number of the first line of the certificate that does not agree.
pub fn append_refused_line(alloc: Global, line: u32, out: &mut Vec<u8>) -> Result<(), NoMemory>
    ensures { OnOk result (out.new.items ≡ out.old.items ++ text.refused_line line) }
{
    append_line(
        alloc,
        b"refused",
        &[LinePart::Number(u128::from(line))],
        out,
    )
}
