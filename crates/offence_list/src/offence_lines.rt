//! The line of an offence, and that of how many there are. After `NoMemory` nothing is
//! known of `out`.
ghost use Rattle.std.specs.Prelude.{◌≡◌, ◌++◌, OnOk};
ghost use Rattle.offence_list.specs.OffenceTexts as text;

use audit_base::faults::NoMemory;
use audit_base::findings::Finding;
use audit_report::line_parts::{LinePart, append_line};
use audit_report::words::log_word;
use std::alloc::Global;

/// `offence,PROPERTY,LOG,PLACE`, of a finding.
pub fn append_offence_line(
    alloc: Global,
    finding: &Finding,
    out: &mut Vec<u8>,
) -> Result<(), NoMemory>
    ensures { OnOk result (out.new.items ≡ out.old.items ++ text.offence_line finding.now) }
{
    let parts = [
        LinePart::Word(finding.property.word()),
        LinePart::Word(log_word(finding.log)),
        LinePart::Number(u128::from(finding.place)),
    ];
    append_line(alloc, b"offence", &parts, out)
}

/// `offences,COUNT`.
pub fn append_count_line(alloc: Global, count: usize, out: &mut Vec<u8>) -> Result<(), NoMemory>
    ensures { OnOk result (out.new.items ≡ out.old.items ++ text.count_line count) }
{
    append_line(alloc, b"offences", &[LinePart::Number(count as u128)], out)
}
