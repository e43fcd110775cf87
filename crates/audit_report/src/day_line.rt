//! The first line of a day.
ghost use Rattle.std.specs.Prelude.{◌≡◌, ◌++◌, OnOk};
ghost use Rattle.audit_report.specs.DayTexts.{day_line};

use crate::line_parts::{LinePart, append_line};
use audit_base::faults::NoMemory;
use std::alloc::Global;

/// How many symbols of a day were judged, and what came of it.
#[derive(Clone, Copy, Debug, PartialEq, Eq)]
pub struct DayCounts {
    pub symbols: u64,
    pub accepted: u64,
    pub rejected: u64,
}

/// `day,SYMBOLS,ACCEPTED,REJECTED,RULE`, with what the symbols were judged by in the place of
/// RULE: the word of a rule, or the phases of a day. After `NoMemory` nothing is known of
/// `out`.
pub fn append_day_line(
    alloc: Global,
    counts: DayCounts,
    question_text: &[u8],
    out: &mut Vec<u8>,
) -> Result<(), NoMemory>
    ensures { OnOk result (out.new.items ≡ out.old.items ++ day_line counts question_text.now) }
{
    let parts = [
        LinePart::Number(u128::from(counts.symbols)),
        LinePart::Number(u128::from(counts.accepted)),
        LinePart::Number(u128::from(counts.rejected)),
        LinePart::Word(question_text),
    ];
    append_line(alloc, b"day", &parts, out)
}
