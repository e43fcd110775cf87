//! A further finding as it is written.
ghost use Rattle.std.specs.Prelude.{◌≡◌, ◌++◌, OnOk};
ghost use Rattle.further_checks.specs.FurtherTexts as text;

use super::findings::FurtherFinding;
use audit_base::faults::NoMemory;
use audit_base::terms::Which;
use audit_report::line_parts::{LinePart, append_line};
use audit_report::lines::append_order_line;
use audit_report::words::log_word;
use std::alloc::Global;

/// `WORD,PROPERTY,trades,PLACE`, with a first word of the line. After `NoMemory` nothing is known
/// of `out`.
pub fn append_further_line(
    alloc: Global,
    word: &[u8],
    finding: &FurtherFinding,
    out: &mut Vec<u8>,
) -> Result<(), NoMemory>
    ensures { let line = text.further_line word.now finding.now in
        OnOk result (out.new.items ≡ out.old.items ++ line) }
{
    let parts = [
        LinePart::Word(finding.word()),
        LinePart::Word(log_word(Which::Trades)),
        LinePart::Number(u128::from(finding.place())),
    ];
    append_line(alloc, word, &parts, out)
}

/// The lines of the orders that are shown.
fn append_shown(alloc: Global, finding: &FurtherFinding, out: &mut Vec<u8>) -> Result<(), NoMemory>
    ensures { OnOk result
        (out.new.items ≡ out.old.items ++ text.further_shown_text finding.now) }
{
    match finding {
        FurtherFinding::RestingPrice {
            resting,
            incoming,
            ..
        } => {
            append_order_line(alloc, resting, out)?;
            append_order_line(alloc, incoming, out)
        }
        FurtherFinding::TradeTime { order, .. } => append_order_line(alloc, order, out),
    }
}

/// The rejected text of a further finding. After `NoMemory` nothing is known of `out`.
pub fn append_further_text(
    alloc: Global,
    finding: &FurtherFinding,
    out: &mut Vec<u8>,
) -> Result<(), NoMemory>
    ensures { OnOk result (out.new.items ≡ out.old.items ++ text.further_text finding.now) }
{
    append_further_line(alloc, b"rejected", finding, out)?;
    append_shown(alloc, finding, out)
}
