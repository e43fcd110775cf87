//! The lines of the summary of a generated log, each appended by a function of its own.
//! After `NoMemory` nothing is known of `out`.
ghost use Rattle.std.specs.Prelude.{◌≡◌, ◌++◌, OnOk};
ghost use Rattle.audit_report.specs.Summaries as text;
ghost use Rattle.audit_report.specs.Texts.{IsBoundInRange};

use super::line_parts::{LinePart, append, append_joined, append_line};
use audit_base::faults::NoMemory;
use audit_base::orders::Cut;
use audit_base::terms::Rule;
use audit_base::texts::write_price;
use std::alloc::Global;

/// `generated,START,COUNT`.
pub fn append_generated_line(
    alloc: Global,
    start: u32,
    count: u32,
    out: &mut Vec<u8>,
) -> Result<(), NoMemory>
    ensures { OnOk result (out.new.items ≡ out.old.items ++ text.generated_line start count) }
{
    let parts = [
        LinePart::Number(u128::from(start)),
        LinePart::Number(u128::from(count)),
    ];
    append_line(alloc, b"generated", &parts, out)
}

/// `RULE,TRADES,VOLUME,PRICE`, with the volume and the price of a bound.
/// The price may be 10^18 units, one more than any `Price`.
pub fn append_call_line(
    alloc: Global,
    rule: Rule,
    trades: u32,
    cut: &Cut,
    out: &mut Vec<u8>,
) -> Result<(), NoMemory>
    requires { IsBoundInRange cut.now }
    ensures { OnOk result (out.new.items ≡ out.old.items ++ text.call_line rule trades cut.now) }
{
    let parts = [
        LinePart::Number(u128::from(trades)),
        LinePart::Number(cut.volume),
    ];
    append_joined(alloc, rule.word(), &parts, out)?;
    append(b",", out)?;
    write_price(alloc, cut.price, out)?;
    append(b"\n", out)
}

/// `continuous,TRADES,VOLUME`.
pub fn append_continuous_line(
    alloc: Global,
    trades: u32,
    volume: u128,
    out: &mut Vec<u8>,
) -> Result<(), NoMemory>
    ensures { OnOk result (out.new.items ≡ out.old.items ++ text.continuous_line trades volume) }
{
    let parts = [
        LinePart::Number(u128::from(trades)),
        LinePart::Number(volume),
    ];
    append_line(alloc, Rule::Continuous.word(), &parts, out)
}
