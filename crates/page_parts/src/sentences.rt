//! The answer in words: the heading of the page, what was broken and by which record, and the
//! totals.
ghost use Rattle.std.specs.Prelude.{◌≡◌, ◌++◌, IfOk, OnOk, decimal};
ghost use Rattle.page_parts.specs.Sentences as spec;

use crate::wording::{broken_words, log_words};
use audit_base::faults::NoMemory;
use audit_base::findings::{Finding, Short};
use audit_base::names::Name;
use audit_base::terms::Rule;
use audit_base::texts::write_number;
use std::alloc::Global;

/// What the symbol has in the two logs.
#[derive(Clone, Copy, Debug, PartialEq, Eq)]
pub struct SymbolTotals {
    pub orders: u32,
    pub trades: u32,
    pub volume: u128,
}

/// A verdict, as a page tells it.
#[derive(Clone, Copy, Debug)]
pub struct VerdictInWords {
    pub rule: Rule,
    pub symbol: Name,
    /// The finding; none where the log is accepted.
    pub finding: Option<Finding>,
    /// None where they are not known.
    pub totals: Option<SymbolTotals>,
}

/// What the verdict is.
fn answer_word(finding: &Option<Finding>) -> &'static [u8]
    ensures { result.now ≡ spec.answer_word finding.now }
{
    match finding {
        Some(_) => b": rejected",
        None => b": accepted",
    }
}

/// The heading of the page.
pub fn heading_of(alloc: Global, said: &VerdictInWords) -> Result<Vec<u8>, NoMemory>
    ensures { IfOk result (λ text. text.items ≡ spec.verdict_heading said.now) }
{
    let mut text = Vec::from_slice(alloc, b"Symbol ")?;
    text.extend_from_slice(said.symbol.bytes())?;
    text.extend_from_slice(b" under the rule ")?;
    text.extend_from_slice(said.rule.word())?;
    text.extend_from_slice(answer_word(&said.finding))?;
    Ok(text)
}

/// Appends a number, and words behind it.
fn append_number_and(
    alloc: Global,
    number: u128,
    words: &[u8],
    out: &mut Vec<u8>,
) -> Result<(), NoMemory>
    ensures { OnOk result (out.new.items ≡ out.old.items ++ decimal number ++ words.now) }
{
    write_number(alloc, number, out)?;
    out.extend_from_slice(words)?;
    Ok(())
}

/// Appends the sentence of a record that breaks a property.
fn append_broken(alloc: Global, finding: &Finding, out: &mut Vec<u8>) -> Result<(), NoMemory>
    ensures { OnOk result (out.new.items ≡ out.old.items ++ spec.broken_sentence finding.now) }
{
    out.extend_from_slice(b"Record ")?;
    append_number_and(alloc, u128::from(finding.place), b" of the ", out)?;
    out.extend_from_slice(log_words(finding.log))?;
    out.extend_from_slice(b" ")?;
    out.extend_from_slice(broken_words(finding.property))?;
    out.extend_from_slice(b" (")?;
    out.extend_from_slice(finding.property.word())?;
    out.extend_from_slice(b").")?;
    Ok(())
}

/// Appends the sentence of a volume that is not the greatest.
fn append_volume(alloc: Global, short: &Short, out: &mut Vec<u8>) -> Result<(), NoMemory>
    ensures { OnOk result (out.new.items ≡ out.old.items ++ spec.volume_sentence short.now) }
{
    out.extend_from_slice(b"The volume is not the greatest (volume): ")?;
    append_number_and(alloc, short.reached, b" traded, ", out)?;
    append_number_and(alloc, short.greatest, b" possible.", out)
}

/// Appends the sentence of a finding.
fn append_finding(alloc: Global, finding: &Finding, out: &mut Vec<u8>) -> Result<(), NoMemory>
    ensures { OnOk result (out.new.items
        ≡ out.old.items ++ spec.finding_sentence finding.now finding.now.short) }
{
    match &finding.short {
        Some(short) => append_volume(alloc, short, out),
        None => append_broken(alloc, finding, out),
    }
}

/// Appends that the trades conform.
fn append_conforms(out: &mut Vec<u8>) -> Result<(), NoMemory>
    ensures { OnOk result (out.new.items ≡ out.old.items ++ spec.conforming_sentence) }
{
    out.extend_from_slice(b"The trades conform to the rule.")?;
    Ok(())
}

/// Appends the answer in a sentence.
fn append_answer(
    alloc: Global,
    finding: &Option<Finding>,
    out: &mut Vec<u8>,
) -> Result<(), NoMemory>
    ensures { OnOk result (out.new.items ≡ out.old.items ++ spec.answer_sentence finding.now) }
{
    match finding {
        Some(finding) => append_finding(alloc, finding, out),
        None => append_conforms(out),
    }
}

/// The answer in a sentence.
pub fn answer_sentence(alloc: Global, finding: &Option<Finding>) -> Result<Vec<u8>, NoMemory>
    ensures { IfOk result (λ text. text.items ≡ spec.answer_sentence finding.now) }
{
    let mut text = Vec::new(alloc);
    append_answer(alloc, finding, &mut text)?;
    Ok(text)
}

/// The sentence of the totals.
pub fn totals_sentence(alloc: Global, totals: &SymbolTotals) -> Result<Vec<u8>, NoMemory>
    ensures { IfOk result (λ text. text.items ≡ spec.totals_sentence totals.now) }
{
    let mut text = Vec::from_slice(alloc, b"Orders: ")?;
    append_number_and(alloc, u128::from(totals.orders), b". Trades: ", &mut text)?;
    append_number_and(alloc, u128::from(totals.trades), b". Volume: ", &mut text)?;
    append_number_and(alloc, totals.volume, b".", &mut text)?;
    Ok(text)
}
