//! The page of a verdict, from its heading to its digests.
ghost use Rattle.std.specs.Prelude.{◌≡◌, ◌++◌, IfOk};
ghost use Rattle.page_parts.specs.VerdictPages as spec;

use crate::documents::page_of;
use crate::elements::{with_section, with_text_element};
use crate::evidence::evidence_table;
use crate::repeats::{PageLogs, repeat_of};
use crate::sentences::{
    SymbolTotals, VerdictInWords, answer_sentence, heading_of, totals_sentence,
};
use audit_base::faults::NoMemory;
use audit_base::findings::Finding;
use page_markup::markup::Markup;
use page_markup::words::Tag;
use std::alloc::Global;

/// With the totals behind it, where they are known.
fn with_totals(
    alloc: Global,
    made: Markup,
    totals: &Option<SymbolTotals>,
) -> Result<Markup, NoMemory>
    ensures { IfOk result (λ more. more ≡ made ++ spec.totals_part totals.now) }
{
    match totals {
        Some(totals) => {
            let words = totals_sentence(alloc, totals)?;
            with_text_element(alloc, made, Tag::Paragraph, &words)
        }
        None => Ok(made),
    }
}

/// With what shows a finding behind it, where there is one.
fn with_evidence(alloc: Global, made: Markup, finding: &Option<Finding>) -> Result<Markup, NoMemory>
    ensures { IfOk result (λ more. more ≡ made ++ spec.evidence_part finding.now) }
{
    match finding {
        Some(finding) => {
            let table = evidence_table(alloc, finding)?;
            with_section(alloc, made, b"What shows it", &table)
        }
        None => Ok(made),
    }
}

/// The answer, under this title.
fn answer_part(alloc: Global, title: &[u8], said: &VerdictInWords) -> Result<Markup, NoMemory>
    ensures { IfOk result (λ made. made ≡ spec.answer_part title.now said.now) }
{
    let sentence = answer_sentence(alloc, &said.finding)?;
    let made = with_text_element(alloc, Markup::new(alloc), Tag::H1, title)?;
    let made = with_text_element(alloc, made, Tag::Paragraph, &sentence)?;
    with_totals(alloc, made, &said.totals)
}

/// The chief part of the page, under this title.
fn verdict_part(
    alloc: Global,
    title: &[u8],
    said: &VerdictInWords,
    picture: &Markup,
    logs: &PageLogs<'_>,
) -> Result<Markup, NoMemory>
    ensures { IfOk result (λ made. made ≡ spec.verdict_part title.now said.now picture.now logs.now) }
{
    let made = answer_part(alloc, title, said)?;
    let made = with_evidence(alloc, made, &said.finding)?;
    let made = made.with_markup(picture)?;
    let repeat = repeat_of(alloc, said, logs)?;
    with_section(alloc, made, b"How to see it again", &repeat)
}

/// The text of the page of a verdict. `picture` is the section that has the picture of the rule,
/// and no markup where there is none. Err only out of memory.
pub fn verdict_page(
    alloc: Global,
    said: &VerdictInWords,
    picture: &Markup,
    logs: &PageLogs<'_>,
) -> Result<Vec<u8>, NoMemory>
    ensures { IfOk result
        (λ text. spec.IsVerdictPage said.now picture.now logs.now text.items) }
{
    let title = heading_of(alloc, said)?;
    let main = verdict_part(alloc, &title, said, picture, logs)?;
    page_of(alloc, &title, &main)
}
