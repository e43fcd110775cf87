//! The page of a day, from the day's text.
ghost use Rattle.std.specs.Prelude.{◌≡◌, ◌++◌, IfOk, OnOk};
ghost use Rattle.day_page.specs.DayPages as spec;

use crate::lines::{behind_commas, field_at, first_line, is_word};
use crate::rows::rows_of_text;
use audit_base::faults::NoMemory;
use page_markup::markup::Markup;
use page_markup::words::Tag;
use page_parts::cells::{TableColumn, head_of, table_of};
use page_parts::documents::page_of;
use page_parts::elements::with_text_element;
use std::alloc::Global;

const COLUMNS: [TableColumn; 7] = [
    TableColumn::Symbol,
    TableColumn::Answer,
    TableColumn::Log,
    TableColumn::Record,
    TableColumn::Orders,
    TableColumn::Trades,
    TableColumn::Volume,
];

/// Whether the first line counts symbols.
fn tells_symbols(line: &[u8]) -> bool
    ensures { result ≡ spec.tells_symbols line.now }
{
    is_word(field_at(line, 0), b"day")
}

/// What is asked of the day, by its first line: a rule, or phases.
fn asked_of_day(line: &[u8]) -> &[u8]
    ensures { result.now ≡ spec.asked_of_day line.now }
{
    behind_commas(line, 4)
}

/// The heading of the page.
fn day_heading(alloc: Global, line: &[u8]) -> Result<Vec<u8>, NoMemory>
    ensures { IfOk result (λ text. text.items ≡ spec.day_heading line.now) }
{
    if !tells_symbols(line) {
        return Ok(Vec::from_slice(alloc, b"Every symbol of the day")?);
    }
    let mut text = Vec::from_slice(alloc, b"Every symbol of the day by ")?;
    text.extend_from_slice(asked_of_day(line))?;
    Ok(text)
}

/// Appends words, and a field behind them.
fn append_counted(words: &[u8], digits: &[u8], out: &mut Vec<u8>) -> Result<(), NoMemory>
    ensures { OnOk result (out.new.items ≡ out.old.items ++ words.now ++ digits.now) }
{
    out.extend_from_slice(words)?;
    out.extend_from_slice(digits)?;
    Ok(())
}

/// The counts in a sentence.
fn counts_sentence(alloc: Global, line: &[u8]) -> Result<Vec<u8>, NoMemory>
    ensures { IfOk result (λ text. text.items ≡ spec.counts_sentence line.now) }
{
    let mut text = Vec::new(alloc);
    append_counted(b"Symbols: ", field_at(line, 1), &mut text)?;
    append_counted(b". Accepted: ", field_at(line, 2), &mut text)?;
    append_counted(b". Rejected: ", field_at(line, 3), &mut text)?;
    text.extend_from_slice(b".")?;
    Ok(text)
}

/// The sentence that reports do not pair, up to the place.
#[tactic(auto, unfolding(crate::specs::DayPages::unpaired_front))]
fn unpaired_front() -> &'static [u8]
    ensures { result.now ≡ spec.unpaired_front }
{
    b"The reports of the trade log do not pair: record "
}

/// The same behind the place.
#[tactic(auto, unfolding(crate::specs::DayPages::unpaired_end))]
fn unpaired_end() -> &'static [u8]
    ensures { result.now ≡ spec.unpaired_end }
{
    b" of the trade log is one that does not agree with the first of its trade, \
      or one that has no second (unpaired)."
}

/// That the reports do not pair, in a sentence.
fn unpaired_sentence(alloc: Global, line: &[u8]) -> Result<Vec<u8>, NoMemory>
    ensures { IfOk result (λ text. text.items ≡ spec.unpaired_sentence line.now) }
{
    let mut text = Vec::from_slice(alloc, unpaired_front())?;
    text.extend_from_slice(field_at(line, 3))?;
    text.extend_from_slice(unpaired_end())?;
    Ok(text)
}

/// What the first line says, in a sentence.
fn day_sentence(alloc: Global, line: &[u8]) -> Result<Vec<u8>, NoMemory>
    ensures { IfOk result (λ text. text.items ≡ spec.day_sentence line.now) }
{
    if tells_symbols(line) {
        return counts_sentence(alloc, line);
    }
    unpaired_sentence(alloc, line)
}

/// What the table is about.
#[tactic(auto, unfolding(crate::specs::DayPages::day_caption))]
fn day_caption() -> &'static [u8]
    ensures { result.now ≡ spec.day_caption }
{
    b"The symbols, in the order of their numbers"
}

/// The head of the table.
#[tactic(auto, unfolding(crate::specs::DayPages::day_head))]
fn day_head(alloc: Global) -> Result<Markup, NoMemory>
    ensures { IfOk result (λ made. made ≡ spec.day_head) }
{
    head_of(alloc, &COLUMNS)
}

/// The table of the symbols that a text tells of.
fn day_table(alloc: Global, text: &[u8]) -> Result<Markup, NoMemory>
    ensures { IfOk result (λ made. made ≡ spec.day_table text.now) }
{
    let head = day_head(alloc)?;
    let rows = rows_of_text(alloc, asked_of_day(first_line(text)), text)?;
    table_of(alloc, day_caption(), &head, &rows)
}

/// The same, where the first line of the text counts symbols.
fn table_if_told(alloc: Global, text: &[u8]) -> Result<Markup, NoMemory>
    ensures { IfOk result (λ made. made ≡ spec.table_if_told text.now) }
{
    if tells_symbols(first_line(text)) {
        return day_table(alloc, text);
    }
    Ok(Markup::new(alloc))
}

/// The chief part of the page, under this title.
fn day_part(alloc: Global, title: &[u8], text: &[u8]) -> Result<Markup, NoMemory>
    ensures { IfOk result (λ made. made ≡ spec.day_part title.now text.now) }
{
    let sentence = day_sentence(alloc, first_line(text))?;
    let table = table_if_told(alloc, text)?;
    let made = with_text_element(alloc, Markup::new(alloc), Tag::H1, title)?;
    let made = with_text_element(alloc, made, Tag::Paragraph, &sentence)?;
    made.with_markup(&table)
}

/// The page of the day with this text: its counts in a sentence, and a table with a row for each
/// symbol; or that the reports of the trade log do not pair, where that is the text. Err only out
/// of memory.
pub fn page_of_day_text(alloc: Global, text: &[u8]) -> Result<Vec<u8>, NoMemory>
    ensures { IfOk result (λ page. spec.IsPageOfDayText text.now page.items) }
{
    let title = day_heading(alloc, first_line(text))?;
    let main = day_part(alloc, &title, text)?;
    page_of(alloc, &title, &main)
}
