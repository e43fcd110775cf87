//! The text of the contents of two logs: how many messages or records of each kind each has, which
//! kinds ask for attention, how many symbols the records have, and from when to when they are.
ghost use Rattle.std.specs.Prelude.{◌≡◌, ◌<◌, ◌++◌, ◌∷◌, [], ℕ, List, IfOk, OnOk, codes, length, slice_index_or};
ghost use Rattle.audit_base.specs.Stamps.{stamp_text};
ghost use Rattle.audit_report.specs.Lines.{line_text, log_word};
ghost use Rattle.day_symbols.specs.Symbols.{distinct_names};
ghost use Rattle.log_contents.specs.Counts.{HasCounted};
ghost use Rattle.log_contents.specs.Summaries.{IsSummaryOf, LogItems};
ghost use Rattle.log_contents.specs.Texts as spec;

use crate::kind_counts::KindCounts;
use crate::summaries::Summary;
use crate::time_spans::TimeSpan;
use audit_base::faults::NoMemory;
use audit_base::field_texts::stamp_text;
use audit_base::terms::Which;
use audit_report::line_parts::{LinePart, append_line};
use audit_report::words::log_word;
use day_symbols::symbols::Symbols;
use std::alloc::Global;

/// Execution types (tag 150) of reports that are passed over and change what of an order may trade.
#[tactic(auto, unfolding(crate::specs::Texts::attention_types))]
fn attention_types() -> &'static [u8]
    ensures { result.now ≡ spec.attention_types }
{
    b"1234589CDGH"
}

/// What the kind of a report of another execution type begins with.
#[tactic(auto, unfolding(crate::specs::Texts::execution_front))]
fn execution_front() -> &'static [u8]
    ensures { result.now ≡ spec.execution_front }
{
    b"passed:150="
}

/// Appends `LOG,KIND,COUNT`.
fn append_counted_line(
    alloc: Global,
    log: Which,
    kind: &[u8],
    count: u32,
    out: &mut Vec<u8>,
) -> Result<(), NoMemory>
    ensures { OnOk result
        (out.new.items ≡ out.old.items ++ spec.counted_line log kind.now count) }
{
    let parts = [LinePart::Word(kind), LinePart::Number(u128::from(count))];
    append_line(alloc, log_word(log), &parts, out)
}

/// Appends a line for each kind of a log, in the order in which each was counted first.
fn append_kind_lines(
    alloc: Global,
    log: Which,
    kinds: &KindCounts,
    out: &mut Vec<u8>,
) -> Result<(), NoMemory>
    ensures { (list : List (List ℕ)) → HasCounted kinds.now list
        → OnOk result (out.new.items ≡ out.old.items ++ spec.kind_lines log list) }
{
    for index in 0..kinds.len() {
        append_counted_line(alloc, log, kinds.kind_at(index), kinds.count_at(index), out)?;
    }
    Ok(())
}

/// Whether the kind asks for attention: `passed:150=V` with one of those types V.
fn needs_attention(kind: &[u8]) -> bool
    ensures { result ≡ spec.needs_attention kind.now }
{
    if kind.len() != 12 || !kind.starts_with(execution_front()) {
        return false;
    }
    attention_types().contains(&kind[11])
}

/// Appends `attention,LOG,150=V,COUNT`, if the kind `passed:150=V` asks for attention.
fn append_attention_line(
    alloc: Global,
    log: Which,
    kind: &[u8],
    count: u32,
    out: &mut Vec<u8>,
) -> Result<(), NoMemory>
    ensures { OnOk result
        (out.new.items ≡ out.old.items ++ spec.attention_line_if_needed log kind.now count) }
{
    if !needs_attention(kind) {
        return Ok(());
    }
    let parts = [
        LinePart::Word(log_word(log)),
        LinePart::Word(&kind[7..]),
        LinePart::Number(u128::from(count)),
    ];
    append_line(alloc, b"attention", &parts, out)
}

/// Appends such a line for each kind of a log that asks for attention.
fn append_attention_lines(
    alloc: Global,
    log: Which,
    kinds: &KindCounts,
    out: &mut Vec<u8>,
) -> Result<(), NoMemory>
    ensures { (list : List (List ℕ)) → HasCounted kinds.now list
        → OnOk result (out.new.items ≡ out.old.items ++ spec.attention_lines log list) }
{
    for index in 0..kinds.len() {
        append_attention_line(alloc, log, kinds.kind_at(index), kinds.count_at(index), out)?;
    }
    Ok(())
}

/// Meets the symbol at an index of others.
fn meet_at(symbols: &mut Symbols, others: &Symbols, index: usize) -> Result<(), NoMemory>
    requires { index < length others.now }
    ensures { (names : List (List ℕ)) → symbols.old ≡ distinct_names names
        → OnOk result
        (symbols.new ≡ distinct_names (names ++ slice_index_or others.now index [] ∷ [])) }
{
    if let Some(name) = others.at(index) {
        symbols.meet(name)?;
    }
    Ok(())
}

/// How many symbols two logs have: those of the second are met after those of the first.
fn count_symbols(mut symbols: Symbols, others: &Symbols) -> Result<usize, NoMemory>
    ensures { (names more : List (List ℕ)) → symbols ≡ distinct_names names
        → others.now ≡ distinct_names more
        → IfOk result (λ count. count ≡ length (distinct_names (names ++ more))) }
{
    for index in 0..others.len() {
        meet_at(&mut symbols, others, index)?;
    }
    Ok(symbols.len())
}

/// Appends `symbols,N`.
fn append_symbols_line(alloc: Global, count: usize, out: &mut Vec<u8>) -> Result<(), NoMemory>
    ensures { OnOk result (out.new.items ≡ out.old.items ++ spec.symbols_line count) }
{
    append_line(alloc, b"symbols", &[LinePart::Number(count as u128)], out)
}

/// `FIRST,LAST`.
#[tactic(auto, using(std::proofs::Common::append_assoc))]
fn span_text(alloc: Global, span: TimeSpan) -> Result<Vec<u8>, NoMemory>
    ensures { IfOk result
        (λ text. text.items ≡ stamp_text span.first ++ 44 ∷ stamp_text span.last) }
{
    let mut text = stamp_text(alloc, span.first)?;
    let last = stamp_text(alloc, span.last)?;
    text.push(b',')?;
    text.extend_from_slice(&last)?;
    Ok(text)
}

/// Appends `times,LOG` and, after a comma, the text of a span.
fn append_span(alloc: Global, log: Which, span: &[u8], out: &mut Vec<u8>) -> Result<(), NoMemory>
    ensures { OnOk result (out.new.items
        ≡ out.old.items ++ line_text (codes "times" ∷ log_word log ∷ span.now ∷ [])) }
{
    append_line(
        alloc,
        b"times",
        &[LinePart::Word(log_word(log)), LinePart::Word(span)],
        out,
    )
}

/// Appends `times,LOG,FIRST,LAST`, if the log has records.
fn append_times_line(
    alloc: Global,
    log: Which,
    times: Option<TimeSpan>,
    out: &mut Vec<u8>,
) -> Result<(), NoMemory>
    ensures { OnOk result (out.new.items ≡ out.old.items ++ spec.times_line log times) }
{
    let Some(span) = times else {
        return Ok(());
    };
    let text = span_text(alloc, span)?;
    append_span(alloc, log, &text, out)
}

/// The text of the contents of two logs.
pub fn contents_text(alloc: Global, orders: Summary, trades: Summary) -> Result<Vec<u8>, NoMemory>
    ensures { (order_items trade_items : LogItems) → IsSummaryOf order_items orders
        → IsSummaryOf trade_items trades
        → IfOk result (λ text. spec.IsContentsText order_items trade_items text.items) }
{
    let mut text = Vec::new(alloc);
    append_kind_lines(alloc, Which::Orders, &orders.kinds, &mut text)?;
    append_kind_lines(alloc, Which::Trades, &trades.kinds, &mut text)?;
    append_attention_lines(alloc, Which::Orders, &orders.kinds, &mut text)?;
    append_attention_lines(alloc, Which::Trades, &trades.kinds, &mut text)?;
    let count = count_symbols(orders.symbols, &trades.symbols)?;
    append_symbols_line(alloc, count, &mut text)?;
    append_times_line(alloc, Which::Orders, orders.times, &mut text)?;
    append_times_line(alloc, Which::Trades, trades.times, &mut text)?;
    Ok(text)
}
