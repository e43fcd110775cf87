//! The words of a casebook, read by hand: exactly the well-formed words are taken.
ghost use Rattle.std.specs.Prelude.{◌≡◌, ◌+◌, ◌<◌, ◌≤◌, None, Some, drop, length, map, IfOk, IsErrOf};
ghost use Rattle.std.specs.String.{string_bytes};
ghost use Rattle.case_run.specs.Commands as spec;

use super::commands::{CaseCommand, Filing};
use audit_base::faults::NoMemory;
use audit_base::findings::Property;
use case_keeper::case::{Filter, Mark};
use command_words::paths::path_of;
use command_words::requests::WordsFault;
use command_words::word_forms::{form_named, is_path, is_word, rule_named, symbol_named, word_at};
use std::alloc::Global;

/// The property of a history or of trades, looked at before any rule, that the word names.
fn log_property(word: &str) -> Option<Property>
    ensures { result ≡ spec.log_property word.now }
{
    if is_word(word, Property::DuplicateId.word()) {
        return Some(Property::DuplicateId);
    }
    if is_word(word, Property::TimeBack.word()) {
        return Some(Property::TimeBack);
    }
    if is_word(word, Property::UnknownTarget.word()) {
        return Some(Property::UnknownTarget);
    }
    if is_word(word, Property::InstantOrder.word()) {
        return Some(Property::InstantOrder);
    }
    if is_word(word, Property::Unpaired.word()) {
        return Some(Property::Unpaired);
    }
    if is_word(word, Property::DuplicateTrade.word()) {
        return Some(Property::DuplicateTrade);
    }
    if is_word(word, Property::UnknownOrder.word()) {
        return Some(Property::UnknownOrder);
    }
    None
}

/// The property of a rule that the word names.
fn rule_property(word: &str) -> Option<Property>
    ensures { result ≡ spec.rule_property word.now }
{
    if is_word(word, Property::Inactive.word()) {
        return Some(Property::Inactive);
    }
    if is_word(word, Property::Limit.word()) {
        return Some(Property::Limit);
    }
    if is_word(word, Property::UniformPrice.word()) {
        return Some(Property::UniformPrice);
    }
    if is_word(word, Property::BuyQuantity.word()) {
        return Some(Property::BuyQuantity);
    }
    if is_word(word, Property::SellQuantity.word()) {
        return Some(Property::SellQuantity);
    }
    if is_word(word, Property::BuyPriority.word()) {
        return Some(Property::BuyPriority);
    }
    if is_word(word, Property::SellPriority.word()) {
        return Some(Property::SellPriority);
    }
    if is_word(word, Property::Volume.word()) {
        return Some(Property::Volume);
    }
    if is_word(word, Property::Spread.word()) {
        return Some(Property::Spread);
    }
    None
}

/// The property that the word names, one of sixteen.
fn property_named(word: &str) -> Option<Property>
    ensures { result ≡ spec.property_named word.now }
{
    match log_property(word) {
        Some(property) => Some(property),
        None => rule_property(word),
    }
}

/// How audits ended that the word names: `accepted`, or the word of a property.
fn mark_named(word: &str) -> Option<Mark>
    ensures { result ≡ spec.mark_named word.now }
{
    if is_word(word, b"accepted") {
        return Some(Mark::Accepted);
    }
    match property_named(word) {
        Some(property) => Some(Mark::Broken(property)),
        None => None,
    }
}

/// The filter of the symbol that the word is, and of a mark.
fn filter_of(word: &str, mark: Option<Mark>) -> Option<Filter>
    ensures { result ≡ spec.filter_of word.now mark }
{
    let symbol = symbol_named(word)?;
    Some(Filter {
        symbol: Some(symbol),
        mark,
    })
}

/// The filter that the words after `list` name.
fn filter_named(words: &[String]) -> Option<Filter>
    ensures { result ≡ spec.filter_named (map string_bytes words.now) }
{
    let Some((symbol, rest)) = words.split_first() else {
        return Some(Filter {
            symbol: None,
            mark: None,
        });
    };
    let Some((result, rest)) = rest.split_first() else {
        return filter_of(symbol.as_str(), None);
    };
    if !rest.is_empty() {
        return None;
    }
    let mark = mark_named(result.as_str())?;
    filter_of(symbol.as_str(), Some(mark))
}

/// The filter, where the words are `list` and what may follow it.
fn list_filter(words: &[String]) -> Option<Filter>
    ensures { result ≡ spec.list_filter (map string_bytes words.now) }
{
    let (word, rest) = words.split_first()?;
    if !is_word(word.as_str(), b"list") {
        return None;
    }
    filter_named(rest)
}

/// `file LABEL RULE SYMBOL FORM ORDERS TRADES`.
fn file_command(alloc: Global, words: &[String]) -> Result<Option<CaseCommand>, NoMemory>
    ensures { IfOk result (λ made. made ≡ spec.file_command (map string_bytes words.now)) }
{
    if words.len() != 7 || !is_word(word_at(words, 0), b"file") {
        return Ok(None);
    }
    if !is_path(word_at(words, 5)) || !is_path(word_at(words, 6)) {
        return Ok(None);
    }
    let Some(label) = symbol_named(word_at(words, 1)) else {
        return Ok(None);
    };
    let Some(rule) = rule_named(word_at(words, 2)) else {
        return Ok(None);
    };
    let Some(symbol) = symbol_named(word_at(words, 3)) else {
        return Ok(None);
    };
    let Some(form) = form_named(word_at(words, 4)) else {
        return Ok(None);
    };
    Ok(Some(CaseCommand::File(Filing {
        label,
        rule,
        symbol,
        form,
        orders: path_of(alloc, word_at(words, 5))?,
        trades: path_of(alloc, word_at(words, 6))?,
    })))
}

/// `show LABEL`.
fn show_command(words: &[String]) -> Option<CaseCommand>
    ensures { result ≡ spec.show_command (map string_bytes words.now) }
{
    if words.len() != 2 || !is_word(word_at(words, 0), b"show") {
        return None;
    }
    let label = symbol_named(word_at(words, 1))?;
    Some(CaseCommand::Show(label))
}

/// The command that the words ask for: `file LABEL RULE SYMBOL FORM ORDERS TRADES`, `list`, `list
/// SYMBOL`, `list SYMBOL RESULT`, or `show LABEL`. RESULT is `accepted` or the word of a property.
/// `Usage` comes only where they are not well-formed.
fn read_command(alloc: Global, words: &[String]) -> Result<CaseCommand, WordsFault>
    ensures command { IfOk result
        (λ command. spec.command_of (map string_bytes words.now) ≡ Some command) }
    ensures usage { IsErrOf result WordsFault.Usage
        → spec.command_of (map string_bytes words.now) ≡ None }
{
    if let Some(command) = file_command(alloc, words)? {
        return Ok(command);
    }
    if let Some(filter) = list_filter(words) {
        return Ok(CaseCommand::List(filter));
    }
    match show_command(words) {
        Some(command) => Ok(command),
        None => Err(WordsFault::Usage),
    }
}

/// Whether the word is the one between two commands.
fn is_then(word: &str) -> bool
    ensures { result ≡ spec.is_then word.now }
{
    is_word(word, b"then")
}

/// How many words are before the first `then`.
fn part_length(words: &[String]) -> usize
    ensures length { result ≡ spec.part_length (map string_bytes words.now) }
    ensures inside { result ≤ length words.now }
{
    let mut rest = words;
    let mut count = 0;
    while let Some((word, more)) = rest.split_first() {
        if is_then(word.as_str()) {
            return count;
        }
        rest = more;
        count += 1;
    }
    count
}

/// The words after the one at an index.
fn words_after(words: &[String], index: usize) -> &[String]
    requires { index < length words.now }
    ensures { result.now ≡ drop (index + 1) words.now }
{
    &words[index + 1..]
}

/// The commands that the words ask for: one or more, with the word `then` between them. `Usage`
/// comes exactly where they are not well-formed, out of memory aside.
pub(crate) fn read_commands(alloc: Global, words: &[String]) -> Result<Vec<CaseCommand>, WordsFault>
    ensures commands { IfOk result
        (λ commands. spec.commands_of (map string_bytes words.now) ≡ Some commands.items) }
    ensures usage { IsErrOf result WordsFault.Usage
        → spec.commands_of (map string_bytes words.now) ≡ None }
{
    let mut commands = Vec::new(alloc);
    let mut rest = words;
    'parts: loop {
        let count = part_length(rest);
        let command = read_command(alloc, &rest[..count])?;
        if commands.push(command).is_err() {
            return Err(WordsFault::Memory);
        }
        if count == rest.len() {
            return Ok(commands);
        }
        rest = words_after(rest, count);
    }
}
