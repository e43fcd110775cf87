//! What is wrong with the options of a command: the first of them that is no option of it, is
//! given twice, or has no value or one that it may not have; and else the first that does not go
//! with the rule or with another one.
ghost use Rattle.std.specs.Prelude.{◌<◌, length};

use crate::option_parts::{OptionPart, option_named};
use audit_base::terms::Rule;

/// What is wrong with options.
#[derive(Clone, Copy)]
pub(crate) enum OptionFault<'a> {
    /// The word is no option of the command.
    Unknown(&'a str),
    /// The option is given twice, the second time with this value, where it has one.
    Twice(OptionPart, Option<&'a str>),
    /// The option has no value behind it.
    NoValue(OptionPart),
    /// The option may not have this value.
    Value(OptionPart, &'a str),
    /// The option does not go with the rule.
    Rule(OptionPart),
    /// Both options do not go together.
    Both(OptionPart, OptionPart),
    /// The first option does not go without the other.
    Alone(OptionPart, OptionPart),
}

/// Whether an option is among words that are options of a command and their values.
fn is_given(known: &[OptionPart], words: &[String], wanted: OptionPart) -> bool {
    let mut is_value = false;
    for word in words {
        if is_value {
            is_value = false;
        } else if let Some(option) = option_named(known, word.as_str()) {
            if option == wanted {
                return true;
            }
            is_value = option.value().is_some();
        }
    }
    false
}

/// The word at a place, where there is one.
fn word_from(words: &[String], place: usize) -> Option<&str> {
    match words.get(place) {
        Some(word) => Some(word.as_str()),
        None => None,
    }
}

/// What is wrong with an option by itself that stands at a place of the words.
fn fault_at<'a>(
    known: &[OptionPart],
    words: &'a [String],
    place: usize,
    option: OptionPart,
) -> Option<OptionFault<'a>>
    requires { place < length words.now }
{
    let value = word_from(words, place + 1);
    if is_given(known, &words[..place], option) {
        return Some(OptionFault::Twice(option, option.value().and_then(|_| value)));
    }
    let part = option.value()?;
    match value {
        None => Some(OptionFault::NoValue(option)),
        Some(word) if part.takes(word) => None,
        Some(word) => Some(OptionFault::Value(option, word)),
    }
}

/// What is wrong with the first option that is wrong by itself.
fn lone_fault<'a>(known: &[OptionPart], words: &'a [String]) -> Option<OptionFault<'a>> {
    let mut is_value = false;
    for place in 0..words.len() {
        if is_value {
            is_value = false;
        } else {
            let word = words[place].as_str();
            let Some(option) = option_named(known, word) else {
                return Some(OptionFault::Unknown(word));
            };
            let fault = fault_at(known, words, place, option);
            if fault.is_some() {
                return fault;
            }
            is_value = option.value().is_some();
        }
    }
    None
}

/// What is wrong with an option beside the rule.
fn rule_fault<'a>(
    known: &[OptionPart],
    words: &'a [String],
    rule: Rule,
) -> Option<OptionFault<'a>> {
    for option in known {
        if !option.fits_rule(rule) && is_given(known, words, *option) {
            return Some(OptionFault::Rule(*option));
        }
    }
    None
}

/// What is wrong where both of two options are given.
fn both_fault<'a>(
    known: &[OptionPart],
    words: &'a [String],
    first: OptionPart,
    other: OptionPart,
) -> Option<OptionFault<'a>> {
    if is_given(known, words, first) && is_given(known, words, other) {
        return Some(OptionFault::Both(first, other));
    }
    None
}

/// What is wrong where an option is given without `--lines`.
fn without_lines_fault<'a>(
    known: &[OptionPart],
    words: &'a [String],
    option: OptionPart,
) -> Option<OptionFault<'a>> {
    if is_given(known, words, option) && !is_given(known, words, OptionPart::Lines) {
        return Some(OptionFault::Alone(option, OptionPart::Lines));
    }
    None
}

/// What is wrong with an option beside the others.
fn pair_fault<'a>(known: &[OptionPart], words: &'a [String]) -> Option<OptionFault<'a>> {
    let fault = both_fault(known, words, OptionPart::Table, OptionPart::Page);
    if fault.is_some() {
        return fault;
    }
    for option in [OptionPart::Soh, OptionPart::Skip, OptionPart::Bad] {
        let fault = without_lines_fault(known, words, option);
        if fault.is_some() {
            return fault;
        }
    }
    both_fault(known, words, OptionPart::Skip, OptionPart::Bad)
}

/// What is wrong with these words as options of a command, by a rule where it has one.
pub(crate) fn option_fault<'a>(
    known: &[OptionPart],
    words: &'a [String],
    rule: Option<Rule>,
) -> Option<OptionFault<'a>> {
    let fault = lone_fault(known, words);
    if fault.is_some() {
        return fault;
    }
    if let Some(rule) = rule {
        let fault = rule_fault(known, words, rule);
        if fault.is_some() {
            return fault;
        }
    }
    pair_fault(known, words)
}
