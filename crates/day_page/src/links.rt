//! Which symbols of a day have a page of their own by the question of the day.
ghost use Rattle.std.specs.Prelude.{◌≡◌};
ghost use Rattle.std.specs.List.{list_any};
ghost use Rattle.audit_base.specs.Words.{rule_word};
ghost use Rattle.day_page.specs.DayLines as line;
ghost use Rattle.day_page.specs.Links as spec;

use crate::lines::is_word;
use crate::property_words::property_of_word;
use audit_base::terms::Rule;

const RULES: [Rule; 5] = [
    Rule::Matching,
    Rule::Fair,
    Rule::Uniform,
    Rule::Maximum,
    Rule::Continuous,
];

/// Whether a rule has this word.
fn has_word(rule: &Rule, word: &[u8]) -> bool
    ensures { result ≡ line.is_word word.now (rule_word rule.now) }
{
    is_word(word, rule.word())
}

/// Whether one of these rules has this word.
fn is_among(rules: &[Rule], word: &[u8]) -> bool
    ensures { result ≡ list_any (λ rule. line.is_word word.now (rule_word rule)) rules.now }
{
    rules.iter().any(|rule| has_word(rule, word))
}

/// Whether what is asked of the day is a rule, not phases.
fn is_rule(asked: &[u8]) -> bool
    ensures { result ≡ spec.is_rule asked.now }
{
    is_among(&RULES, asked)
}

/// Whether the rule itself rejects a symbol of which this property is told.
fn is_of_rule(property: &[u8]) -> bool
    ensures { result ≡ spec.is_of_rule property.now }
{
    property_of_word(property).is_some()
}

/// Whether a word of a command can name the symbol.
fn may_be_asked(symbol: &[u8]) -> bool
    ensures { result ≡ spec.may_be_asked symbol.now }
{
    match symbol {
        [] => true,
        [first, ..] => *first != b'-',
    }
}

/// Whether a rejected symbol has a page by what is asked of the day: a page is of a rule alone, and
/// of a symbol that a word can name.
pub(crate) fn has_page(asked: &[u8], symbol: &[u8], property: &[u8]) -> bool
    ensures { result ≡ spec.has_page asked.now symbol.now property.now }
{
    is_rule(asked) && is_of_rule(property) && may_be_asked(symbol)
}
