//! What single words of a command line are. Nothing here takes memory.
ghost use Rattle.std.specs.Prelude.{◌≡◌, ◌<◌, ◌≤◌, length, map, IfSome};
ghost use Rattle.std.specs.String.{string_bytes};
ghost use Rattle.command_words.specs.WordForms as spec;

use audit_base::digits::read_digits;
use audit_base::names::{Name, read_name};
use audit_base::terms::{Form, Rule, Which};

/// The word at a place, from 0.
pub fn word_at(words: &[String], place: usize) -> &str
    requires { place < length words.now }
    ensures { result.now ≡ spec.nth_word (map string_bytes words.now) place }
{
    words[place].as_str()
}

/// Whether the word is this text.
pub fn is_word(word: &str, text: &[u8]) -> bool
    ensures { result ≡ spec.word_equals word.now text.now }
{
    word.as_bytes() == text
}

/// Whether the word is read as an option.
fn is_option(word: &str) -> bool
    ensures { result ≡ spec.is_option word.now }
{
    match word.as_bytes() {
        [] => false,
        [first, ..] => *first == b'-',
    }
}

/// The symbol that the word is: a name that does not begin with `-`. None exactly for any other.
pub fn symbol_named(word: &str) -> Option<Name>
    ensures { result ≡ spec.symbol_named word.now }
{
    if is_option(word) {
        return None;
    }
    read_name(word.as_bytes())
}

/// Whether the word is a path: it has a byte, and does not begin with `-`.
pub fn is_path(word: &str) -> bool
    ensures { result ≡ spec.is_path word.now }
{
    !word.is_empty() && !is_option(word)
}

/// The rule whose word it is: `matching`, `fair`, `uniform`, `maximum` or `continuous`.
pub fn rule_named(word: &str) -> Option<Rule>
    ensures { result ≡ spec.rule_named word.now }
{
    if is_word(word, Rule::Matching.word()) {
        return Some(Rule::Matching);
    }
    if is_word(word, Rule::Fair.word()) {
        return Some(Rule::Fair);
    }
    if is_word(word, Rule::Uniform.word()) {
        return Some(Rule::Uniform);
    }
    if is_word(word, Rule::Maximum.word()) {
        return Some(Rule::Maximum);
    }
    if is_word(word, Rule::Continuous.word()) {
        return Some(Rule::Continuous);
    }
    None
}

/// The log that the word names, `orders` or `trades`.
pub fn log_named(word: &str) -> Option<Which>
    ensures { result ≡ spec.log_named word.now }
{
    if is_word(word, b"orders") {
        return Some(Which::Orders);
    }
    if is_word(word, b"trades") {
        return Some(Which::Trades);
    }
    None
}

/// The form that the word names, `csv` or `fix`.
pub fn form_named(word: &str) -> Option<Form>
    ensures { result ≡ spec.form_named word.now }
{
    if is_word(word, b"csv") {
        return Some(Form::Csv);
    }
    if is_word(word, b"fix") {
        return Some(Form::Fix);
    }
    None
}

/// The number from 1 to a greatest one that the word writes in 1 to 10 digits.
pub fn number_upto(word: &str, most: u32) -> Option<u32>
    ensures number { result ≡ spec.number_upto most word.now }
    ensures limits { IfSome result (λ number. (1 ≤ number) × (number ≤ most)) }
{
    let number = read_digits(word.as_bytes(), 10)?;
    if 1 <= number && number <= u64::from(most) {
        return Some(number as u32);
    }
    None
}

/// The number from 1 to a greatest one that the word writes, without zeros at its front.
pub fn unpadded_number(word: &str, most: u32) -> Option<u32>
    ensures { result ≡ spec.unpadded_number most word.now }
{
    match word.as_bytes() {
        [b'0', ..] => None,
        _ => number_upto(word, most),
    }
}
