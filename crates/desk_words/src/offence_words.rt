//! The words after those of `offences`: which records are quoted, and which further checks are
//! asked for. As every option, each at most once, in any order.
ghost use Rattle.std.specs.Prelude.{◌≡◌, map, IfSome, IsTrue};
ghost use Rattle.std.specs.String.{string_bytes};
ghost use Rattle.desk_words.specs.FurtherWords.{checks_fit_rule};
ghost use Rattle.desk_words.specs.OffenceWords as spec;

use super::further_words::{checks_fit_rule, is_check_option, with_check};
use audit_base::terms::Rule;
use command_words::options::{Options, no_options, with_form_option};
use command_words::word_forms::is_word;
use further_checks::findings::FurtherChecks;

/// What the options of `offences` say.
#[derive(Clone, Copy)]
pub(crate) struct OffenceOptions {
    /// The forms of the logs.
    pub(crate) forms: Options,
    /// Whether `--records` is given.
    pub(crate) records: bool,
    /// Which of the further checks are asked for.
    pub(crate) checks: FurtherChecks,
}

/// Nothing is said.
fn no_offence_options() -> OffenceOptions
    ensures { result ≡ spec.no_offence_options }
{
    OffenceOptions {
        forms: no_options(),
        records: false,
        checks: FurtherChecks::none(),
    }
}

/// Whether the word asks for the records.
fn is_records_option(word: &str) -> bool
    ensures { result ≡ spec.is_records_option word.now }
{
    is_word(word, b"--records")
}

/// Whether the word is an option that has no value.
fn is_flag(word: &str) -> bool
    ensures { result ≡ spec.is_flag word.now }
{
    is_records_option(word) || is_check_option(word)
}

/// What is said with `--records` too, unless it was said before.
fn with_records(said: OffenceOptions) -> Option<OffenceOptions>
    ensures { result ≡ spec.with_records said }
{
    if said.records {
        return None;
    }
    Some(OffenceOptions {
        records: true,
        ..said
    })
}

/// What is said with a further check too, unless it was asked for before.
fn with_offence_check(word: &str, said: OffenceOptions) -> Option<OffenceOptions>
    ensures { result ≡ spec.with_offence_check word.now said }
{
    let checks = with_check(word, said.checks)?;
    Some(OffenceOptions { checks, ..said })
}

/// What is said with an option without a value too, unless it was said before.
fn with_flag(word: &str, said: OffenceOptions) -> Option<OffenceOptions>
    ensures { result ≡ spec.with_flag word.now said }
{
    if is_records_option(word) {
        return with_records(said);
    }
    with_offence_check(word, said)
}

/// What is said with the form of a log too, unless one was given before.
fn with_form(word: &str, value: &str, said: OffenceOptions) -> Option<OffenceOptions>
    ensures { result ≡ spec.with_form word.now value.now said }
{
    let forms = with_form_option(word, value, said.forms)?;
    Some(OffenceOptions { forms, ..said })
}

/// What these words say as options. There is nothing where a word is no option, a value is
/// missing, or an option is given twice.
fn offence_options_in(words: &[String]) -> Option<OffenceOptions>
    ensures { result ≡ spec.offence_options_in (map string_bytes words.now) }
{
    let Some((word, rest)) = words.split_first() else {
        return Some(no_offence_options());
    };
    if is_flag(word.as_str()) {
        return with_flag(word.as_str(), offence_options_in(rest)?);
    }
    let (value, rest) = rest.split_first()?;
    with_form(word.as_str(), value.as_str(), offence_options_in(rest)?)
}

/// What these words say as options of `offences` by a rule: `--resting-price` only where that is
/// `continuous`.
pub(crate) fn options_under(rule: Rule, words: &[String]) -> Option<OffenceOptions>
    ensures options { result ≡ spec.options_under rule (map string_bytes words.now) }
    ensures fit { IfSome result (λ said. IsTrue (checks_fit_rule said.checks rule)) }
{
    let said = offence_options_in(words)?;
    if checks_fit_rule(said.checks, rule) {
        Some(said)
    } else {
        None
    }
}
