//! The options of a command of `desk`: they follow its positional words, in any order, each at
//! most once, and the value of an option is the next word.
ghost use Rattle.std.specs.Prelude.{◌≡◌, map};
ghost use Rattle.std.specs.String.{string_bytes};
ghost use Rattle.desk_words.specs.Options as spec;

use super::further_words::{is_check_option, with_check};
use super::share_words::share_named;
use command_words::options::{Options, is_table_option, no_options, with_form_option, with_table};
use command_words::word_forms::is_word;
use day_symbols::shares::DayShare;
use further_checks::findings::FurtherChecks;

/// What options say.
#[derive(Clone, Copy)]
pub(crate) struct DeskOptions {
    /// What the options say that `auditor` has too.
    pub(crate) common: Options,
    /// The share of the day, if one is given.
    pub(crate) share: Option<DayShare>,
    /// Which of the further checks are asked for.
    pub(crate) checks: FurtherChecks,
    /// Whether the text is to be written as a page.
    pub(crate) page: bool,
}

/// Nothing is said.
fn no_desk_options() -> DeskOptions
    ensures { result ≡ spec.no_desk_options }
{
    DeskOptions {
        common: no_options(),
        share: None,
        checks: FurtherChecks::none(),
        page: false,
    }
}

/// What is said with `--table` too, unless it was said before.
fn with_day_table(said: DeskOptions) -> Option<DeskOptions>
    ensures { result ≡ spec.with_day_table said }
{
    let common = with_table(said.common)?;
    Some(DeskOptions { common, ..said })
}

/// What is said with a further check too, unless it was asked for before.
fn with_day_check(word: &str, said: DeskOptions) -> Option<DeskOptions>
    ensures { result ≡ spec.with_day_check word.now said }
{
    let checks = with_check(word, said.checks)?;
    Some(DeskOptions { checks, ..said })
}

/// Whether the word asks for a page.
fn is_page_option(word: &str) -> bool
    ensures { result ≡ spec.is_page_option word.now }
{
    is_word(word, b"--page")
}

/// What is said with `--page` too, unless it was said before.
fn with_day_page(said: DeskOptions) -> Option<DeskOptions>
    ensures { result ≡ spec.with_day_page said }
{
    if said.page {
        return None;
    }
    Some(DeskOptions { page: true, ..said })
}

/// Whether the word is an option that has no value.
#[tactic(auto, unfolding(crate::specs::Options::is_lone_option))]
fn is_lone_option(word: &str) -> bool
    ensures { result ≡ spec.is_lone_option word.now }
{
    is_table_option(word) || is_page_option(word) || is_check_option(word)
}

/// What is said with such an option too, unless it was said before.
#[tactic(auto, unfolding(crate::specs::Options::with_lone_option))]
fn with_lone_option(word: &str, said: DeskOptions) -> Option<DeskOptions>
    ensures { result ≡ spec.with_lone_option word.now said }
{
    if is_table_option(word) {
        return with_day_table(said);
    }
    if is_page_option(word) {
        return with_day_page(said);
    }
    with_day_check(word, said)
}

/// What is said with a share too, unless one was given before.
fn with_share(said: DeskOptions, share: DayShare) -> Option<DeskOptions>
    ensures { result ≡ spec.with_share said share }
{
    if said.share.is_some() {
        return None;
    }
    Some(DeskOptions {
        share: Some(share),
        ..said
    })
}

/// What is said with an option and its value too.
fn with_value_option(word: &str, value: &str, said: DeskOptions) -> Option<DeskOptions>
    ensures { result ≡ spec.with_value_option word.now value.now said }
{
    if is_word(word, b"--share") {
        return with_share(said, share_named(value)?);
    }
    let common = with_form_option(word, value, said.common)?;
    Some(DeskOptions { common, ..said })
}

/// Whether not both a table and a page are asked for.
pub(crate) fn is_table_or_page(said: &DeskOptions) -> bool
    ensures { result ≡ spec.is_table_or_page said.now }
{
    !(said.common.table && said.page)
}

/// What these words say as options. There is nothing where a word is no option, a value is
/// missing, or an option is given twice.
pub(crate) fn desk_options_in(words: &[String]) -> Option<DeskOptions>
    ensures { result ≡ spec.desk_options_in (map string_bytes words.now) }
{
    let Some((word, rest)) = words.split_first() else {
        return Some(no_desk_options());
    };
    if is_lone_option(word.as_str()) {
        return with_lone_option(word.as_str(), desk_options_in(rest)?);
    }
    let (value, rest) = rest.split_first()?;
    with_value_option(word.as_str(), value.as_str(), desk_options_in(rest)?)
}
