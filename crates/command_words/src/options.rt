//! The options of a command: they follow its positional words, in any order, each at most once,
//! and the value of an option is the next word.
ghost use Rattle.std.specs.Prelude.{◌≡◌, map};
ghost use Rattle.std.specs.String.{string_bytes};
ghost use Rattle.command_words.specs.Options as spec;

use super::word_forms::{form_named, is_word};
use audit_base::terms::Form;

/// What options say.
#[derive(Clone, Copy)]
pub struct Options {
    /// The form of the order log, if one is given.
    pub orders_form: Option<Form>,
    /// The form of the trade log, if one is given.
    pub trades_form: Option<Form>,
    /// Whether `--table` is given.
    pub table: bool,
}

/// The form of a log: csv where none is given.
pub fn or_csv(form: Option<Form>) -> Form
    ensures { result ≡ spec.or_csv form }
{
    form.unwrap_or(Form::Csv)
}

/// Nothing is said.
pub fn no_options() -> Options
    ensures { result ≡ spec.no_options }
{
    Options {
        orders_form: None,
        trades_form: None,
        table: false,
    }
}

/// Whether the word is an option that has no value.
pub fn is_table_option(word: &str) -> bool
    ensures { result ≡ spec.is_table_option word.now }
{
    is_word(word, b"--table")
}

/// What is said with `--table` too, unless it was said before.
pub fn with_table(said: Options) -> Option<Options>
    ensures { result ≡ spec.with_table said }
{
    if said.table {
        return None;
    }
    Some(Options {
        table: true,
        ..said
    })
}

/// What is said with the form of the order log too, unless one was given before.
fn with_orders_form(said: Options, form: Form) -> Option<Options>
    ensures { result ≡ spec.with_orders_form said form }
{
    if said.orders_form.is_some() {
        return None;
    }
    Some(Options {
        orders_form: Some(form),
        ..said
    })
}

/// What is said with the form of the trade log too, unless one was given before.
fn with_trades_form(said: Options, form: Form) -> Option<Options>
    ensures { result ≡ spec.with_trades_form said form }
{
    if said.trades_form.is_some() {
        return None;
    }
    Some(Options {
        trades_form: Some(form),
        ..said
    })
}

/// What is said with an option and its value too.
pub fn with_form_option(word: &str, value: &str, said: Options) -> Option<Options>
    ensures { result ≡ spec.with_form_option word.now value.now said }
{
    if is_word(word, b"--orders-form") {
        return with_orders_form(said, form_named(value)?);
    }
    if is_word(word, b"--trades-form") {
        return with_trades_form(said, form_named(value)?);
    }
    None
}

/// What these words say as options. There is nothing where a word is no option, a value is
/// missing, or an option is given twice.
pub fn options_in(words: &[String]) -> Option<Options>
    ensures { result ≡ spec.options_in (map string_bytes words.now) }
{
    let Some((word, rest)) = words.split_first() else {
        return Some(no_options());
    };
    if is_table_option(word.as_str()) {
        return with_table(options_in(rest)?);
    }
    let (value, rest) = rest.split_first()?;
    with_form_option(word.as_str(), value.as_str(), options_in(rest)?)
}
