//! How a verdict is seen again: the words of a command, and the digests of both logs.
ghost use Rattle.std.specs.Prelude.{◌≡◌, ◌++◌, IfOk, OnOk};
ghost use Rattle.std.specs.List.{flat_map};
ghost use Rattle.page_parts.specs.Repeats as spec;
ghost use Rattle.page_parts.specs.ShellWords.{next_word};

use crate::elements::with_text_element;
use crate::sentences::VerdictInWords;
use crate::shell_words::append_word;
use audit_base::faults::NoMemory;
use audit_base::terms::Form;
use page_markup::markup::Markup;
use page_markup::words::Tag;
use std::alloc::Global;

/// The two logs of a page: their paths and forms, and their digests in hexadecimal digits.
#[derive(Clone, Copy, Debug)]
pub struct PageLogs<'a> {
    pub orders: &'a [u8],
    pub trades: &'a [u8],
    pub orders_form: Form,
    pub trades_form: Form,
    pub orders_digest: &'a [u8],
    pub trades_digest: &'a [u8],
}

/// Appends the words of the option that names the form of a log, which CSV needs not.
fn append_form(option: &[u8], form: Form, out: &mut Vec<u8>) -> Result<(), NoMemory>
    ensures { OnOk result (out.new.items
        ≡ out.old.items ++ flat_map next_word (spec.form_option option.now form)) }
{
    match form {
        Form::Csv => Ok(()),
        Form::Fix => {
            append_word(option, out)?;
            append_word(b"fix", out)
        }
    }
}

/// Appends the options of both logs.
fn append_forms(logs: &PageLogs<'_>, out: &mut Vec<u8>) -> Result<(), NoMemory>
    ensures { OnOk result
        (out.new.items ≡ out.old.items ++ flat_map next_word (spec.form_options logs.now)) }
{
    append_form(b"--orders-form", logs.orders_form, out)?;
    append_form(b"--trades-form", logs.trades_form, out)
}

/// The command that gives the verdict.
fn command_text(
    alloc: Global,
    said: &VerdictInWords,
    logs: &PageLogs<'_>,
) -> Result<Vec<u8>, NoMemory>
    ensures { IfOk result (λ text. text.items ≡ spec.command_text said.now logs.now) }
{
    let mut text = Vec::from_slice(alloc, b"desk")?;
    append_word(b"offences", &mut text)?;
    append_word(said.rule.word(), &mut text)?;
    append_word(said.symbol.bytes(), &mut text)?;
    append_word(logs.orders, &mut text)?;
    append_word(logs.trades, &mut text)?;
    append_forms(logs, &mut text)?;
    Ok(text)
}

/// With the digest of a log behind it.
fn with_digest(alloc: Global, made: Markup, words: &[u8], digits: &[u8]) -> Result<Markup, NoMemory>
    ensures { IfOk result (λ more. more ≡ made ++ spec.digest_part words.now digits.now) }
{
    let made = with_text_element(alloc, made, Tag::Paragraph, words)?;
    with_text_element(alloc, made, Tag::Code, digits)
}

/// How the verdict is seen again.
pub fn repeat_of(
    alloc: Global,
    said: &VerdictInWords,
    logs: &PageLogs<'_>,
) -> Result<Markup, NoMemory>
    ensures { IfOk result (λ made. made ≡ spec.repeat_text said.now logs.now) }
{
    let command = command_text(alloc, said, logs)?;
    let made = with_text_element(alloc, Markup::new(alloc), Tag::Code, &command)?;
    let made = with_digest(alloc, made, b"SHA-256 of the order log", logs.orders_digest)?;
    with_digest(alloc, made, b"SHA-256 of the trade log", logs.trades_digest)
}
