//! How the messages of a day are dressed, as the words after DAY say it: nothing, or `--lines`, and
//! with it `--soh TEXT`, and one of `--skip` and `--bad`, in any order.
ghost use Rattle.std.specs.Prelude.{◌≡◌, length, map, option_map, IfOk, IfSome, IsErr, IsSome};
ghost use Rattle.std.specs.List.{list_all};
ghost use Rattle.std.specs.Char.{is_ascii_graphic};
ghost use Rattle.std.specs.String.{string_bytes};
ghost use Rattle.desk_words.specs.DressWords as spec;

use audit_base::faults::NoMemory;
use command_words::word_forms::is_word;
use std::alloc::Global;
use std::marker::Model;

/// A word that stands for SOH in the messages of a day. Contracts see the list of its bytes.
#[derive(Drop)]
pub struct SohWord {
    text: String,
}

impl Model for SohWord {
    ghost use Rattle.std.specs.Prelude.{ℕ, List};
    ghost use Rattle.std.specs.String.{string_bytes};

    ghost Value = { List ℕ };

    ghost view = { λ w. string_bytes w.text };
}

impl SohWord {
    /// The bytes of the word.
    pub fn as_bytes(&self) -> &[u8]
        ensures { result.now ≡ self.now }
    {
        self.text.as_bytes()
    }
}

/// How the messages of a day are dressed.
#[derive(Drop)]
pub enum DayDress {
    /// One right after another.
    Framed,
    /// Each on a line, behind anything. A word of 1 to 5 bytes from 0x21 to 0x7E stands for SOH,
    /// if one is given.
    OnLines(Option<SohWord>, BadMessages),
}

/// What is done with bad messages on lines.
#[derive(Clone, Copy, Debug, PartialEq, Eq)]
pub enum BadMessages {
    /// The first one ends the day.
    EndDay,
    /// They are left out: each line is read alone.
    LeftOut,
    /// They are reported, and no message is written: each line is read alone.
    Reported,
}

/// Whether each byte is from 0x21 to 0x7E.
fn are_graphic(text: &[u8]) -> bool
    ensures { result ≡ list_all is_ascii_graphic text.now }
{
    text.iter().all(u8::is_ascii_graphic)
}

/// Whether the word may stand for SOH: 1 to 5 bytes from 0x21 to 0x7E.
fn is_soh_word(word: &str) -> bool
    ensures { result ≡ spec.is_soh_word word.now }
{
    let text = word.as_bytes();
    1 <= text.len() && text.len() <= 5 && are_graphic(text)
}

/// Whether the word is the option `--lines`.
fn is_lines_option(word: &str) -> bool
    ensures { result ≡ spec.is_lines_option word.now }
{
    is_word(word, b"--lines")
}

/// What is done with bad messages, as an option says it.
fn bad_messages_named(word: &str) -> Option<BadMessages>
    ensures { result ≡ spec.bad_messages_named word.now }
{
    if is_word(word, b"--skip") {
        return Some(BadMessages::LeftOut);
    }
    if is_word(word, b"--bad") {
        return Some(BadMessages::Reported);
    }
    None
}

/// What options say of the messages of a day.
#[derive(Clone, Copy)]
struct DressOptions<'a> {
    /// Whether each message is on a line.
    lines: bool,
    /// What stands for SOH, if it is given.
    soh: Option<&'a str>,
    /// What is done with bad messages, if it is said.
    bad: Option<BadMessages>,
}

/// Whether the word is an option that has no value.
#[tactic(auto, unfolding(crate::specs::DressWords::is_lone_dress_option))]
fn is_lone_option(word: &str) -> bool
    ensures { result ≡ spec.is_lone_dress_option word.now }
{
    is_lines_option(word) || bad_messages_named(word).is_some()
}

/// What is said with `--lines` too, unless it was said before.
fn with_lines(said: DressOptions<'_>) -> Option<DressOptions<'_>>
    ensures said { option_map spec.said_of_day result
        ≡ spec.with_lines (spec.said_of_day said.entry) }
    ensures fit { spec.IsSohWordIfGiven (spec.said_of_day said.entry).soh
        → IfSome result (λ made. spec.IsSohWordIfGiven (spec.said_of_day made).soh) }
{
    if said.lines {
        return None;
    }
    Some(DressOptions {
        lines: true,
        ..said
    })
}

/// What is said with `--skip` or `--bad` too, unless one of them was said before.
fn with_bad_messages<'a>(word: &str, said: DressOptions<'a>) -> Option<DressOptions<'a>>
    ensures said { option_map spec.said_of_day result
        ≡ spec.with_bad_messages word.now (spec.said_of_day said.entry) }
    ensures fit { spec.IsSohWordIfGiven (spec.said_of_day said.entry).soh
        → IfSome result (λ made. spec.IsSohWordIfGiven (spec.said_of_day made).soh) }
{
    if said.bad.is_some() {
        return None;
    }
    let bad = bad_messages_named(word)?;
    Some(DressOptions {
        bad: Some(bad),
        ..said
    })
}

/// What is said with an option that has no value too, unless it was said before.
#[tactic(auto, unfolding(crate::specs::DressWords::with_lone_dress_option))]
fn with_lone_option<'a>(word: &str, said: DressOptions<'a>) -> Option<DressOptions<'a>>
    ensures said { option_map spec.said_of_day result
        ≡ spec.with_lone_dress_option word.now (spec.said_of_day said.entry) }
    ensures fit { spec.IsSohWordIfGiven (spec.said_of_day said.entry).soh
        → IfSome result (λ made. spec.IsSohWordIfGiven (spec.said_of_day made).soh) }
{
    if is_lines_option(word) {
        return with_lines(said);
    }
    with_bad_messages(word, said)
}

/// What is said with `--soh TEXT` too, unless a text was given before.
fn with_soh<'a>(word: &str, text: &'a str, said: DressOptions<'a>) -> Option<DressOptions<'a>>
    ensures said { option_map spec.said_of_day result
        ≡ spec.with_soh word.now text.now (spec.said_of_day said.entry) }
    ensures fit { IfSome result
        (λ made. spec.IsSohWordIfGiven (spec.said_of_day made).soh) }
{
    if !is_word(word, b"--soh") || !is_soh_word(text) || said.soh.is_some() {
        return None;
    }
    Some(DressOptions {
        soh: Some(text),
        ..said
    })
}

/// What these words say as options of `plain`. There is nothing where a word is no option, a value
/// is missing or not well-formed, an option is given twice, or `--skip` with `--bad`.
fn said_in(words: &[String]) -> Option<DressOptions<'_>>
    ensures said { option_map spec.said_of_day result ≡ spec.said_in (map string_bytes words.now) }
    ensures fit { IfSome result
        (λ made. spec.IsSohWordIfGiven (spec.said_of_day made).soh) }
{
    let Some((word, rest)) = words.split_first() else {
        return Some(DressOptions {
            lines: false,
            soh: None,
            bad: None,
        });
    };
    if is_lone_option(word.as_str()) {
        return with_lone_option(word.as_str(), said_in(rest)?);
    }
    let (value, rest) = rest.split_first()?;
    with_soh(word.as_str(), value.as_str(), said_in(rest)?)
}

/// The word that stands for SOH, where one is given.
fn soh_word(alloc: Global, text: Option<&str>) -> Result<Option<SohWord>, NoMemory>
    ensures { IfOk result (λ made. made ≡ option_map (λ text. text.now) text.entry) }
{
    match text {
        Some(text) => Ok(Some(SohWord {
            text: String::from_str(alloc, text)?,
        })),
        None => Ok(None),
    }
}

/// How the messages of a day are dressed, by the words after DAY. There is nothing, and no memory
/// is taken, where these are no options of `plain` (`said_in`), or another one is given without
/// `--lines`.
pub(crate) fn dress_named(alloc: Global, words: &[String]) -> Result<Option<DayDress>, NoMemory>
    ensures dress { IfOk result (λ made. made ≡ spec.dress_named (map string_bytes words.now)) }
    ensures memory { IsErr result → IsSome (spec.dress_named (map string_bytes words.now)) }
    ensures asked { IfOk result (λ made. IfSome made spec.HasSohWord) }
{
    let Some(said) = said_in(words) else {
        return Ok(None);
    };
    if !said.lines {
        let alone = said.soh.is_none() && said.bad.is_none();
        return Ok(alone.then_some(DayDress::Framed));
    }
    let soh = soh_word(alloc, said.soh)?;
    let bad = said.bad.unwrap_or(BadMessages::EndDay);
    Ok(Some(DayDress::OnLines(soh, bad)))
}
