//! What is broken, in words, by the word that a report has for the property.
ghost use Rattle.std.specs.Prelude.{◌≡◌, ◌++◌, IfOk, OnOk, find, option_copied, option_map};
ghost use Rattle.audit_base.specs.Words.{property_word};
ghost use Rattle.page_parts.specs.Wording.{broken_words};
ghost use Rattle.day_page.specs.DayLines as line;
ghost use Rattle.day_page.specs.PropertyWords as spec;

use crate::lines::is_word;
use audit_base::faults::NoMemory;
use audit_base::findings::Property;
use page_parts::wording::broken_words;
use std::alloc::Global;

const PROPERTIES: [Property; 16] = [
    Property::DuplicateId,
    Property::TimeBack,
    Property::UnknownTarget,
    Property::Unpaired,
    Property::DuplicateTrade,
    Property::UnknownOrder,
    Property::Inactive,
    Property::Limit,
    Property::UniformPrice,
    Property::BuyQuantity,
    Property::SellQuantity,
    Property::BuyPriority,
    Property::SellPriority,
    Property::Volume,
    Property::Spread,
    Property::InstantOrder,
];

/// Whether a property has this word.
fn has_word(property: &Property, word: &[u8]) -> bool
    ensures { result ≡ line.is_word word.now (property_word property.now) }
{
    is_word(word, property.word())
}

/// The first of these properties that has this word.
fn find_property<'a>(properties: &'a [Property], word: &[u8]) -> Option<&'a Property>
    ensures { option_copied result
        ≡ find (λ one. line.is_word word.now (property_word one)) properties.now }
{
    properties.iter().find(|property| has_word(property, word))
}

/// The property that has this word.
pub(crate) fn property_of_word(word: &[u8]) -> Option<Property>
    ensures { result ≡ spec.property_of_word word.now }
{
    find_property(&PROPERTIES, word).copied()
}

/// What a record does that breaks the property of the rules that has this word.
fn rule_words(word: &[u8]) -> Option<&'static [u8]>
    ensures { option_map (λ words. words.now) result
        ≡ option_map broken_words (spec.property_of_word word.now) }
{
    match property_of_word(word) {
        Some(property) => Some(broken_words(property)),
        None => None,
    }
}

/// What a trade does that fails the further check of this word.
fn further_words(word: &[u8]) -> Option<&'static [u8]>
    ensures { option_map (λ words. words.now) result ≡ spec.further_words word.now }
{
    if is_word(word, b"resting-price") {
        return Some(b"trades at another price than the limit of its resting order");
    }
    if is_word(word, b"trade-time") {
        return Some(b"has an earlier time than the record of its bid or of its ask");
    }
    None
}

/// What a record does that breaks the property of this word; None where no property has it.
fn record_words(word: &[u8]) -> Option<&'static [u8]>
    ensures { option_map (λ words. words.now) result ≡ spec.record_words word.now }
{
    match rule_words(word) {
        Some(words) => Some(words),
        None => further_words(word),
    }
}

/// Whether the property of this word is that the volume is the greatest.
pub(crate) fn is_of_volume(word: &[u8]) -> bool
    ensures { result ≡ spec.is_of_volume word.now }
{
    is_word(word, b"volume")
}

/// Appends what a record breaks, or the word where nothing is known of it.
fn append_broken_by_record(word: &[u8], out: &mut Vec<u8>) -> Result<(), NoMemory>
    ensures { let words = spec.record_words word.now in OnOk result
        (out.new.items ≡ out.old.items ++ spec.broken_by_record word.now words) }
{
    match record_words(word) {
        Some(words) => {
            out.extend_from_slice(b"a record ")?;
            out.extend_from_slice(words)?;
        }
        None => out.extend_from_slice(word)?,
    }
    Ok(())
}

/// Appends what is broken.
fn append_what_is_broken(word: &[u8], out: &mut Vec<u8>) -> Result<(), NoMemory>
    ensures { OnOk result (out.new.items ≡ out.old.items ++ spec.what_is_broken word.now) }
{
    if is_of_volume(word) {
        out.extend_from_slice(b"the volume is not the greatest")?;
        return Ok(());
    }
    append_broken_by_record(word, out)
}

/// What is said of a symbol that is rejected, by the word of the property.
pub(crate) fn rejected_words(alloc: Global, word: &[u8]) -> Result<Vec<u8>, NoMemory>
    ensures { IfOk result (λ text. text.items ≡ spec.rejected_words word.now) }
{
    let mut text = Vec::from_slice(alloc, b"rejected: ")?;
    append_what_is_broken(word, &mut text)?;
    text.extend_from_slice(b" (")?;
    text.extend_from_slice(word)?;
    text.extend_from_slice(b")")?;
    Ok(text)
}
