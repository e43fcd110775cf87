//! The phases of a day, as one word of a command line gives them: parts `KIND@FIRST`, joined by
//! commas.
ghost use Rattle.std.specs.Prelude.{◌≡◌, ◌<◌, ◌∷◌, length, option_map, IfOk, IfSome, IsErr, IsSome};
ghost use Rattle.session_audit.specs.Phases.{ArePhases};
ghost use Rattle.command_words.specs.PhaseWords as spec;

use super::word_forms::{is_word, unpadded_number};
use audit_base::faults::NoMemory;
use session_audit::phases::{Phase, PhaseKind, PhaseList};
use std::alloc::Global;

/// How many phases a word may give.
const MOST_PHASES: usize = 64;

/// The kind of phase that the word names.
fn kind_named(word: &str) -> Option<PhaseKind>
    ensures { result ≡ spec.kind_named word.now }
{
    if is_word(word, b"uniform") {
        return Some(PhaseKind::Uniform);
    }
    if is_word(word, b"maximum") {
        return Some(PhaseKind::Maximum);
    }
    if is_word(word, b"continuous") {
        return Some(PhaseKind::Continuous);
    }
    None
}

/// The place, from 1 on, that the word writes without a zero at its front.
fn first_place_named(word: &str) -> Option<u32>
    ensures { result ≡ spec.first_place_named word.now }
{
    unpadded_number(word, u32::MAX)
}

/// The text before its first `@`, and the text after it.
fn cut_at_sign(text: &str) -> Option<(&str, &str)>
    ensures { option_map (λ cut. (cut.0.now, cut.1.now)) result ≡ spec.cut_at spec.is_at_sign text.now }
{
    text.split_once('@')
}

/// The text before its first comma, and the text after it.
fn cut_at_comma(text: &str) -> Option<(&str, &str)>
    ensures cut { option_map (λ cut. (cut.0.now, cut.1.now)) result
        ≡ spec.cut_at spec.is_comma text.now }
    ensures shorter { IfSome result (λ cut. length cut.1.now < length text.now) }
{
    text.split_once(',')
}

/// The phase that a part `KIND@FIRST` gives.
fn phase_named(part: &str) -> Option<Phase>
    ensures { result ≡ spec.phase_named part.now }
{
    let (kind, first) = cut_at_sign(part)?;
    let kind = kind_named(kind)?;
    let first = first_place_named(first)?;
    Some(Phase { kind, first })
}

/// Whether a phase may begin with this place after one that begins with `before`: the first
/// phase, for which `before` is 0, begins with 1, and the others with a greater place.
fn follows(before: u32, first: u32) -> bool
    ensures { result ≡ spec.first_follows before first }
{
    if before == 0 {
        return first == 1;
    }
    before < first
}

/// The phase that a part gives, where it follows one that begins with `before`.
fn phase_after(before: u32, part: &str) -> Option<Phase>
    ensures { result ≡ spec.phase_after before part.now }
{
    let phase = phase_named(part)?;
    if follows(before, phase.first) {
        return Some(phase);
    }
    None
}

/// The first part of a word, and what is after its comma.
fn first_part(word: &str) -> (&str, Option<&str>)
    ensures parts { spec.parts_of word.now
        ≡ result.0.now ∷ spec.parts_after_first (option_map (λ rest. rest.now) result.1) }
    ensures shorter { IfSome result.1 (λ rest. length rest.now < length word.now) }
{
    match cut_at_comma(word) {
        Some((part, rest)) => (part, Some(rest)),
        None => (word, None),
    }
}

/// The phases of a text, each following the one before it, and at most `most` of them; none
/// follow a word without a comma. They are put into a list, from the last on, once all of them
/// are read.
fn phases_within(
    alloc: Global,
    text: Option<&str>,
    before: u32,
    most: usize,
) -> Result<Option<Vec<Phase>>, NoMemory>
    ensures phases { let parts = spec.parts_after_first (option_map (λ word. word.now) text.entry) in
        IfOk result (λ made. option_map (λ phases. phases.items) made
        ≡ spec.phases_within most before parts) }
    ensures memory { let parts = spec.parts_after_first (option_map (λ word. word.now) text.entry) in
        IsErr result → IsSome (spec.phases_within most before parts) }
{
    let Some(word) = text else {
        return Ok(Some(Vec::new(alloc)));
    };
    if most == 0 {
        return Ok(None);
    }
    let (part, rest) = first_part(word);
    let Some(phase) = phase_after(before, part) else {
        return Ok(None);
    };
    let Some(mut phases) = phases_within(alloc, rest, phase.first, most - 1)? else {
        return Ok(None);
    };
    phases.insert(0, phase)?;
    Ok(Some(phases))
}

/// The phases of a day that the word gives: 1 to 64 parts `KIND@FIRST`, joined by commas, where
/// KIND is `uniform`, `maximum` or `continuous` and FIRST is from 1 to 4,294,967,295, without
/// zeros at its front. The first FIRST is 1, and they rise. A word that gives none takes no
/// memory.
pub fn phases_named(alloc: Global, word: &str) -> Result<Option<PhaseList>, NoMemory>
    ensures phases { IfOk result (λ phases. phases ≡ spec.phases_named word.now) }
    ensures memory { IsErr result → IsSome (spec.phases_named word.now) }
    ensures day { IfOk result (λ made. IfSome made ArePhases) }
{
    match phases_within(alloc, Some(word), 0, MOST_PHASES)? {
        Some(phases) => Ok(Some(PhaseList::of(phases))),
        None => Ok(None),
    }
}
