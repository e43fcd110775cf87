//! A look at the message that begins at a place: whether it is all there, what its body is and
//! where it ends, or which test it fails.
ghost use Rattle.std.specs.Prelude.{◌≡◌, ◌≤◌, ◌<◌, ℕ, List, Bool, Some, length, IfOk, MatchOption};
ghost use Rattle.fix_framing.specs.Headers.{any_version};
ghost use Rattle.fix_framing.specs.Frames.{frame_fault_with};
ghost use Rattle.fix_framing.specs.declared.frames.FrameFault.TheVariants.{Truncated};
ghost use Rattle.fix_days.specs.Lines.{HasNoLineEnd};
ghost use Rattle.fix_days.specs.Undressings.{HasUndressed};
ghost use Rattle.fix_days.specs.Looks.{AnswersLook, EndsFront, LookSays, refusal};

use crate::undressing::{UndressedTo, place_after, undress};
use audit_base::digits::{are_digits, value_of};
use audit_base::faults::NoMemory;
use audit_base::sizes::SOH;
use fix_framing::frames::{FrameFault, frame_at};
use fix_framing::headers::AnyVersion;
use memchr::memchr;

/// The number of bytes of the longest message, of any version.
const LONGEST_FRAME: usize = 1_048_606;

/// How many bytes of a message are undressed before it is first looked at: its length is there.
const FIRST_LOOK: usize = 32;

/// What a look at a message says.
#[derive(Clone, Copy)]
pub(crate) enum Look {
    /// A message, whose body runs from here to there in the bytes that it stands for, and which
    /// ends at this place in those held.
    Message { body: usize, to: usize, end: usize },
    /// The message is not all there.
    Wait,
    Fault(FrameFault),
}

/// What a fault says, where no more was undressed for this reason: nothing, where more can be.
fn refusal(fault: FrameFault, why: UndressedTo) -> Option<Look>
    ensures { result ≡ refusal fault why }
{
    if fault != FrameFault::Truncated {
        return Some(Look::Fault(fault));
    }
    match why {
        UndressedTo::Count => None,
        UndressedTo::LineEnd => Some(Look::Fault(fault)),
        UndressedTo::Held => Some(Look::Wait),
    }
}

/// The place after the bytes held that stand for the first `count` bytes of the message, where
/// those from `place` up to `reached` stand for all of them.
fn end_of(
    soh: &[u8],
    held: &[u8],
    place: usize,
    message: &[u8],
    reached: usize,
    count: usize,
) -> usize
    requires few { count ≤ length message.now }
    requires bytes { HasUndressed soh.now held.now place (length message.now) }
    ensures { EndsFront soh.now held.now place message.now reached count result }
{
    if count == message.len() {
        return reached;
    }
    place_after(soh, held, place, count)
}

/// What these bytes say, for which the bytes held stand from the place on up to `reached`:
/// nothing, where more of them are needed.
fn answer_of(
    soh: &[u8],
    held: &[u8],
    place: usize,
    message: &[u8],
    reached: usize,
    why: UndressedTo,
) -> Option<Look>
    requires some { 0 < length soh.now }
    requires line { HasNoLineEnd soh.now }
    requires bytes { HasUndressed soh.now held.now place (length message.now) }
    ensures { AnswersLook soh.now held.now place message.now reached why result }
{
    match frame_at::<AnyVersion>(message, 0) {
        Ok(frame) => Some(Look::Message {
            body: frame.body,
            to: frame.end - 7,
            end: end_of(soh, held, place, message, reached, frame.end),
        }),
        Err(fault) => refusal(fault, why),
    }
}

/// How many bytes a message that begins so says that it has, where its length is all there.
fn announced_size(message: &[u8]) -> Option<usize> {
    let header = memchr(SOH, message)?;
    let rest = message.get(header + 3..)?;
    let digits = memchr(SOH, rest)?;
    if digits > 9 || !are_digits(&rest[..digits]) {
        return None;
    }
    let body = header + 3 + digits + 1;
    Some(body + value_of(&rest[..digits]) as usize + 7)
}

/// How many bytes to undress before the next look: as many as the message says that it has. Where
/// it does not say so yet, four times as many as before.
fn next_count(message: &[u8], count: usize) -> usize
    requires some { 0 < count }
    requires few { count < 1048606 }
    ensures more { count < result }
    ensures most { result ≤ 1048606 }
{
    match announced_size(message) {
        Some(size) if size > count => size.min(LONGEST_FRAME),
        _ => (4 * count).min(LONGEST_FRAME),
    }
}

/// Looks at the message that begins at this place of the bytes held. `message` is what its bytes
/// stand for, as far as they were looked at.
pub(crate) fn look_at(
    soh: &[u8],
    held: &[u8],
    place: usize,
    ended: bool,
    message: &mut Vec<u8>,
) -> Result<Look, NoMemory>
    requires some { 0 < length soh.now }
    requires line { HasNoLineEnd soh.now }
    requires inside { place ≤ length held.now }
    ensures { IfOk result (LookSays soh.now held.now place ended message.new.items) }
{
    message.clear();
    let mut count = FIRST_LOOK;
    let mut at = place;
    'looks: loop {
        let (reached, why) = undress(soh, held, at, count, ended, message)?;
        if let Some(look) = answer_of(soh, held, place, message, reached, why) {
            return Ok(look);
        }
        at = reached;
        count = next_count(message, count);
    }
}
