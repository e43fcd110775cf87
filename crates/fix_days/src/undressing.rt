//! What the bytes of a line stand for: from left to right SOH, where the text that stands for SOH
//! begins, and else themselves. Bytes of which each stands for one are copied in runs (`runs`).
ghost use Rattle.std.specs.Prelude.{◌≡◌, ◌≤◌, ◌<◌, ◌++◌, ℕ, List, length, take, drop, false, IfOk, MatchResult, if◌then◌else◌, nat_eq};
ghost use Rattle.std.specs.List.{starts_with};
ghost use Rattle.fix_days.specs.Lines.{HasNoLineEnd};
ghost use Rattle.fix_days.specs.Undressings.{HasUndressed, IsNextUnit, IsReached, StopsUnits, Undressed, Undresses};

use crate::runs::append_run;
use audit_base::faults::NoMemory;
use audit_base::sizes::SOH;

/// How far a line was undressed.
#[derive(Clone, Copy, Debug, PartialEq, Eq)]
pub(crate) enum UndressedTo {
    /// As many bytes as were asked for.
    Count,
    /// Up to the end of the line.
    LineEnd,
    /// Up to bytes that may be the front of the text for SOH, or to the end of those that have
    /// come.
    Held,
}

/// The byte that the first bytes of a text stand for, and how many these are.
#[derive(Clone, Copy)]
struct Unit {
    byte: u8,
    size: usize,
}

/// Whether the text begins with this front. Of a front of two bytes these are compared here, since
/// it is asked at each field.
#[inline(always)]
fn begins_with(text: &[u8], front: &[u8]) -> bool
    ensures { result ≡ starts_with nat_eq text.now front.now }
{
    if front.len() == 2 && text.len() >= 2 {
        return text[0] == front[0] && text[1] == front[1];
    }
    text.starts_with(front)
}

/// The first byte that the text stands for, or why none is known. `ended` says that no bytes will
/// follow these.
fn next_unit(soh: &[u8], text: &[u8], ended: bool) -> Result<Unit, UndressedTo>
    requires some { 0 < length soh.now }
    requires line { HasNoLineEnd soh.now }
    ensures { MatchResult result (λ unit. IsNextUnit soh.now text.now ended unit.byte unit.size)
        (StopsUnits text.now ended) }
{
    if text.is_empty() {
        return Err(if ended {
            UndressedTo::LineEnd
        } else {
            UndressedTo::Held
        });
    }
    if text[0] == b'\n' {
        return Err(UndressedTo::LineEnd);
    }
    if begins_with(text, soh) {
        return Ok(Unit {
            byte: SOH,
            size: soh.len(),
        });
    }
    if !ended && soh.starts_with(text) {
        return Err(UndressedTo::Held);
    }
    Ok(Unit {
        byte: text[0],
        size: 1,
    })
}

/// Appends what the bytes from `at` on stand for, until there are `count` bytes in `out`, and gives
/// the place that was reached, and why no more was appended.
pub(crate) fn undress(
    soh: &[u8],
    text: &[u8],
    at: usize,
    count: usize,
    ended: bool,
    out: &mut Vec<u8>,
) -> Result<(usize, UndressedTo), NoMemory>
    requires some { 0 < length soh.now }
    requires line { HasNoLineEnd soh.now }
    requires inside { at ≤ length text.now }
    ensures bytes { IfOk result (λ r.
        Undresses soh.now text.now at ended out.old.items out.new.items r.0) }
    ensures reached { IfOk result (λ r.
        IsReached text.now count ended r.0 out.new.items r.1) }
{
    let mut to = at;
    'units: while out.len() < count {
        let run = append_run(soh, &text[to..], count - out.len(), out)?;
        to += run;
        if out.len() >= count {
            return Ok((to, UndressedTo::Count));
        }
        match next_unit(soh, &text[to..], ended) {
            Ok(unit) => {
                out.push(unit.byte)?;
                to += unit.size;
            }
            Err(why) => return Ok((to, why)),
        }
    }
    Ok((to, UndressedTo::Count))
}

/// How many bytes of the text stand for its first byte.
fn unit_size(soh: &[u8], text: &[u8]) -> usize
    ensures { result ≡ (if starts_with nat_eq text.now soh.now then length soh.now else 1) }
{
    if text.starts_with(soh) { soh.len() } else { 1 }
}

/// The place after those bytes that stand for the first `count` bytes from `at` on.
pub(crate) fn place_after(soh: &[u8], text: &[u8], at: usize, count: usize) -> usize
    requires { HasUndressed soh.now text.now at count }
    ensures { (more : List ℕ) (to : ℕ) (bytes : List ℕ) → count ≤ length bytes
        → Undressed soh.now text.now at more to bytes
        → Undressed soh.now text.now at more result (take count bytes) }
{
    let mut to = at;
    'units: for _ in 0..count {
        to += unit_size(soh, &text[to..]);
    }
    to
}
