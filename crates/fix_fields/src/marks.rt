//! A text in which SOH is sought, and which of 64 of its bytes are SOH.
//!
//! Fields are short, so several end among 64 bytes. These are compared at once, and each field that
//! ends among them is then found by a bit of one number.
ghost use Rattle.std.specs.Prelude.{◌≡◌, ℕ, ◌+◌, ◌≤◌, ◌<◌, ◌++◌, drop, length, IfSome, IfNone};
ghost use Rattle.std.specs.Int.{bit_at};
ghost use Rattle.memchr.specs.Find.{IsFirst, NoneBefore, Nowhere};
ghost use Rattle.fix_fields.specs.Marks.{AreMarks, IsEnd};

use audit_base::sizes::SOH;
use std::simd::prelude::*;

/// How many bytes are compared at once.
const BLOCK: usize = 64;

/// A text in which SOH is sought from one place on and then from later ones.
#[derive(Drop)]
pub(crate) struct MarkedText<'b> {
    text: &'b [u8],
    /// Where the bytes begin of which it is marked which are SOH.
    start: usize,
    /// Bit k says whether the byte at `start + k` is SOH.
    marks: u64,
    ghost inside: { start ≤ length text.now },
    ghost marked: { AreMarks text.now start marks },
}

/// Which of the 64 bytes from a place on are SOH.
#[inline(always)]
fn marks_of_block(text: &[u8], at: usize) -> u64
    requires { at + 64 ≤ length text.now }
    ensures { AreMarks text.now at result }
{
    u8x64::from_slice(&text[at..])
        .simd_eq(u8x64::splat(SOH))
        .to_bitmask()
}

/// Writes a text over the first bytes of a block.
fn put_first(block: &mut [u8], text: &[u8])
    requires { length text.now ≤ length block.old }
    ensures { block.new ≡ text.now ++ drop (length text.now) block.old }
{
    block[..text.len()].copy_from_slice(text);
}

/// The same where fewer bytes are left: a copy of them is filled up with zeros. It is apart, since
/// the bytes after a message are mostly there.
#[cold]
#[inline(never)]
fn marks_of_rest(text: &[u8], at: usize) -> u64
    requires low { at ≤ length text.now }
    requires high { length text.now < at + 64 }
    ensures { AreMarks text.now at result }
{
    let mut block = [0; BLOCK];
    put_first(&mut block, &text[at..]);
    marks_of_block(&block, 0)
}

/// The same wherever the place is.
#[inline(always)]
fn marks_at(text: &[u8], at: usize) -> u64
    requires { at ≤ length text.now }
    ensures { AreMarks text.now at result }
{
    if text.len() - at >= BLOCK {
        marks_of_block(text, at)
    } else {
        marks_of_rest(text, at)
    }
}

/// The lowest bit of a number that is set.
#[inline(always)]
fn lowest_bit(marks: u64) -> usize
    requires { 0 < marks }
    ensures bound { result < 64 }
    ensures set { bit_at marks result ≡ 1 }
    ensures below { (k : ℕ) → k < result → bit_at marks k ≡ 0 }
{
    marks.trailing_zeros() as usize
}

impl<'b> MarkedText<'b> {
    /// A text, of which the first bytes are marked.
    pub(crate) fn of(text: &'b [u8]) -> MarkedText<'b>
        ensures text { result.text.now ≡ text.now }
        ensures start { result.start ≡ 0 }
    {
        MarkedText {
            text,
            start: 0,
            marks: marks_at(text, 0),
        }
    }

    /// Marks the bytes from a place on.
    #[inline(always)]
    fn mark(&mut self, start: usize)
        requires { start ≤ length self.old.text.now }
        ensures text { self.new.text.now ≡ self.old.text.now }
        ensures start { self.new.start ≡ start }
    {
        *self = MarkedText {
            text: self.text,
            start,
            marks: marks_at(self.text, start),
        };
    }

    /// The first SOH from a place on that is marked.
    #[inline(always)]
    fn marked_from(&self, at: usize) -> Option<usize>
        requires { self.now.start ≤ at }
        ensures first { IfSome result (λ end. NoneBefore (IsEnd self.now.text.now) at
            (length self.now.text.now) end × IsEnd self.now.text.now end) }
        ensures none { IfNone result (Nowhere (IsEnd self.now.text.now) at (self.now.start + 64)) }
    {
        let behind = at - self.start;
        if behind >= BLOCK {
            return None;
        }
        let left = self.marks >> behind;
        if left == 0 {
            return None;
        }
        Some(at + lowest_bit(left))
    }

    /// The first SOH after the bytes that are marked, and from a place on.
    #[inline(always)]
    fn first_behind(&mut self, at: usize) -> Option<usize>
        requires low { self.old.start ≤ at }
        requires none { Nowhere (IsEnd self.old.text.now) at (self.old.start + 64) }
        ensures first { IsFirst (IsEnd self.old.text.now) at (length self.old.text.now) result }
        ensures text { self.new.text.now ≡ self.old.text.now }
        ensures low { IfSome result (λ end. self.new.start ≤ end) }
    {
        let length = self.text.len();
        let mut from = at.max(self.start + BLOCK);
        while from < length {
            self.mark(from);
            if let Some(end) = self.marked_from(from) {
                return Some(end);
            }
            from += BLOCK;
        }
        None
    }

    /// The first SOH from a place on. No later call asks for an earlier place.
    #[inline(always)]
    pub(crate) fn first_from(&mut self, at: usize) -> Option<usize>
        requires { self.old.start ≤ at }
        ensures first { IsFirst (IsEnd self.old.text.now) at (length self.old.text.now) result }
        ensures text { self.new.text.now ≡ self.old.text.now }
        ensures low { IfSome result (λ end. self.new.start ≤ end) }
    {
        if let Some(end) = self.marked_from(at) {
            return Some(end);
        }
        self.first_behind(at)
    }
}
