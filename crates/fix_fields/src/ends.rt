//! The SOH bytes of a body, which are sought for many of its fields at once.
ghost use Rattle.std.specs.Prelude.{◌≡◌, ◌≤◌, ◌+◌, length, take, IfSome};
ghost use Rattle.memchr.specs.Find.{IsFirst};
ghost use Rattle.fix_fields.specs.Marks.{IsEnd};
ghost use Rattle.fix_fields.specs.Ends.{HoldsEnds, SeeksEnd};

use crate::marks::MarkedText;
use audit_base::sizes::SOH;

/// All SOH bytes of a body.
pub(crate) fn ends_of<'b>(body: &'b [u8]) -> MarkedText<'b>
    ensures { HoldsEnds body.now 0 result }
{
    MarkedText::of(body)
}

/// The SOH bytes of the body that the first `size` bytes of a text are. Where the last of these is
/// SOH, those after the body are given too and never asked for: with more bytes after it, the last
/// SOH bytes of the body are found as fast as the others.
pub(crate) fn ends_of_front<'b>(text: &'b [u8], size: usize) -> MarkedText<'b>
    requires { size ≤ length text.now }
    ensures { HoldsEnds (take size text.now) 0 result }
{
    if size > 0 && text[size - 1] == SOH {
        MarkedText::of(text)
    } else {
        MarkedText::of(&text[..size])
    }
}

/// The first SOH at the byte `at` or after it. Those before it are passed over.
#[inline(always)]
pub(crate) fn next_end(body: &[u8], ends: &mut MarkedText<'_>, at: usize) -> Option<usize>
    requires { SeeksEnd body.now at ends.old }
    ensures first { IsFirst (IsEnd body.now) at (length body.now) result }
    ensures left { IfSome result (λ end. HoldsEnds body.now (end + 1) ends.new) }
{
    ends.first_from(at)
}
