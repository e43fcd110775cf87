//! Where a message may begin on a line: `8=FIX` that `.` or `T` follows, and no digit right before.
ghost use Rattle.std.specs.Prelude.{◌≡◌, ◌≤◌, ◌<◌, ℕ, length, drop, MatchOption};
ghost use Rattle.fix_days.specs.Lines.{begins_message, follows_digit, is_beginning};
ghost use Rattle.fix_days.specs.Searches.{IsFirstFrom, HasNoneFrom};

use memchr::memmem;

/// Whether the text begins with `8=FIX` and `.` or `T`.
fn begins_message(text: &[u8]) -> bool
    ensures { result ≡ begins_message text.now }
{
    text.starts_with(b"8=FIX.") || text.starts_with(b"8=FIXT")
}

/// Whether a digit stands right before the place.
fn follows_digit(text: &[u8], place: usize) -> bool
    requires { place ≤ length text.now }
    ensures { result ≡ follows_digit text.now place }
{
    place > 0 && text[place - 1].is_ascii_digit()
}

/// Whether a message may begin at the place.
fn is_beginning(text: &[u8], place: usize) -> bool
    requires { place ≤ length text.now }
    ensures { result ≡ is_beginning text.now place }
{
    begins_message(&text[place..]) && !follows_digit(text, place)
}

/// The first beginning at this place or after it.
pub(crate) fn first_beginning(text: &[u8], from: usize) -> Option<usize>
    requires { from ≤ length text.now }
    ensures { MatchOption result (HasNoneFrom text.now from) (IsFirstFrom text.now from) }
{
    let mut at = from;
    'places: while let Some(step) = memmem::find(&text[at..], b"8=FIX") {
        let place = at + step;
        if is_beginning(text, place) {
            return Some(place);
        }
        at = place + 1;
    }
    None
}
