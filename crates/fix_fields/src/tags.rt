//! The tag of a field: 1 to 9 digits without a leading zero, and `=`.
ghost use Rattle.std.specs.Prelude.{◌≡◌, ◌≢◌, ◌≤◌, ◌+◌, ◌∷◌, ◌++◌, ℕ, List, length, take, drop, position, slice_index, IfSome, IfNone, IsTrue, true, false, nat_eq};
ghost use Rattle.std.specs.Char.{is_ascii_digit};
ghost use Rattle.std.specs.Fmt.{decimal};
ghost use Rattle.fix_fields.specs.Forms.{tag_form};
ghost use Rattle.fix_fields.specs.Grammar.{IsTag};
ghost use Rattle.fix_fields.specs.FieldAt.{IsTagAt, is_equals_sign};

use audit_base::digits::read_digits;

/// The most bytes of a tag with the `=` after it.
const MOST_BYTES: usize = 10;

/// What the codes of two digits `0` give as tens and ones, which is taken off once.
const TWO_ZEROS: u32 = 528;

/// The same of three digits.
const THREE_ZEROS: u32 = 5328;

/// The tag at the front of the bytes, and the number of bytes up to the value: those of the tag
/// and of the `=`. None exactly where no tag and `=` are at the front.
#[inline(always)]
pub fn tag_at(bytes: &[u8]) -> Option<(u32, usize)>
    ensures tag { IfSome result (λ t. IsTag t.0) }
    ensures bytes { IfSome result (λ t. bytes.now ≡ decimal t.0 ++ 61 ∷ drop t.1 bytes.now) }
    ensures size { IfSome result (λ t. t.1 ≡ length (decimal t.0) + 1) }
    ensures none { IfNone result ((tag : ℕ) (more : List ℕ)
        → IsTag tag → bytes.now ≢ decimal tag ++ 61 ∷ more) }
{
    if let Some(found) = short_tag_at(bytes) {
        return Some(found);
    }
    long_tag_at(bytes)
}

/// The same of a tag of any length. It is apart, since most tags are short.
#[cold]
#[inline(never)]
fn long_tag_at(bytes: &[u8]) -> Option<(u32, usize)>
    ensures tag { IfSome result (λ t. IsTag t.0) }
    ensures bytes { IfSome result (λ t. bytes.now ≡ decimal t.0 ++ 61 ∷ drop t.1 bytes.now) }
    ensures size { IfSome result (λ t. t.1 ≡ length (decimal t.0) + 1) }
    ensures none { IfNone result ((tag : ℕ) (more : List ℕ)
        → IsTag tag → bytes.now ≢ decimal tag ++ 61 ∷ more) }
{
    let size = equals_sign(bytes)?;
    let tag = tag_of(&bytes[..size])?;
    Some((tag, size + 1))
}

/// The same of a tag of two or three digits, as most tags are, with no loop. None says nothing.
#[inline(always)]
fn short_tag_at(bytes: &[u8]) -> Option<(u32, usize)>
    ensures { IfSome result (λ t. IsTagAt bytes.now t.0 t.1) }
{
    if bytes.len() < 4 {
        None
    } else if bytes[2] == b'=' {
        two_digits(bytes)
    } else if bytes[3] == b'=' {
        three_digits(bytes)
    } else {
        None
    }
}

/// Whether a tag may begin with the byte: a digit, and not 0.
#[inline(always)]
fn begins_tag(byte: u8) -> bool
    ensures digit { IsTrue result → is_ascii_digit byte ≡ true }
    ensures other { IsTrue result → nat_eq byte 48 ≡ false }
{
    b'1' <= byte && byte <= b'9'
}

/// The same of a tag of two digits.
#[inline(always)]
fn two_digits(bytes: &[u8]) -> Option<(u32, usize)>
    requires long { 4 ≤ length bytes.now }
    requires here { slice_index bytes.now 2 ≡ 61 }
    ensures { IfSome result (λ t. IsTagAt bytes.now t.0 t.1) }
{
    if !begins_tag(bytes[0]) || !bytes[1].is_ascii_digit() {
        return None;
    }
    let (tens, ones) = (bytes[0] as u32, bytes[1] as u32);
    Some((tens * 10 + ones - TWO_ZEROS, 3))
}

/// The same of a tag of three digits.
#[inline(always)]
fn three_digits(bytes: &[u8]) -> Option<(u32, usize)>
    requires long { 4 ≤ length bytes.now }
    requires here { slice_index bytes.now 3 ≡ 61 }
    ensures { IfSome result (λ t. IsTagAt bytes.now t.0 t.1) }
{
    if !begins_tag(bytes[0]) || !bytes[1].is_ascii_digit() || !bytes[2].is_ascii_digit() {
        return None;
    }
    let (hundreds, tens) = (bytes[0] as u32, bytes[1] as u32);
    Some((
        hundreds * 100 + tens * 10 + bytes[2] as u32 - THREE_ZEROS,
        4,
    ))
}

/// Where the first `=` is among the bytes that a tag and its `=` may have.
fn equals_sign(bytes: &[u8]) -> Option<usize>
    ensures { result ≡ position is_equals_sign (take 10 bytes.now) }
{
    let front = &bytes[..bytes.len().min(MOST_BYTES)];
    front.iter().position(|byte| *byte == b'=')
}

/// The tag that the text before a `=` is; None exactly of any other text.
fn tag_of(text: &[u8]) -> Option<u32>
    ensures { result ≡ tag_form text.now }
{
    if text.first() == Some(&b'0') {
        return None;
    }
    let tag = read_digits(text, 9)?;
    Some(tag as u32)
}
