//! The value of a field, and the SOH after it.
ghost use Rattle.std.specs.Prelude.{◌≡◌, ◌≤◌, ◌+◌, Some, length, take, drop, IfSome, IfNone};
ghost use Rattle.std.specs.Option.{option_map, ForSome};
ghost use Rattle.audit_base.specs.Sizes.{soh};
ghost use Rattle.memchr.specs.Find.{IsFirstByte, is_byte};
ghost use Rattle.fix_fields.specs.Ends.{HoldsEnds, SeeksEnd};
ghost use Rattle.fix_fields.specs.Forms.{length_form};
ghost use Rattle.fix_fields.specs.Grammar.{IsDelimited, HasForm};
ghost use Rattle.fix_fields.specs.Ranges.{HasRangeIn, tag_value_of};
ghost use Rattle.fix_fields.specs.FieldAt.{EndsAt, NoValue};

use crate::ends::next_end;
use crate::field::Field;
use crate::marks::MarkedText;
use crate::pairs::length_tag;
use audit_base::digits::read_digits;
use audit_base::sizes::SOH;

/// The number of bytes of the value at the byte `from` of the body, where `before` is the field
/// right before the field with this tag, and `ends` gives the SOH bytes from there on. None
/// exactly where no value in its form and SOH are there.
#[inline(always)]
pub fn value_size(
    body: &[u8],
    before: Option<Field>,
    tag: u32,
    from: usize,
    ends: &mut MarkedText<'_>,
) -> Option<usize>
    requires before { ForSome before (λ f. HasRangeIn body.now f) }
    requires from { from ≤ length body.now }
    requires ends { SeeksEnd body.now from ends.old }
    ensures end { IfSome result (EndsAt (drop from body.now)) }
    ensures form { IfSome result (λ n.
        HasForm (option_map (tag_value_of body.now) before) tag (take n (drop from body.now))) }
    ensures none { IfNone result
        (NoValue (HasForm (option_map (tag_value_of body.now) before) tag) (drop from body.now)) }
    ensures ends { IfSome result (λ n. HoldsEnds body.now (from + n + 1) ends.new) }
{
    match before {
        Some(length) if length_tag(tag) == Some(length.tag) => {
            data_size(&body[length.from..length.to], &body[from..])
        }
        _ => delimited_size(body, from, ends),
    }
}

/// The same of a data field after a length field with the value `count`. It is apart, since most
/// fields are no data fields.
#[cold]
#[inline(never)]
fn data_size(count: &[u8], bytes: &[u8]) -> Option<usize>
    ensures end { IfSome result (EndsAt bytes.now) }
    ensures form { IfSome result (λ n. length_form count.now ≡ Some n) }
    ensures none { IfNone result
        (NoValue (λ value. length_form count.now ≡ Some (length value)) bytes.now) }
{
    let size = read_digits(count, 7)? as usize;
    if bytes.get(size) == Some(&SOH) {
        Some(size)
    } else {
        None
    }
}

/// How far the first SOH at the byte `from` or after it is from there.
#[inline(always)]
fn first_soh(body: &[u8], from: usize, ends: &mut MarkedText<'_>) -> Option<usize>
    requires from { from ≤ length body.now }
    requires ends { SeeksEnd body.now from ends.old }
    ensures first { IsFirstByte (is_byte soh) (drop from body.now) result }
    ensures ends { IfSome result (λ n. HoldsEnds body.now (from + n + 1) ends.new) }
{
    let end = next_end(body, ends, from)?;
    Some(end - from)
}

/// The same of any other field.
#[inline(always)]
fn delimited_size(body: &[u8], from: usize, ends: &mut MarkedText<'_>) -> Option<usize>
    requires from { from ≤ length body.now }
    requires ends { SeeksEnd body.now from ends.old }
    ensures end { IfSome result (EndsAt (drop from body.now)) }
    ensures form { IfSome result (λ n. IsDelimited (take n (drop from body.now))) }
    ensures none { IfNone result (NoValue IsDelimited (drop from body.now)) }
    ensures ends { IfSome result (λ n. HoldsEnds body.now (from + n + 1) ends.new) }
{
    let size = first_soh(body, from, ends)?;
    if size > 0 { Some(size) } else { None }
}
