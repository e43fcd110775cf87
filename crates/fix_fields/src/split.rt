//! Reads a body as its list of fields, in one pass from left to right.
//!
//! The reader is given the bytes after the body too and reads no field there, since 64 bytes are
//! looked at at once where there are as many. Of the field before the next one only a length field
//! is kept.
ghost use Rattle.std.specs.Prelude.{◌≡◌, ◌≤◌, ◌+◌, ℕ, List, [], None, Some, length, take, drop, IfOk, IfErr, IfSome, IfNone, IsOk, IsOkAnd, OnOk, OnErr};
ghost use Rattle.std.specs.Option.{option_map, ForSome};
ghost use Rattle.std.specs.Result.{IsErrOf};
ghost use Rattle.audit_base.specs.Sizes.{longest_body};
ghost use Rattle.fix_fields.specs.Ends.{HoldsEnds};
ghost use Rattle.fix_fields.specs.Refusals.{RefusesBody, OrMemory};
ghost use Rattle.fix_fields.specs.Grammar.{TagValue, AreFields, Fields, IsUnreadable, LacksType, NoField, begins_with_type, bytes_of};
ghost use Rattle.fix_fields.specs.Ranges.{AreFieldsOf, HandsFields, HasRangeIn, tag_values_of, tag_value_of};
ghost use Rattle.fix_fields.specs.TagNotes.{HasNotes};
ghost use Rattle.fix_fields.specs.FieldAt.{IsFieldAt, counter_of};

use crate::ends::{ends_of, ends_of_front};
use crate::field::{Field, FieldFault};
use crate::marks::MarkedText;
use crate::notes::TagNotes;
use crate::pairs::is_length;
use crate::tags::tag_at;
use crate::taker::FieldTaker;
use crate::values::value_size;
use std::alloc::Global;

const MSG_TYPE: u32 = 35;

/// The fields of a body of at most 1,048,576 bytes, each with the range of its value.
///
/// A body is fields `tag=value` SOH one after another, the first with tag 35 (FIX 4.4, field
/// syntax). A tag has 1 to 9 digits and no leading zero. A value is one or more bytes without SOH,
/// but that of a data field right after its length field is as many bytes as that field says in
/// 1 to 7 digits, whatever they are.
///
/// `Field` gives the byte at which the first field begins that cannot be read in this way.
/// `MsgType` says that all fields can be read, but there is none or the first has another tag.
pub fn fields(alloc: Global, body: &[u8]) -> Result<Vec<Field>, FieldFault>
    requires { length body.now ≤ longest_body }

    // What each answer says.
    ensures fields { IfOk result (λ v. AreFieldsOf body.now v.items) }
    ensures fault { IfErr result (λ e. RefusesBody body.now e) }

    // Each comes wherever what it says holds, unless memory runs out.
    ensures reads { (fs : List TagValue) → Fields body.now fs
        → OrMemory result (IsOkAnd result (λ v. tag_values_of body.now v.items ≡ fs)) }
    ensures unreadable { (n : ℕ) → IsUnreadable body.now n
        → OrMemory result (IsErrOf result (FieldFault.Field n)) }
    ensures untyped { LacksType body.now → OrMemory result (IsErrOf result FieldFault.MsgType) }
{
    let mut list = Vec::new(alloc);
    read_fields(body, &mut list)?;
    Ok(list)
}

/// Reads the fields of a body, as `fields` does, into a list that may be used again for the next
/// body: what it held is dropped, and its capacity is kept. After a fault it is empty.
pub fn read_fields(body: &[u8], list: &mut Vec<Field>) -> Result<(), FieldFault>
    requires { length body.now ≤ longest_body }

    // What each answer says.
    ensures fields { OnOk result (AreFieldsOf body.now list.new.items) }
    ensures fault { IfErr result (λ e. RefusesBody body.now e) }
    ensures empty { OnErr result (list.new.items ≡ []) }

    // Each comes wherever what it says holds, unless memory runs out.
    ensures reads { (fs : List TagValue) → Fields body.now fs → OrMemory result (IsOk result) }
    ensures unreadable { (n : ℕ) → IsUnreadable body.now n
        → OrMemory result (IsErrOf result (FieldFault.Field n)) }
    ensures untyped { LacksType body.now → OrMemory result (IsErrOf result FieldFault.MsgType) }
{
    refill(body, ends_of(body), list)
}

/// Notes where the values of tags are in the body that the first `size` bytes of a text are, in
/// place of what was noted before. The answer is that of `read_fields` of this body. The bytes after
/// the body change nothing: where there are some, the last fields of the body are found as fast as
/// the others.
pub fn note_front_fields(text: &[u8], size: usize, notes: &mut TagNotes) -> Result<(), FieldFault>
    requires inside { size ≤ length text.now }
    requires short { size ≤ longest_body }

    // What each answer says.
    ensures notes { OnOk result (HasNotes (take size text.now) notes.new) }
    ensures fault { IfErr result (λ e. RefusesBody (take size text.now) e) }

    // Each comes wherever what it says holds, unless memory runs out.
    ensures reads { (fs : List TagValue) → Fields (take size text.now) fs
        → OrMemory result (IsOk result) }
    ensures unreadable { (n : ℕ) → IsUnreadable (take size text.now) n
        → OrMemory result (IsErrOf result (FieldFault.Field n)) }
    ensures untyped { LacksType (take size text.now)
        → OrMemory result (IsErrOf result FieldFault.MsgType) }
{
    notes.clear();
    hand_fields(&text[..size], ends_of_front(text, size), notes)
}

/// Reads the fields of a body, whose SOH bytes are given, into a list whose members are dropped.
fn refill(body: &[u8], ends: MarkedText<'_>, list: &mut Vec<Field>) -> Result<(), FieldFault>
    requires size { length body.now ≤ longest_body }
    requires ends { HoldsEnds body.now 0 ends }
    ensures fields { OnOk result (AreFieldsOf body.now list.new.items) }
    ensures fault { IfErr result (λ e. RefusesBody body.now e) }
    ensures empty { OnErr result (list.new.items ≡ []) }
    ensures reads { (fs : List TagValue) → Fields body.now fs → OrMemory result (IsOk result) }
    ensures unreadable { (n : ℕ) → IsUnreadable body.now n
        → OrMemory result (IsErrOf result (FieldFault.Field n)) }
    ensures untyped { LacksType body.now → OrMemory result (IsErrOf result FieldFault.MsgType) }
{
    list.clear();
    let read = append_fields(body, ends, list);
    if read.is_err() {
        list.clear();
    }
    read
}

/// The same into an empty list; after a fault it holds the fields before that.
fn append_fields(body: &[u8], ends: MarkedText<'_>, list: &mut Vec<Field>) -> Result<(), FieldFault>
    requires size { length body.now ≤ longest_body }
    requires ends { HoldsEnds body.now 0 ends }
    requires empty { list.old.items ≡ [] }
    ensures fields { OnOk result (AreFieldsOf body.now list.new.items) }
    ensures fault { IfErr result (λ e. RefusesBody body.now e) }
    ensures reads { (fs : List TagValue) → Fields body.now fs → OrMemory result (IsOk result) }
    ensures unreadable { (n : ℕ) → IsUnreadable body.now n
        → OrMemory result (IsErrOf result (FieldFault.Field n)) }
    ensures untyped { LacksType body.now → OrMemory result (IsErrOf result FieldFault.MsgType) }
{
    hand_fields(body, ends, list)
}

/// Hands the fields of a body, whose SOH bytes are given, to a taker that has been handed none;
/// of a body with a fault, the fields before it. Of the field right before the next one only one
/// that may count it is kept.
fn hand_fields<T: FieldTaker>(
    body: &[u8],
    mut ends: MarkedText<'_>,
    taker: &mut T,
) -> Result<(), FieldFault>
    requires size { length body.now ≤ longest_body }
    requires ends { HoldsEnds body.now 0 ends }
    requires empty { T.has_taken taker.old [] }
    ensures fields { OnOk result (HandsFields (T.has_taken taker.new) body.now) }
    ensures fault { IfErr result (λ e. RefusesBody body.now e) }
    ensures reads { (fs : List TagValue) → Fields body.now fs → OrMemory result (IsOk result) }
    ensures unreadable { (n : ℕ) → IsUnreadable body.now n
        → OrMemory result (IsErrOf result (FieldFault.Field n)) }
    ensures untyped { LacksType body.now → OrMemory result (IsErrOf result FieldFault.MsgType) }
{
    let mut counter = None;
    let mut at = 0;
    while at < body.len() {
        let Some(field) = field_at(body, at, counter, &mut ends) else {
            return Err(FieldFault::Field(at as u32));
        };
        taker.take(field)?;
        counter = counter_of(field);
        at = field.to + 1;
    }
    if begins_with_type(body) {
        Ok(())
    } else {
        Err(FieldFault::MsgType)
    }
}

/// The field, if its value may be the length of the field after it.
#[inline(always)]
fn counter_of(field: Field) -> Option<Field>
    ensures { result ≡ counter_of (Some field) }
{
    if is_length(field.tag) {
        Some(field)
    } else {
        None
    }
}

/// The field that begins at byte `at`, where `before` is the field right before it, and `ends`
/// gives the SOH bytes from there on; None exactly where no field can be read there.
#[inline(always)]
fn field_at(
    body: &[u8],
    at: usize,
    before: Option<Field>,
    ends: &mut MarkedText<'_>,
) -> Option<Field>
    requires before { ForSome before (λ f. HasRangeIn body.now f) }
    requires at { at ≤ length body.now }
    requires ends { HoldsEnds body.now at ends.old }
    ensures found { IfSome result
        (IsFieldAt body.now at (option_map (tag_value_of body.now) before)) }
    ensures none { IfNone result
        (NoField (option_map (tag_value_of body.now) before) (drop at body.now)) }
    ensures ends { IfSome result (λ field. HoldsEnds body.now (field.to + 1) ends.new) }
{
    let (tag, size) = tag_at(&body[at..])?;
    let from = at + size;
    let size = value_size(body, before, tag, from, ends)?;
    Some(Field {
        tag,
        from,
        to: from + size,
    })
}

/// Whether the first field of a body that is fields to its end is the message type.
#[inline(never)]
fn begins_with_type(body: &[u8]) -> bool
    ensures { (fields : List TagValue) → body.now ≡ bytes_of fields → AreFields None fields
        → result ≡ begins_with_type fields }
{
    match tag_at(body) {
        Some((tag, _)) => tag == MSG_TYPE,
        None => false,
    }
}
