//! Values of a message's fields, whose places are noted.
ghost use Rattle.std.specs.Prelude.{◌≡◌};
ghost use Rattle.fix_fields.specs.TagNotes.{HasNotes, IsNotedTag};
ghost use Rattle.fix_messages.specs.BodyFields.{fields_of};
ghost use Rattle.fix_messages.specs.Rows.{has_value_of, type_of, value_of};

use fix_fields::field::ValueSpan;
use fix_fields::notes::TagNotes;

/// The type of a message, which is its first field.
const MSG_TYPE: u32 = 35;

/// The first value of the tag, and no bytes where the tag is absent.
pub(crate) fn first_value<'a>(tag: u32, body: &'a [u8], notes: &TagNotes) -> &'a [u8]
    requires noted { IsNotedTag tag }
    requires notes { HasNotes body.now notes.now }
    ensures { result.now ≡ value_of tag (fields_of body.now) }
{
    match notes.find(tag) {
        ValueSpan::Absent => &[],
        ValueSpan::One { from, to } => &body[from..to],
        ValueSpan::Many { from, to } => &body[from..to],
    }
}

/// Whether the tag is there, once or more often.
pub(crate) fn has_value(tag: u32, body: &[u8], notes: &TagNotes) -> bool
    requires noted { IsNotedTag tag }
    requires notes { HasNotes body.now notes.now }
    ensures { result ≡ has_value_of tag (fields_of body.now) }
{
    match notes.find(tag) {
        ValueSpan::Absent => false,
        ValueSpan::One { .. } => true,
        ValueSpan::Many { .. } => true,
    }
}

/// The value of the first field, which is the message's type.
pub(crate) fn type_value<'a>(body: &'a [u8], notes: &TagNotes) -> &'a [u8]
    requires { HasNotes body.now notes.now }
    ensures { result.now ≡ type_of (fields_of body.now) }
{
    first_value(MSG_TYPE, body, notes)
}
