//! A message as its body and notes of where values are, which contracts see as the list of its
//! fields.
ghost use Rattle.std.specs.Prelude.{◌≡◌, ◌≤◌, length};
ghost use Rattle.std.specs.List.{slice_range};
ghost use Rattle.fix_fields.specs.Ranges.{AreFieldsOf, tag_values_of};
ghost use Rattle.fix_fields.specs.TagNotes.{HasNotes, IsNotedTag};
ghost use Rattle.fix_messages.specs.BodyFields.{fields_of};
ghost use Rattle.fix_messages.specs.Rows.{type_of, value_of, only_value, has_value_of};
ghost use Rattle.fix_messages.specs.Steps.{as_some_bytes};

use crate::meanings::MessageFault;
use fix_fields::field::{Field, ValueSpan};
use fix_fields::notes::TagNotes;
use std::marker::Model;

/// The type of a message, which is its first field.
const MSG_TYPE: u32 = 35;

/// The body of a message, and where the values of tags are in it. Contracts see the list of its
/// fields, which is nowhere made.
#[derive(Drop)]
pub(crate) struct Message<'a> {
    body: &'a [u8],
    notes: &'a TagNotes,
}

impl<'a> Model for Message<'a> {
    ghost use Rattle.std.specs.Prelude.{List};
    ghost use Rattle.fix_fields.specs.Grammar.{TagValue};
    ghost use Rattle.fix_fields.specs.TagNotes.{HasNotes};
    ghost use Rattle.fix_messages.specs.BodyFields.{fields_of};

    ghost Value = { List TagValue };

    ghost view = { λ m. fields_of m.body.now };

    ghost invariant = { λ m. HasNotes m.body.now m.notes.now };
}

impl<'a> Message<'a> {
    /// The message with this body, of which these are the notes.
    pub(crate) fn of(body: &'a [u8], notes: &'a TagNotes) -> Message<'a>
        requires { HasNotes body.now notes.now }
        ensures { result ≡ fields_of body.now }
    {
        Message { body, notes }
    }

    /// The message with these fields, of which it takes notes.
    pub(crate) fn with_fields(
        body: &'a [u8],
        fields: &[Field],
        notes: &'a mut TagNotes,
    ) -> Message<'a>
        requires { AreFieldsOf body.now fields.now }
        ensures { result ≡ tag_values_of body.now fields.now }
    {
        notes.note(fields);
        Message { body, notes }
    }

    /// The value of the first field, which is the message's type.
    pub(crate) fn kind(&self) -> &[u8]
        ensures { result.now ≡ type_of self.now }
    {
        // Opened, the message is known to have its notes, so that the first field is the type.
        let _ = &self.notes;
        self.first(MSG_TYPE)
    }

    /// The value of the tag, if it is there; it may not occur more than once.
    #[inline(always)]
    pub(crate) fn only(&self, tag: u32) -> Result<Option<&[u8]>, MessageFault>
        requires { IsNotedTag tag }
        ensures { as_some_bytes result ≡ only_value tag self.now }
    {
        match self.notes.find(tag) {
            ValueSpan::Absent => Ok(None),
            ValueSpan::One { from, to } => Ok(Some(&self.body[from..to])),
            ValueSpan::Many { .. } => Err(MessageFault::Repeated(tag)),
        }
    }

    /// Whether the tag is there, once or more often.
    #[inline(always)]
    pub(crate) fn has(&self, tag: u32) -> bool
        requires { IsNotedTag tag }
        ensures { result ≡ has_value_of tag self.now }
    {
        match self.only(tag) {
            Ok(value) => value.is_some(),
            Err(_) => true,
        }
    }

    /// The first value of the tag, and no bytes where the tag is absent.
    #[inline(always)]
    pub(crate) fn first(&self, tag: u32) -> &[u8]
        requires { IsNotedTag tag }
        ensures { result.now ≡ value_of tag self.now }
    {
        match self.notes.find(tag) {
            ValueSpan::Absent => &[],
            ValueSpan::One { from, to } => &self.body[from..to],
            ValueSpan::Many { from, to } => &self.body[from..to],
        }
    }
}
