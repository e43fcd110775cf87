//! Notes of where the values of some tags are. They are taken as the fields of a body are read,
//! so that there is neither a list of the fields nor a search for a tag.
ghost use Rattle.std.specs.Prelude.{◌≡◌, ◌≢◌, ◌<◌, ◌∷◌, ◌++◌, [], ℕ, List, IfSome};
ghost use Rattle.fix_fields.specs.declared.field.Field.{Field};
ghost use Rattle.fix_fields.specs.TagNotes.{AreNotesOf, IsNotedTag, note_at, note_place, span_of_tag, span_with_field};

use crate::field::{Field, ValueSpan};
use crate::taker::FieldTaker;
use std::alloc::AllocFailed;

/// How many tags are noted.
const NOTES: usize = 65;

/// Tags below this number are all noted, since most tags of the tables are among them: so the place
/// of a note is mostly the tag itself, and is not looked up.
const LATER: u32 = 61;

/// Where the values of those tags are that the tables of messages
/// ask for, and of others, each at a place of its own.
#[derive(Drop)]
pub struct TagNotes {
    /// How many fields have the tag, two where there are more.
    counts: [u8; NOTES],
    /// Where the value of the first of them begins.
    starts: [usize; NOTES],
    /// Where it ends.
    ends: [usize; NOTES],
}

/// The place of the note of a tag, if it is noted. Where the tag is known as the program is
/// compiled, so is the place.
#[inline(always)]
fn place_of(tag: u32) -> Option<usize>
    ensures value { result ≡ note_place tag }
    ensures inside { IfSome result (λ place. place < 65) }
{
    if tag < LATER {
        return Some(tag as usize);
    }
    match tag {
        110 => Some(61),
        111 => Some(62),
        150 => Some(63),
        527 => Some(64),
        _ => None,
    }
}

impl TagNotes {
    /// Notes of no fields.
    pub fn new() -> TagNotes
        ensures { AreNotesOf result [] }
    {
        TagNotes {
            counts: [0; NOTES],
            starts: [0; NOTES],
            ends: [0; NOTES],
        }
    }

    /// Drops what is noted.
    pub(crate) fn clear(&mut self)
        ensures { AreNotesOf self.new [] }
    {
        self.counts = [0; NOTES];
    }

    /// Notes these fields, in place of those noted before.
    pub fn note(&mut self, fields: &[Field])
        ensures { AreNotesOf self.new fields.now }
    {
        self.clear();
        for field in fields {
            self.add(*field);
        }
    }

    /// Notes a field at the place of its tag.
    #[inline(always)]
    fn put(&mut self, place: usize, field: Field)
        requires { place < 65 }
        ensures here { note_at self.new place ≡ span_with_field (note_at self.old place) field }
        ensures others { (other : ℕ) → other ≢ place → note_at self.new other
            ≡ note_at self.old other }
    {
        if self.counts[place] != 0 {
            self.counts[place] = 2;
            return;
        }
        self.counts[place] = 1;
        self.starts[place] = field.from;
        self.ends[place] = field.to;
    }

    /// Notes one more field.
    #[inline(always)]
    fn add(&mut self, field: Field)
        ensures { (fields : List Field) → AreNotesOf self.old fields
            → AreNotesOf self.new (fields ++ field ∷ []) }
    {
        let Some(place) = place_of(field.tag) else {
            return;
        };
        self.put(place, field);
    }

    /// Where the value of the first field with the tag is, and whether there are
    /// more, among the fields that are noted.
    #[inline(always)]
    pub fn find(&self, tag: u32) -> ValueSpan
        requires { IsNotedTag tag }
        ensures { (fields : List Field) → AreNotesOf self.now fields
            → result ≡ span_of_tag fields tag }
    {
        let Some(place) = place_of(tag) else {
            unreachable!()
        };
        let (from, to) = (self.starts[place], self.ends[place]);
        if self.counts[place] == 0 {
            ValueSpan::Absent
        } else if self.counts[place] == 1 {
            ValueSpan::One { from, to }
        } else {
            ValueSpan::Many { from, to }
        }
    }
}

/// Notes take the fields whose tags are noted.
impl FieldTaker for TagNotes {
    ghost has_taken = { AreNotesOf };

    #[inline(always)]
    fn take(&mut self, field: Field) -> Result<(), AllocFailed<Field>> {
        self.add(field);
        Ok(())
    }
}
