//! Looks a tag up among the fields of a body.
ghost use Rattle.std.specs.Prelude.{◌≡◌, position};
ghost use Rattle.std.specs.List.{list_any};
ghost use Rattle.fix_fields.specs.TagSearch.{search_for_tag, has_tag};

use crate::field::{Field, Found};

/// The first field with the tag, and whether there are more. It takes no memory.
pub fn find_field(fields: &[Field], tag: u32) -> Found
    ensures { result ≡ search_for_tag fields.now tag }
{
    match first_place(fields, tag) {
        None => Found::Absent,
        Some(first) if occurs(&fields[first + 1..], tag) => Found::Many(first),
        Some(first) => Found::One(first),
    }
}

fn first_place(fields: &[Field], tag: u32) -> Option<usize>
    ensures { result ≡ position (has_tag tag) fields.now }
{
    fields.iter().position(|field| field.tag == tag)
}

fn occurs(fields: &[Field], tag: u32) -> bool
    ensures { result ≡ list_any (has_tag tag) fields.now }
{
    fields.iter().any(|field| field.tag == tag)
}
