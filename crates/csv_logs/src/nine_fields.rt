//! The nine fields of a record's line. The place of each field is asked of the record of `csv`
//! once: a field is tested, and read again where its record is made.
ghost use Rattle.std.specs.Prelude.{◌≡◌, [], IsTrue, length, option_map, unwrap_or};
ghost use Rattle.std.specs.List.{list_all};
ghost use Rattle.audit_base.specs.Names.{is_name_byte};
ghost use Rattle.csv.specs.Records.{field_at};

use crate::fields::Fields;
use std::marker::Model;

/// The nine fields of a line. Contracts see their list.
#[derive(Drop)]
pub struct NineFields<'l> {
    texts: [&'l [u8]; 9],
    /// Each byte of each field is known to be one that a name may hold.
    have_name_bytes: bool,
}

impl<'l> Model for NineFields<'l> {
    ghost use Rattle.std.specs.Prelude.{ℕ, List};

    ghost Value = { List (List ℕ) };

    ghost use Rattle.csv_logs.specs.NineFields.{texts_of_nine_fields, AreNineFields};

    ghost view = { texts_of_nine_fields };

    ghost invariant = { AreNineFields };
}

/// The text of a field, which is empty where there is none at this index.
#[inline(always)]
fn text_at(fields: &Fields, index: usize) -> &[u8]
    ensures { result.now ≡ unwrap_or (field_at fields.now index) [] }
{
    match fields.get(index) {
        Some(text) => text,
        None => &[],
    }
}

impl<'l> NineFields<'l> {
    /// The fields of a line that has nine.
    pub(crate) fn of(fields: &'l Fields) -> NineFields<'l>
        requires { length fields.now ≡ 9 }
        ensures { result ≡ fields.now }
    {
        NineFields {
            texts: [
                text_at(fields, 0),
                text_at(fields, 1),
                text_at(fields, 2),
                text_at(fields, 3),
                text_at(fields, 4),
                text_at(fields, 5),
                text_at(fields, 6),
                text_at(fields, 7),
                text_at(fields, 8),
            ],
            have_name_bytes: fields.have_name_bytes(),
        }
    }

    /// The text of a field, if there is one at this index.
    pub(crate) fn get(&self, index: usize) -> Option<&'l [u8]>
        ensures { option_map (λ text. text.now) result ≡ field_at self.now index }
    {
        if index < 9 {
            Some(self.texts[index])
        } else {
            None
        }
    }

    /// Whether it is known that a name may have all bytes of all fields.
    pub(crate) fn have_name_bytes(&self) -> bool
        ensures { IsTrue result → IsTrue (list_all (list_all is_name_byte) self.now) }
    {
        self.have_name_bytes
    }
}
