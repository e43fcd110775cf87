//! A name as it is in a message.
//!
//! All bytes of a name are looked up in a table of 256, with no way out of the loop, since names
//! are short.
ghost use Rattle.std.specs.Prelude.{◌≡◌};
ghost use Rattle.audit_base.specs.Names.{name_form};

use audit_base::names::{Name, is_name, read_name_by_size};
use std::marker::Model;

/// A name as it is in a message: its bytes are tested, and copied only where they are kept.
/// Contracts see the list of them.
#[derive(Drop)]
pub(crate) struct NameText<'m> {
    text: &'m [u8],
}

impl<'m> Model for NameText<'m> {
    ghost use Rattle.std.specs.Prelude.{ℕ, List, IsTrue};
    ghost use Rattle.audit_base.specs.Names.{is_name};

    ghost Value = { List ℕ };

    ghost view = { λ name. name.text.now };

    ghost invariant = { λ name. IsTrue (is_name name.text.now) };
}

impl<'m> NameText<'m> {
    /// The name that the text is. None exactly where it is not in the form of a name.
    pub(crate) fn of(text: &'m [u8]) -> Option<NameText<'m>>
        ensures { result ≡ name_form text.now }
    {
        if is_name(text) {
            Some(NameText { text })
        } else {
            None
        }
    }

    /// Its bytes.
    pub(crate) fn bytes(&self) -> &[u8]
        ensures { result.now ≡ self.now }
    {
        self.text
    }

    /// The name.
    pub(crate) fn name(&self) -> Name
        ensures { result ≡ self.now }
    {
        match read_name_by_size(self.text) {
            Some(name) => name,
            None => unreachable!(),
        }
    }
}
