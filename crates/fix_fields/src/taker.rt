//! What the fields of a body are handed to as they are read: a list
//! of them, or notes of some of them.
ghost use Rattle.std.specs.Prelude.{◌≡◌, ◌∷◌, ◌++◌, [], List, OnOk};
ghost use Rattle.fix_fields.specs.declared.field.Field.{Field};

use crate::field::Field;
use std::alloc::AllocFailed;

/// What is handed the fields of a body, one after another.
pub(crate) trait FieldTaker {
    // These are the fields that it has been handed.
    ghost has_taken: { Self → List Field → Type 0 };

    /// Takes one more field. It fails for want of memory alone.
    fn take(&mut self, field: Field) -> Result<(), AllocFailed<Field>>
        ensures { OnOk result ((fields : List Field) → has_taken self.old fields
            → has_taken self.new (fields ++ field ∷ [])) };
}

/// A list keeps all fields.
impl FieldTaker for Vec<Field> {
    ghost has_taken = { λ list fields. list.items ≡ fields };

    #[inline(always)]
    fn take(&mut self, field: Field) -> Result<(), AllocFailed<Field>> {
        self.push(field)
    }
}
