//! The fields of a line, and whether each of their bytes is known to be one that a name may hold.
//! That is known of an unquoted line, whose bytes have all been tested before `csv` reads it: so
//! a name there is tested by its size alone.
ghost use Rattle.std.specs.Prelude.{◌≡◌, [], OnOk, IfOk, IsTrue, length, option_map};
ghost use Rattle.std.specs.List.{list_all};
ghost use Rattle.audit_base.specs.Names.{is_name_byte};
ghost use Rattle.csv.specs.Records.{field_at, fields_of};
ghost use Rattle.csv_logs.specs.Readers.{IsAtClosedLine, ReadsLine};

use crate::reader::next_fields;
use audit_base::faults::NoMemory;
use csv::{ByteRecord, Reader};
use std::alloc::Global;
use std::io::Read;
use std::marker::Model;

/// The fields of a line. Contracts see their list.
#[derive(Drop)]
pub struct Fields {
    texts: ByteRecord,
    /// Each byte of each field is known to be one that a name may hold.
    have_name_bytes: bool,
}

impl Model for Fields {
    ghost use Rattle.std.specs.Prelude.{ℕ, List};

    ghost Value = { List (List ℕ) };

    ghost use Rattle.csv_logs.specs.FieldBytes.{texts_of_fields, KnowsNameBytes};

    ghost view = { texts_of_fields };

    ghost invariant = { KnowsNameBytes };
}

impl Fields {
    /// Fields to be read into.
    pub(crate) fn new(alloc: Global) -> Fields {
        Fields {
            texts: ByteRecord::new(alloc),
            have_name_bytes: false,
        }
    }

    /// The fields that `csv` has read.
    pub(crate) fn of(texts: ByteRecord) -> Fields
        ensures { result ≡ fields_of texts }
    {
        Fields {
            texts,
            have_name_bytes: false,
        }
    }

    /// Reads the fields of the closed line that a reader is at, in place of those before, given
    /// whether the line is known to be unquoted.
    pub(crate) fn read_next<I: Read>(
        &mut self,
        reader: &mut Reader<I>,
        unquoted: bool,
    ) -> Result<(), NoMemory>
        requires { IsAtClosedLine I.remaining reader.old unquoted }
        ensures { OnOk result (ReadsLine I.remaining reader.old reader.new self.new) }
    {
        self.have_name_bytes = false;
        next_fields(reader, &mut self.texts)?;
        self.have_name_bytes = unquoted;
        Ok(())
    }

    /// How many fields there are.
    pub(crate) fn len(&self) -> usize
        ensures { result ≡ length self.now }
    {
        self.texts.len()
    }

    /// The text of a field, if there is one at this index.
    pub(crate) fn get(&self, index: usize) -> Option<&[u8]>
        ensures { option_map (λ text. text.now) result ≡ field_at self.now index }
    {
        self.texts.get(index)
    }

    /// Whether it is known that a name may have all bytes of all fields.
    pub(crate) fn have_name_bytes(&self) -> bool
        ensures { IsTrue result → IsTrue (list_all (list_all is_name_byte) self.now) }
    {
        self.have_name_bytes
    }
}
