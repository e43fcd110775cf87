//! Many lines that are read by one reader. A new reader for each line costs ten times as much as
//! its line: it has 16 KiB of buffers and tables to fill. A line whose quotes all close before its
//! end is read in a row with its neighbours, since its fields do not depend on what follows it.
ghost use Rattle.std.specs.Prelude.{OnOk};
ghost use Rattle.csv.specs.Records.{fields_of};
ghost use Rattle.csv_logs.specs.Readers.{ReadsLine};

use audit_base::faults::NoMemory;
use csv::{ByteRecord, Reader};
use std::io::Read;

/// The fields of the closed line that a reader is at.
pub(crate) fn next_fields<I: Read>(
    reader: &mut Reader<I>,
    fields: &mut ByteRecord,
) -> Result<(), NoMemory>
    ensures { OnOk result (ReadsLine I.remaining reader.old reader.new (fields_of fields.new)) }
{
    match reader.read_byte_record(fields) {
        Ok(true) => Ok(()),
        _ => Err(NoMemory),
    }
}
