//! Writing order records in either form.
ghost use Rattle.std.specs.Prelude.{◌≡◌, ◌++◌, OnOk};
ghost use Rattle.written_logs.specs.Texts as spec;

use audit_base::faults::NoMemory;
use audit_base::records::OrderRecord;
use audit_base::terms::Form;
use csv_logs::writers::write_orders;
use fix_messages::writers::write_order;
use std::alloc::Global;

/// The bytes of the header of a CSV order log, with its LF.
const ORDER_HEADER: usize = 52;

/// Appends what an order log begins with, before its first record: the header of a CSV log.
pub fn append_order_head(alloc: Global, form: Form, out: &mut Vec<u8>) -> Result<(), NoMemory>
    ensures { OnOk result (out.new.items ≡ out.old.items ++ spec.order_head form) }
{
    match form {
        Form::Csv => write_orders(alloc, &[], out),
        Form::Fix => Ok(()),
    }
}

/// Appends the lines of these orders.
fn append_csv_lines(
    alloc: Global,
    entries: &[OrderRecord],
    out: &mut Vec<u8>,
) -> Result<(), NoMemory>
    ensures { OnOk result
        (out.new.items ≡ out.old.items ++ spec.order_lines Form.Csv entries.now) }
{
    // The writer of whole logs writes the header too, which is passed over.
    let mut text = Vec::new(alloc);
    write_orders(alloc, entries, &mut text)?;
    out.extend_from_slice(&text[ORDER_HEADER..])?;
    Ok(())
}

/// Appends the messages of these orders.
fn append_messages(
    alloc: Global,
    entries: &[OrderRecord],
    out: &mut Vec<u8>,
) -> Result<(), NoMemory>
    ensures { OnOk result
        (out.new.items ≡ out.old.items ++ spec.order_lines Form.Fix entries.now) }
{
    for entry in entries {
        write_order(alloc, entry, out)?;
    }
    Ok(())
}

/// Appends what stands for these orders in a log, a line or a message for each, and no header. So
/// the text of a log can be made block by block. Out of memory, some of it may have been appended.
pub fn append_order_lines(
    alloc: Global,
    form: Form,
    entries: &[OrderRecord],
    out: &mut Vec<u8>,
) -> Result<(), NoMemory>
    ensures { OnOk result (out.new.items ≡ out.old.items ++ spec.order_lines form entries.now) }
{
    match form {
        Form::Csv => append_csv_lines(alloc, entries, out),
        Form::Fix => append_messages(alloc, entries, out),
    }
}
