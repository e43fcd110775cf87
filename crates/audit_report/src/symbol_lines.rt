//! The lines of one symbol's report in the text of a day.
ghost use Rattle.std.specs.Prelude.{◌≡◌, ◌++◌, OnOk};
ghost use Rattle.audit_report.specs.DayTexts.{byte_in_line, symbol_lines, symbol_front};

use audit_base::faults::NoMemory;
use audit_base::names::Name;

/// Appends a byte of a report, and before it the symbol and a comma where the byte begins a line.
fn append_byte(symbol: &Name, begins: bool, byte: u8, out: &mut Vec<u8>) -> Result<(), NoMemory>
    ensures { let bytes = byte_in_line (symbol_front symbol.now) begins byte in
        OnOk result (out.new.items ≡ out.old.items ++ bytes) }
{
    if begins {
        out.extend_from_slice(symbol.bytes())?;
        out.push(b',')?;
    }
    out.push(byte)?;
    Ok(())
}

/// Appends a report of a symbol, with the symbol and a comma before each of its lines. After
/// `NoMemory` nothing is known of `out`.
pub fn append_symbol_lines(symbol: &Name, report: &[u8], out: &mut Vec<u8>) -> Result<(), NoMemory>
    ensures { OnOk result
        (out.new.items ≡ out.old.items ++ symbol_lines symbol.now report.now) }
{
    let mut begins = true;
    for byte in report {
        append_byte(symbol, begins, *byte, out)?;
        begins = *byte == b'\n';
    }
    Ok(())
}
