//! The name of the page of a symbol, and the address of a link to it.
ghost use Rattle.std.specs.Prelude.{◌≡◌, ◌<◌, ◌++◌, true, IfOk, IsTrue, OnOk};
ghost use Rattle.std.specs.List.{flat_map};
ghost use Rattle.page_markup.specs.Addresses.{is_relative};
ghost use Rattle.day_page.specs.FileNames as spec;

use audit_base::faults::NoMemory;
use std::alloc::Global;

/// Whether a byte is a `.` and not the first.
fn is_later_dot(is_first: bool, byte: u8) -> bool
    ensures { result ≡ spec.is_later_dot is_first byte }
{
    byte == b'.' && !is_first
}

/// Whether a byte of a symbol stands in a file name as it is.
fn is_file_byte(is_first: bool, byte: u8) -> bool
    ensures { result ≡ spec.is_file_byte is_first byte }
{
    byte.is_ascii_alphanumeric() || byte == b'_' || is_later_dot(is_first, byte)
}

/// A hexadecimal digit.
fn hex_digit(number: u8) -> u8
    requires { number < 16 }
    ensures { result ≡ spec.hex_digit number }
{
    if number < 10 {
        48 + number
    } else {
        55 + number
    }
}

/// Appends a byte of a symbol as it stands in a file name.
fn append_file_byte(is_first: bool, byte: u8, out: &mut Vec<u8>) -> Result<(), NoMemory>
    ensures written { OnOk result (out.new.items ≡ out.old.items ++ spec.file_byte is_first byte) }
    ensures relative { IsTrue (is_relative (spec.file_byte is_first byte)) }
{
    if is_file_byte(is_first, byte) {
        out.push(byte)?;
    } else {
        out.push(b'%')?;
        out.push(hex_digit(byte / 16))?;
        out.push(hex_digit(byte % 16))?;
    }
    Ok(())
}

/// Appends the bytes of a symbol as they stand in a file name.
fn append_file_bytes(symbol: &[u8], out: &mut Vec<u8>) -> Result<(), NoMemory>
    ensures written { OnOk result
        (out.new.items ≡ out.old.items ++ spec.file_bytes true symbol.now) }
    ensures relative { OnOk result (IsTrue (is_relative (spec.file_bytes true symbol.now))) }
{
    let mut is_first = true;
    for byte in symbol {
        append_file_byte(is_first, *byte, out)?;
        is_first = false;
    }
    Ok(())
}

/// The name of the page of a symbol, which is that of a file beside other pages.
pub fn file_name(alloc: Global, symbol: &[u8]) -> Result<Vec<u8>, NoMemory>
    ensures written { IfOk result (λ name. name.items ≡ spec.file_name symbol.now) }
    ensures relative { IfOk result (λ name. IsTrue (is_relative name.items)) }
{
    let mut name = Vec::new(alloc);
    append_file_bytes(symbol, &mut name)?;
    name.extend_from_slice(b".html")?;
    Ok(name)
}

/// Appends a byte of a file name as it stands in the address of a link.
fn append_address_byte(byte: u8, out: &mut Vec<u8>) -> Result<(), NoMemory>
    ensures { OnOk result (out.new.items ≡ out.old.items ++ spec.address_byte byte) }
{
    if byte == b'%' {
        out.extend_from_slice(b"%25")?;
    } else {
        out.push(byte)?;
    }
    Ok(())
}

/// Appends a file name as it stands in the address of a link.
fn append_address(name: &[u8], out: &mut Vec<u8>) -> Result<(), NoMemory>
    ensures { OnOk result
        (out.new.items ≡ out.old.items ++ flat_map spec.address_byte name.now) }
{
    for byte in name {
        append_address_byte(*byte, out)?;
    }
    Ok(())
}

/// The address of a link to the page of a symbol.
pub fn page_address(alloc: Global, symbol: &[u8]) -> Result<Vec<u8>, NoMemory>
    ensures written { IfOk result (λ address. address.items ≡ spec.page_address symbol.now) }
    ensures relative { IfOk result (λ address. IsTrue (is_relative address.items)) }
{
    let name = file_name(alloc, symbol)?;
    let mut address = Vec::new(alloc);
    append_address(&name, &mut address)?;
    Ok(address)
}
