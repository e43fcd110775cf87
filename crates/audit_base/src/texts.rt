//! The canonical texts of numbers, prices and times. What each of these calls writes of a value in
//! range is read again as that value, and holds no comma, quote or line end.
//!
//! As every call of this project that allocates, these take the allocator first. `out` grows by the
//! one that it holds.
ghost use Rattle.std.specs.Prelude.{◌≡◌, ◌+◌, ◌<◌, ◌≤◌, ◌^◌, ◌++◌, Some, OnOk, OnErr, IsTrue, decimal, vec_len};
ghost use Rattle.std.specs.Vec.{vec_capacity};
ghost use Rattle.std.specs.List.{list_all};
ghost use Rattle.audit_base.specs.Names.{is_name_byte};
ghost use Rattle.audit_base.specs.Digits.{fraction_digits};
ghost use Rattle.audit_base.specs.Numbers.{point_and_digits, price_end, IsPrice, IsQuantity, price_form, price_text, quantity_form};
ghost use Rattle.audit_base.specs.Stamps.{stamp_form, stamp_text, date_text, clock_text, nano_text};

use super::digits::{append_byte, append_digits, append_fraction_digits};
use super::faults::NoMemory;
use super::stamps::Stamp;
use itoa::Buffer;
use std::alloc::Global;

/// Appends the number in decimal, without leading zeros. Out of memory, it leaves `out` as it was.
pub fn write_number(_alloc: Global, number: u128, out: &mut Vec<u8>) -> Result<(), NoMemory>
    ensures appended { OnOk result (out.new.items ≡ out.old.items ++ decimal number) }
    ensures unchanged { OnErr result (out.new.items ≡ out.old.items) }
    ensures read_again { IsQuantity number → quantity_form (decimal number) ≡ Some number }
    ensures unquoted { IsTrue (list_all is_name_byte (decimal number)) }
{
    let mut buffer = Buffer::new();
    out.extend_from_slice(buffer.format(number).as_bytes())?;
    Ok(())
}

/// Appends the canonical text of a price of this many units of 10^-8: its whole part without
/// leading zeros, then, where there is a fraction, `.` and its digits without zeros at the end.
/// `units` is at most 10^18, whose text `10000000000` is the one that is not read again.
/// Out of memory, it leaves `out` as it was.
pub fn write_price(_alloc: Global, units: u64, out: &mut Vec<u8>) -> Result<(), NoMemory>
    requires { units ≤ price_end }
    ensures appended { OnOk result (out.new.items ≡ out.old.items ++ price_text units) }
    ensures unchanged { OnErr result (out.new.items ≡ out.old.items) }
    ensures read_again { IsPrice units → price_form (price_text units) ≡ Some units }
    ensures unquoted { IsTrue (list_all is_name_byte (price_text units)) }
{
    let mut buffer = Buffer::new();
    let whole = buffer.format(units / 100_000_000).as_bytes();
    out.reserve(whole.len() + 9)?;
    let _ = out.extend_from_slice(whole);
    append_fraction(out, units % 100_000_000);
    Ok(())
}

/// Appends the digits of a fraction of eight places with a point before them, or nothing for zero.
fn append_fraction(out: &mut Vec<u8>, fraction: u64)
    requires room { vec_len out.old + 9 ≤ vec_capacity out.old }
    requires below { fraction < 10 ^ 8 }
    ensures { out.new.items ≡ out.old.items ++ point_and_digits (fraction_digits 8 fraction) }
{
    if fraction > 0 {
        append_byte(out, b'.');
        append_fraction_digits(out, 8, fraction);
    }
}

/// Appends `YYYYMMDD`.
fn append_date(out: &mut Vec<u8>, day: u64)
    requires room { vec_len out.old + 8 ≤ vec_capacity out.old }
    ensures appended { out.new.items ≡ out.old.items ++ date_text day }
    ensures len { vec_len out.new ≡ vec_len out.old + 8 }
    ensures capacity { vec_capacity out.old ≤ vec_capacity out.new }
{
    append_digits(out, 4, day / 31 / 12);
    append_digits(out, 2, day / 31 % 12 + 1);
    append_digits(out, 2, day % 31 + 1);
}

/// Appends `HH:MM:SS`.
fn append_clock(out: &mut Vec<u8>, second: u64)
    requires room { vec_len out.old + 8 ≤ vec_capacity out.old }
    ensures appended { out.new.items ≡ out.old.items ++ clock_text second }
    ensures len { vec_len out.new ≡ vec_len out.old + 8 }
    ensures capacity { vec_capacity out.old ≤ vec_capacity out.new }
{
    append_digits(out, 2, second / 61 / 60);
    append_byte(out, b':');
    append_digits(out, 2, second / 61 % 60);
    append_byte(out, b':');
    append_digits(out, 2, second % 61);
}

/// Appends the point and the digits of a fraction of a second, or nothing for zero.
fn append_nano(out: &mut Vec<u8>, nano: u64)
    requires room { vec_len out.old + 10 ≤ vec_capacity out.old }
    ensures { out.new.items ≡ out.old.items ++ nano_text nano }
{
    if nano == 0 {
        return;
    }
    append_byte(out, b'.');
    if nano % 1_000_000 == 0 {
        append_digits(out, 3, nano / 1_000_000);
    } else if nano % 1_000 == 0 {
        append_digits(out, 6, nano / 1_000);
    } else {
        append_digits(out, 9, nano);
    }
}

/// Appends the canonical text of a point in time: `YYYYMMDD-HH:MM:SS`, then no fraction where it is
/// zero, else `.` and the fewest digits of three, six and nine that lose nothing. Out of
/// memory, it leaves `out` as it was.
pub fn write_stamp(_alloc: Global, stamp: Stamp, out: &mut Vec<u8>) -> Result<(), NoMemory>
    ensures appended { OnOk result (out.new.items ≡ out.old.items ++ stamp_text stamp) }
    ensures unchanged { OnErr result (out.new.items ≡ out.old.items) }
    ensures read_again { stamp_form (stamp_text stamp) ≡ Some stamp }
    ensures unquoted { IsTrue (list_all is_name_byte (stamp_text stamp)) }
{
    let Stamp { second, nano } = stamp;
    out.reserve(27)?;
    append_date(out, second / (24 * 60 * 61));
    append_byte(out, b'-');
    append_clock(out, second % (24 * 60 * 61));
    append_nano(out, nano as u64);
    Ok(())
}
