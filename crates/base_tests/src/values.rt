//! Names, numbers, prices and times: what their texts are read as, and what is written of them.
use audit_base::faults::NoMemory;
use audit_base::names::read_name;
use audit_base::numbers::{market_price, read_price, read_quantity};
use audit_base::stamps::{Stamp, read_stamp};
use audit_base::terms::Side;
use audit_base::texts::{write_number, write_price, write_stamp};
use std::process::Abort;
use std::test::Fail;

/// What a text is read as.
#[derive(Clone, Copy)]
enum Kind {
    Price,
    Quantity,
    Stamp,
}

/// The units of a price, the number of a quantity, or the second and the nanosecond of a time; nothing
/// where the text is none.
fn read(kind: Kind, text: &[u8]) -> Option<(u64, u32)> {
    match kind {
        Kind::Price => Some((read_price(text)?.units(), 0)),
        Kind::Quantity => Some((read_quantity(text)?.value(), 0)),
        Kind::Stamp => {
            let stamp = read_stamp(text)?;
            Some((stamp.second, stamp.nano))
        }
    }
}

const PRICES: [(&str, Option<(u64, u32)>); 18] = [
    ("0", Some((0, 0))),
    ("100", Some((10_000_000_000, 0))),
    ("00100.0", Some((10_000_000_000, 0))),
    ("010.50", Some((1_050_000_000, 0))),
    ("0.00000001", Some((1, 0))),
    ("0000000007.30000000", Some((730_000_000, 0))),
    ("9999999999.99999999", Some((999_999_999_999_999_999, 0))),
    ("10000000000", None),
    ("0.000000001", None),
    ("", None),
    (".5", None),
    ("5.", None),
    ("1.2.3", None),
    ("+1", None),
    ("-1", None),
    ("1e3", None),
    (" 1", None),
    ("1,5", None),
];

const QUANTITIES: [(&str, Option<(u64, u32)>); 15] = [
    ("1", Some((1, 0))),
    ("100.0", Some((100, 0))),
    ("0000000000007", Some((7, 0))),
    ("00000000000007", None),
    ("5.00000000000000000000", Some((5, 0))),
    ("1000000000000", Some((1_000_000_000_000, 0))),
    ("1000000000001", None),
    ("9999999999999", None),
    ("0", None),
    ("0.0", None),
    ("5.", None),
    ("5.01", None),
    (".0", None),
    ("", None),
    ("-5", None),
];

const STAMPS: [(&str, Option<(u64, u32)>); 33] = [
    ("20240102-09:00:00", Some((66_137_316_300, 0))),
    ("20240102-09:00:00.000", Some((66_137_316_300, 0))),
    ("20240102-09:00:00.123", Some((66_137_316_300, 123_000_000))),
    ("20240102-09:00:00.000123", Some((66_137_316_300, 123_000))),
    ("20240102-09:00:00.000000123", Some((66_137_316_300, 123))),
    ("20240102-09:00:60", Some((66_137_316_360, 0))),
    ("20240231-23:59:60", Some((66_142_641_599, 0))),
    ("00000101-00:00:00", Some((0, 0))),
    (
        "99991231-23:59:60.999999999",
        Some((326_764_799_999, 999_999_999)),
    ),
    ("", None),
    ("20240002-09:00:00", None),
    ("20241302-09:00:00", None),
    ("20240100-09:00:00", None),
    ("20240132-09:00:00", None),
    ("20240102-24:00:00", None),
    ("20240102-09:60:00", None),
    ("20240102-09:00:61", None),
    ("20240102 09:00:00", None),
    ("20240102-09.00:00", None),
    ("20240102-09:00.00", None),
    ("20240102-09:00", None),
    ("2024010a-09:00:00", None),
    ("20240102-09:00:00.", None),
    ("20240102-09:00:00.1", None),
    ("20240102-09:00:00.12", None),
    ("20240102-09:00:00.1234", None),
    ("20240102-09:00:00.12345", None),
    ("20240102-09:00:00.1234567", None),
    ("20240102-09:00:00.12345678", None),
    ("20240102-09:00:00.1234567890", None),
    ("20240102-09:00:00,123", None),
    ("20240102-09:00:00.12a", None),
    ("20240102-09:00:00Z", None),
];

/// Asserts what each text is read as.
fn assert_read(rt: &impl Abort, kind: Kind, rows: &[(&str, Option<(u64, u32)>)]) {
    for &(text, wanted) in rows {
        assert!(rt; read(kind, text.as_bytes()) == wanted, "{text}");
    }
}

// A name has 1 to 64 bytes, printable ones but commas and quotes, and names are ordered byte by byte.
#[test]
fn texts_are_read(rt: HostRuntime) {
    assert_read(&rt, Kind::Price, &PRICES);
    assert_read(&rt, Kind::Quantity, &QUANTITIES);
    assert_read(&rt, Kind::Stamp, &STAMPS);
    assert!(rt; market_price(Side::Buy).units() == 999_999_999_999_999_999);
    assert!(rt; market_price(Side::Sell).units() == 0);
}

const NAMES: [(&[u8], bool); 15] = [
    (b"", false),
    (b"A", true),
    (
        b"0123456789abcdef0123456789abcdef0123456789abcdef0123456789abcdef",
        true,
    ),
    (
        b"0123456789abcdef0123456789abcdef0123456789abcdef0123456789abcdef0",
        false,
    ),
    (b"A\x1F", false),
    (b"A ", true),
    (b"A!", true),
    (b"A\"", false),
    (b"A#", true),
    (b"A+", true),
    (b"A,", false),
    (b"A-", true),
    (b"A~", true),
    (b"A\x7F", false),
    (b"A\xFF", false),
];

#[test]
fn names_are_read_and_ordered(rt: HostRuntime) {
    for &(text, is_name) in &NAMES {
        assert!(rt; read_name(text).is_some() == is_name);
    }
    for (lesser, greater) in [("A", "AA"), ("AZ", "B"), ("B1", "B2"), ("Z", "a")] {
        assert!(rt; read_name(lesser.as_bytes()) < read_name(greater.as_bytes()));
    }
}

const WRITTEN: [(u64, &str, &str); 9] = [
    (0, "0", "0"),
    (1, "1", "0.00000001"),
    (7, "7", "0.00000007"),
    (1_050_000_000, "1050000000", "10.5"),
    (10_000_000_000, "10000000000", "100"),
    (10_000_100_000, "10000100000", "100.001"),
    (1_000_000_000_000, "1000000000000", "10000"),
    (
        999_999_999_999_999_999,
        "999999999999999999",
        "9999999999.99999999",
    ),
    (
        1_000_000_000_000_000_000,
        "1000000000000000000",
        "10000000000",
    ),
];

/// A number as it is, and as the price of so many units, with a blank between them.
fn written<R: AllocGlobal + Abort>(rt: &R, units: u64) -> Result<Vec<u8>, NoMemory> {
    assert!(rt; units <= 1_000_000_000_000_000_000);
    let mut out = Vec::new(rt.alloc());
    write_number(rt.alloc(), u128::from(units), &mut out)?;
    out.push(b' ')?;
    write_price(rt.alloc(), units, &mut out)?;
    Ok(out)
}

#[test]
fn numbers_and_prices_have_the_fewest_digits(rt: HostRuntime) -> Result<(), Fail> {
    for &(units, number, price) in &WRITTEN {
        let out = written(&rt, units)?;
        assert!(rt; out.as_slice().starts_with(number.as_bytes()), "{number}");
        assert!(rt; out.as_slice().ends_with(price.as_bytes()), "{price}");
        assert!(rt; out.len() == number.len() + 1 + price.len(), "{price}");
    }
    let mut out = Vec::new(rt.alloc());
    write_number(rt.alloc(), u128::MAX, &mut out)?;
    assert!(rt; out.as_slice() == b"340282366920938463463374607431768211455".as_slice());
    Ok(())
}

const TIMES: [(u64, u32, &str); 6] = [
    (0, 0, "00000101-00:00:00"),
    (66_137_316_300, 0, "20240102-09:00:00"),
    (66_137_316_360, 500_000_000, "20240102-09:00:60.500"),
    (66_137_316_300, 120_000, "20240102-09:00:00.000120"),
    (66_137_316_300, 123, "20240102-09:00:00.000000123"),
    (326_764_799_999, 999_999_999, "99991231-23:59:60.999999999"),
];

#[test]
fn stamps_have_the_fewest_digits(rt: HostRuntime) -> Result<(), Fail> {
    for &(second, nano, text) in &TIMES {
        assert!(rt; second < 326_764_800_000 && nano < 1_000_000_000);
        let mut out = Vec::new(rt.alloc());
        write_stamp(rt.alloc(), Stamp { second, nano }, &mut out)?;
        assert!(rt; out.as_slice() == text.as_bytes(), "{text}");
    }
    Ok(())
}
