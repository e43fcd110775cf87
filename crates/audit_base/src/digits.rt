//! Runs of decimal digits, read and written.
ghost use Rattle.std.specs.Prelude.{◌≡◌, ℕ, ◌+◌, ◌<◌, ◌≤◌, ◌^◌, ◌++◌, ◌∷◌, [], length, IsTrue, IfSome, vec_len, ◌-◌, ◌*◌, ◌/◌};
ghost use Rattle.std.specs.Vec.{vec_capacity};
ghost use Rattle.std.specs.List.{list_all};
ghost use Rattle.std.specs.Char.{is_ascii_digit};
ghost use Rattle.std.specs.Str.Parse.{digits_value};
ghost use Rattle.audit_base.specs.Digits as form;

/// Whether each byte is a decimal digit.
/// All are looked at, so that a known number of bytes are tested at once.
pub fn are_digits(text: &[u8]) -> bool
    ensures { result ≡ list_all is_ascii_digit text.now }
{
    let mut all = true;
    for byte in text {
        all &= byte.is_ascii_digit();
    }
    all
}

/// The number that at most 19 decimal digits write; 0 where there are none. It is below 10^n, where
/// n is how many they are.
pub fn value_of(text: &[u8]) -> u64
    requires digits { IsTrue (list_all is_ascii_digit text.now) }
    requires short { length text.now ≤ 19 }
    ensures value { result ≡ digits_value 10 text.now }
    ensures in_range { result < 10 ^ length text.now }
{
    let mut value = 0;
    for byte in text {
        value = value * 10 + (*byte as u64 - b'0' as u64);
    }
    value
}

/// The number that eight decimal digits write, all at once.
/// In a word whose lowest byte is the first digit, a product with 10 * 256 + 1 puts ten times
/// each digit and the next one into one byte, and no byte carries, since two digits are below 100.
/// So the second byte and each second one from there on write two digits.
fn value_of_eight(digits: &[u8]) -> u64
    requires size { length digits.now ≡ 8 }
    requires digits { IsTrue (list_all is_ascii_digit digits.now) }
    ensures value { result ≡ digits_value 10 digits.now }
    ensures in_range { result < 10 ^ 8 }
{
    let word = u64::from_le_bytes([
        digits[0], digits[1], digits[2], digits[3], digits[4], digits[5], digits[6], digits[7],
    ]);
    let pairs = (word - 0x3030_3030_3030_3030).wrapping_mul(10 * 256 + 1);
    let front = (pairs >> 8) % 256 * 100 + (pairs >> 24) % 256;
    (front * 100 + (pairs >> 40) % 256) * 100 + (pairs >> 56)
}

/// The number that nine decimal digits write. None exactly where a byte is no digit.
pub fn read_nine(digits: &[u8]) -> Option<u64>
    requires { length digits.now ≡ 9 }
    ensures value { result ≡ form.digits_form 9 digits.now }
    ensures in_range { IfSome result (λ n. n < 10 ^ 9) }
{
    let (front, last) = digits.split_at(8);
    if are_digits(front) && last[0].is_ascii_digit() {
        Some(value_of_eight(front) * 10 + (last[0] - b'0') as u64)
    } else {
        None
    }
}

/// The number that at most 19 decimal digits write, in one pass over them.
/// None exactly where a byte is no digit.
fn number_of(text: &[u8]) -> Option<u64>
    requires { length text.now ≤ 19 }
    ensures value { result ≡ form.number_form text.now }
    ensures in_range { IfSome result (λ value. value < 10 ^ length text.now) }
{
    let mut value: u64 = 0;
    for byte in text {
        if !byte.is_ascii_digit() {
            return None;
        }
        value = value * 10 + (*byte - b'0') as u64;
    }
    Some(value)
}

/// The number that 1 to `most` digits write, below 10^n, where n is how many they are. None exactly
/// where the text is anything else.
pub fn read_digits(text: &[u8], most: usize) -> Option<u64>
    requires { most ≤ 19 }
    ensures value { result ≡ form.digits_form most text.now }
    ensures some { IfSome result (λ _. (1 ≤ length text.now) × (length text.now ≤ most)) }
    ensures in_range { IfSome result (λ value. value < 10 ^ length text.now) }
{
    if text.is_empty() || text.len() > most {
        return None;
    }
    number_of(text)
}

/// The number that exactly `width` digits write, at most 19. None exactly where it is not from
/// `low` to `high`.
pub fn value_between(digits: &[u8], width: usize, low: u64, high: u64) -> Option<u64>
    requires digits { IsTrue (list_all is_ascii_digit digits.now) }
    requires width { (length digits.now ≡ width) × (width ≤ 19) }
    ensures value { result ≡ form.digits_between width low high digits.now }
    ensures in_range { IfSome result (λ v. (low ≤ v) × (v ≤ high)) }
{
    let value = value_of(digits);
    if low <= value && value <= high {
        Some(value)
    } else {
        None
    }
}

/// The number from `low` to `high` that exactly `width` digits write.
/// None exactly where the text is anything else.
pub fn read_digits_between(text: &[u8], width: usize, low: u64, high: u64) -> Option<u64>
    requires { width ≤ 19 }
    ensures value { result ≡ form.digits_between width low high text.now }
    ensures in_range { IfSome result (λ v. (low ≤ v) × (v ≤ high)) }
{
    if text.len() != width || !are_digits(text) {
        return None;
    }
    value_between(text, width, low, high)
}

/// Ten to the power of each place.
static POWERS_OF_TEN: [u64; 19] = [
    1,
    10,
    100,
    1_000,
    10_000,
    100_000,
    1_000_000,
    10_000_000,
    100_000_000,
    1_000_000_000,
    10_000_000_000,
    100_000_000_000,
    1_000_000_000_000,
    10_000_000_000_000,
    100_000_000_000_000,
    1_000_000_000_000_000,
    10_000_000_000_000_000,
    100_000_000_000_000_000,
    1_000_000_000_000_000_000,
];

/// Ten to this power. A look into the table costs less than a loop of products.
fn power_of_ten(exponent: usize) -> u64
    requires { exponent ≤ 18 }
    ensures { result ≡ 10 ^ exponent }
{
    POWERS_OF_TEN[exponent]
}

/// A fraction of this many places as one of `most` places.
pub fn scaled(fraction: u64, places: usize, most: usize) -> u64
    requires places { (places ≤ most) × (most ≤ 18) }
    requires fraction { fraction < 10 ^ places }
    ensures value { result ≡ fraction * 10 ^ (most - places) }
    ensures in_range { result < 10 ^ most }
{
    fraction * power_of_ten(most - places)
}

/// Appends the last `width` digits of the number, zeros in front where it is shorter. Asks for no
/// memory, since there is room.
pub fn append_digits(out: &mut Vec<u8>, width: usize, number: u64)
    requires { vec_len out.old + width ≤ vec_capacity out.old }
    ensures appended { out.new.items ≡ out.old.items ++ form.fixed_digits width number }
    ensures len { vec_len out.new ≡ vec_len out.old + width }
    ensures capacity { vec_capacity out.old ≤ vec_capacity out.new }
{
    if width > 0 {
        append_digits(out, width - 1, number / 10);
        append_byte(out, b'0' + (number % 10) as u8);
    }
}

/// Appends the digits of a fraction of this many places, without zeros at its end.
/// Asks for no memory, since there is room.
pub fn append_fraction_digits(out: &mut Vec<u8>, places: usize, number: u64)
    requires { vec_len out.old + places ≤ vec_capacity out.old }
    ensures appended { out.new.items ≡ out.old.items ++ form.fraction_digits places number }
    ensures capacity { vec_capacity out.old ≤ vec_capacity out.new }
{
    if places > 0 {
        if number % 10 == 0 {
            append_fraction_digits(out, places - 1, number / 10);
        } else {
            append_digits(out, places, number);
        }
    }
}

/// Appends a byte where there is room.
pub fn append_byte(out: &mut Vec<u8>, byte: u8)
    requires { vec_len out.old < vec_capacity out.old }
    ensures appended { out.new.items ≡ out.old.items ++ byte ∷ [] }
    ensures len { vec_len out.new ≡ vec_len out.old + 1 }
    ensures capacity { vec_capacity out.old ≤ vec_capacity out.new }
{
    let _ = out.push(byte);
}
