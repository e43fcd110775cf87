//! What one generated record holds.
ghost use Rattle.std.specs.Prelude.{◌≡◌, ◌<◌, ◌≤◌, ◌∷◌, IsTrue, IfOk, decimal};
ghost use Rattle.audit_base.specs.Names.{is_name_byte};
ghost use Rattle.log_maker.specs.Generator as spec;

use audit_base::faults::NoMemory;
use audit_base::names::{Key, Name, read_name};
use audit_base::numbers::{Price, Quantity};
use audit_base::records::OrderRecord;
use audit_base::stamps::Stamp;
use audit_base::terms::{Life, Side};
use audit_base::texts::write_number;
use std::alloc::Global;

/// The second of 20240102-09:00:00, by which stamps are ordered.
const OPENING_SECOND: u64 = (((2024 * 12 * 31 + 1) * 24 + 9) * 60) * 61;

/// The symbol of every generated record: `GEN`.
pub fn generated_symbol() -> Name
    ensures { result ≡ spec.generated_symbol }
{
    match read_name(b"GEN") {
        Some(symbol) => symbol,
        None => unreachable!(),
    }
}

/// The name of a letter and a number. `text` is a buffer that each call uses anew.
fn name_of(alloc: Global, letter: u8, number: u32, text: &mut Vec<u8>) -> Result<Name, NoMemory>
    requires { IsTrue (is_name_byte letter) }
    ensures { IfOk result (λ name. name ≡ letter ∷ decimal number) }
{
    text.clear();
    text.push(letter)?;
    write_number(alloc, u128::from(number), text)?;
    match read_name(text) {
        Some(name) => Ok(name),
        None => unreachable!(),
    }
}

/// The key of the record with this number.
fn key_of(alloc: Global, number: u32, text: &mut Vec<u8>) -> Result<Key, NoMemory>
    ensures { IfOk result (λ key. key ≡ spec.key_of_number number) }
{
    let firm = name_of(alloc, b'F', number % 5, text)?;
    let id = name_of(alloc, b'O', number, text)?;
    Ok(Key { firm, id })
}

/// The time of the record with this number.
fn time_of(number: u32) -> Stamp
    requires { number ≤ 1000000 }
    ensures { result ≡ spec.time_of_number number }
{
    Stamp {
        second: OPENING_SECOND,
        nano: number,
    }
}

/// The side that a state says.
fn side_of(state: u32) -> Side
    ensures { result ≡ spec.side_of_state state }
{
    if state % 2 == 0 {
        Side::Buy
    } else {
        Side::Sell
    }
}

/// The quantity that a state says.
fn quantity_of(state: u32) -> Quantity
    ensures { result ≡ spec.quantity_of_state state }
{
    match Quantity::of(1 + u64::from(state / 2 % 100)) {
        Some(quantity) => quantity,
        None => unreachable!(),
    }
}

/// The price that a state says.
fn price_of(state: u32) -> Price
    ensures { result ≡ spec.price_of_state state }
{
    match Price::of((9_900 + u64::from(state / 200 % 201)) * 1_000_000) {
        Some(price) => price,
        None => unreachable!(),
    }
}

/// The record with this number, from 1, at the state that belongs to it.
pub fn record_of(
    alloc: Global,
    number: u32,
    state: u32,
    text: &mut Vec<u8>,
) -> Result<OrderRecord, NoMemory>
    requires least { 1 ≤ number }
    requires most { number ≤ 1000000 }
    ensures { IfOk result (λ entry. entry ≡ spec.record_of_state number state) }
{
    let key = key_of(alloc, number, text)?;
    let time = time_of(number);
    if number % 10 == 0 {
        let target = name_of(alloc, b'O', number - 5, text)?;
        Ok(OrderRecord::Cancel {
            key,
            time,
            symbol: generated_symbol(),
            target,
        })
    } else {
        Ok(OrderRecord::New {
            key,
            time,
            symbol: generated_symbol(),
            side: side_of(state),
            quantity: quantity_of(state),
            price: price_of(state),
            life: Life::Rests,
        })
    }
}
