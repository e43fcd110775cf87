//! The columns of the CSV logs, nine of each.
ghost use Rattle.std.specs.Prelude.{◌≡◌, map};
ghost use Rattle.audit_base.specs.Columns as spec;

use super::terms::Which;

/// The names of the nine columns of a log of this kind, from left to right.
pub fn columns(log: Which) -> [&'static [u8]; 9]
    ensures { map (λ name. name.now) result ≡ spec.columns log }
{
    match log {
        Which::Orders => [
            b"kind",
            b"firm",
            b"id",
            b"time",
            b"symbol",
            b"side",
            b"quantity",
            b"price",
            b"target",
        ],
        Which::Trades => [
            b"trade",
            b"time",
            b"symbol",
            b"buy_firm",
            b"buy_id",
            b"sell_firm",
            b"sell_id",
            b"quantity",
            b"price",
        ],
    }
}

/// The name of a column. Columns are numbered from 1 to 9; no other number has a name.
pub fn column_name(log: Which, column: u8) -> &'static [u8]
    ensures { result.now ≡ spec.column_name log column }
{
    if 1 <= column && column <= 9 {
        columns(log)[column as usize - 1]
    } else {
        b""
    }
}
