//! The digests in the rows of an answer. Each row is tested again, whatever the query asked for.
ghost use Rattle.std.specs.Prelude.{◌≡◌, ◌&&◌, ◌∷◌, [], IfOk, IfSome, is_ok, is_some};
ghost use Rattle.hex.specs.Hex.{encode_lower};
ghost use Rattle.digest_sqlite.specs.DigestRows.{are_digest_rows, digest_columns, is_digest_column, is_digest_row, is_label_column, rows_of_digests};
ghost use Rattle.sqlite_value.specs.Order.{column};
ghost use Rattle.sqlite_value.specs.Value.{owned};
ghost use Rattle.sqlite_value.specs.declared.value.Value.TheVariants.{Text};

use audit_base::names::Name;
use case_keeper::keeper::KeepFault;
use log_digests::digests::{LogDigest, LogDigests};
use log_digests::digits::read_digest;
use sqlite::Row;
use sqlite::types::ValueRef;

/// The value in a column, which is null past the last one.
fn value_at(row: &Row, at: usize) -> ValueRef<'_>
    ensures { owned result ≡ column row.now at }
{
    match row.get_ref(at) {
        Ok(value) => value,
        Err(_) => ValueRef::Null,
    }
}

/// Whether a column is this label.
fn has_label(row: &Row, label: &Name) -> bool
    ensures { result ≡ is_label_column label.now (column row.now 0) }
{
    match value_at(row, 0) {
        ValueRef::Text(text) => text == label.bytes(),
        _ => false,
    }
}

/// The digest whose digits a column is.
fn digest_at(row: &Row, at: usize) -> Option<LogDigest>
    ensures exact { is_some result ≡ is_digest_column (column row.now at) }
    ensures digits { IfSome result (λ digest. column row.now at ≡ Text (encode_lower digest)) }
{
    match value_at(row, at) {
        ValueRef::Text(text) => read_digest(text),
        _ => None,
    }
}

/// The digests in the columns of a row of three.
fn digests_at(row: &Row, label: &Name) -> Option<LogDigests>
    ensures exact { is_some result ≡ (is_label_column label.now (column row.now 0)
        && is_digest_column (column row.now 1) && is_digest_column (column row.now 2)) }
    ensures columns { IfSome result (λ digests.
        column row.now 0 ∷ column row.now 1 ∷ column row.now 2 ∷ []
        ≡ digest_columns label.now digests) }
{
    if !has_label(row, label) {
        return None;
    }
    let orders = digest_at(row, 1)?;
    let trades = digest_at(row, 2)?;
    Some(LogDigests { orders, trades })
}

/// The digests whose row it is, if it is one with this label.
fn digests_with_label(row: &Row, label: &Name) -> Option<LogDigests>
    ensures exact { is_some result ≡ is_digest_row label.now row.now }
    ensures columns { IfSome result (λ digests. row.now ≡ digest_columns label.now digests) }
{
    if row.column_count() == 3 {
        digests_at(row, label)
    } else {
        None
    }
}

/// What the rows of digests with a label say: no digests where there is no row, else those of the
/// one row. It fails exactly where that row is one of no digests or of another label, and where
/// there are two.
pub(crate) fn one_pair(rows: &[Row], label: &Name) -> Result<Option<LogDigests>, KeepFault>
    ensures rows { IfOk result (λ found. rows.now ≡ rows_of_digests label.now found) }
    ensures exact { is_ok result ≡ are_digest_rows label.now rows.now }
{
    match rows {
        [] => Ok(None),
        [row] => match digests_with_label(row, label) {
            Some(digests) => Ok(Some(digests)),
            None => Err(KeepFault::Failed),
        },
        _ => Err(KeepFault::Failed),
    }
}
