//! The rows of the table of digests, as a text, and a row that something else puts into that of cases.
use audit_base::faults::NoMemory;
use sqlite::types::ValueRef;
use sqlite::{Alter, Connection, Error, Row};
use std::alloc::Global;

const FIND_TABLE: &str = "SELECT name FROM sqlite_schema WHERE type = 'table' AND name = 'digests'";

const ALL_DIGESTS: &str = "SELECT label, orders, trades FROM digests ORDER BY label";

/// Puts a row of these columns into the table of cases, behind its number.
pub(crate) fn put_case<S: Alter>(
    alloc: Global,
    connection: &mut Connection<S>,
    columns: &str,
) -> Result<(), Error> {
    let sql = format!(in alloc; "INSERT INTO cases VALUES (NULL, {columns})")?;
    connection.execute(sql.as_str(), &[])?;
    Ok(())
}

/// The rows of the table of digests; none where the table is not there.
pub(crate) fn digest_rows<S: Alter>(connection: &mut Connection<S>) -> Result<Vec<Row>, Error> {
    let tables = connection.query_all(FIND_TABLE, &[])?;
    if tables.is_empty() {
        return Ok(tables);
    }
    connection.query_all(ALL_DIGESTS, &[])
}

/// Appends the text in a column, and `?` where there is no text.
fn append_column(row: &Row, at: usize, lines: &mut Vec<u8>) -> Result<(), NoMemory> {
    match row.get_ref(at) {
        Ok(ValueRef::Text(text)) => Ok(lines.extend_from_slice(text)?),
        _ => Ok(lines.push(b'?')?),
    }
}

/// Appends a line for each of these rows of three columns.
pub(crate) fn append_rows(rows: &[Row], lines: &mut Vec<u8>) -> Result<(), NoMemory> {
    for row in rows {
        append_column(row, 0, lines)?;
        lines.push(b',')?;
        append_column(row, 1, lines)?;
        lines.push(b',')?;
        append_column(row, 2, lines)?;
        lines.push(b'\n')?;
    }
    Ok(())
}
