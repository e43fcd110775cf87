//! The statements, and the queries of both tables.
ghost use Rattle.std.specs.Prelude.{◌≡◌, [], IfOk, IsErrOf};
ghost use Rattle.case_sqlite.specs.Runs.{KeepsDoubt};
ghost use Rattle.case_sqlite.specs.SqlKeepers.{EndsTransaction};
ghost use Rattle.case_sqlite.specs.Statements as cases;
ghost use Rattle.digest_sqlite.specs.DigestRuns.{ShowsWhether, ShowsIfThere, RefusesQuery, RefusesToShow};
ghost use Rattle.digest_sqlite.specs.DigestStatements as text;
ghost use Rattle.sqlite.specs.Held.{state};
ghost use Rattle.sqlite.specs.State.{HasCleanDisk, Shown};
ghost use Rattle.sqlite.specs.Values.{bound};

use audit_base::names::Name;
use case_keeper::keeper::KeepFault;
use case_sqlite::faults::fault_of;
use sqlite::types::ValueRef;
use sqlite::{Alter, Connection, Row};
use std::alloc::Global;

/// The making of the table of cases, as `casebook` makes it.
pub(crate) const MAKE_CASES: &str = "CREATE TABLE IF NOT EXISTS cases (\
    number INTEGER PRIMARY KEY AUTOINCREMENT, \
    label TEXT NOT NULL UNIQUE, \
    rule INTEGER NOT NULL, \
    symbol TEXT NOT NULL, \
    property INTEGER NOT NULL, \
    log INTEGER NOT NULL, \
    place INTEGER NOT NULL)";

pub(crate) const MAKE_DIGESTS: &str = "CREATE TABLE IF NOT EXISTS digests (\
    label TEXT PRIMARY KEY, \
    orders TEXT NOT NULL, \
    trades TEXT NOT NULL)";

/// The adding of a case, as `casebook` adds it.
pub(crate) const INSERT_CASE: &str = "INSERT INTO cases \
    (label, rule, symbol, property, log, place) VALUES (?1, ?2, ?3, ?4, ?5, ?6)";

pub(crate) const INSERT_DIGESTS: &str =
    "INSERT INTO digests (label, orders, trades) VALUES (?1, ?2, ?3)";

const FIND_CASE: &str =
    "SELECT label, rule, symbol, property, log, place FROM cases WHERE label = ?1";

const FIND_DIGESTS: &str = "SELECT label, orders, trades FROM digests WHERE label = ?1";

const FIND_TABLE: &str = "SELECT name FROM sqlite_schema WHERE type = 'table' AND name = ?1";

/// The whole answer of a query for a name.
fn answer<S: Alter>(
    connection: &mut Connection<S>,
    sql: &str,
    name: &[u8],
) -> Result<Vec<Row>, KeepFault>
    ensures ends { EndsTransaction connection.old connection.new }
    ensures shown { HasCleanDisk (state S.Store connection.new) → IfOk result (λ rows.
        Shown sql.now (text.name_values name.now) (state S.Store connection.old)
        (state S.Store connection.new) rows.items) }
    ensures cause { HasCleanDisk (state S.Store connection.new) → IsErrOf result KeepFault.Failed
        → RefusesQuery S.Store sql.now (text.name_values name.now) connection.old connection.new }
    ensures clean { KeepsDoubt (state S.Store connection.old) (state S.Store connection.new) }
{
    match connection.query_all(sql, &[ValueRef::Text(name)]) {
        Ok(rows) => Ok(rows),
        Err(error) => Err(fault_of(error)),
    }
}

/// Whether the database has this table.
fn has_table<S: Alter>(connection: &mut Connection<S>, table: &str) -> Result<bool, KeepFault>
    ensures ends { EndsTransaction connection.old connection.new }
    ensures shown { HasCleanDisk (state S.Store connection.new) → IfOk result
        (ShowsWhether S.Store table.now connection.old connection.new) }
    ensures cause { HasCleanDisk (state S.Store connection.new) → IsErrOf result KeepFault.Failed
        → RefusesQuery S.Store text.find_table_text (text.name_values table.now)
        connection.old connection.new }
    ensures clean { KeepsDoubt (state S.Store connection.old) (state S.Store connection.new) }
{
    let rows = answer(connection, FIND_TABLE, table.as_bytes())?;
    match rows.as_slice() {
        [] => Ok(false),
        _ => Ok(true),
    }
}

/// The rows that a query of a table shows for a name; none where the table is not there.
fn rows_if_there<S: Alter>(
    alloc: Global,
    connection: &mut Connection<S>,
    table: &str,
    sql: &str,
    name: &[u8],
) -> Result<Vec<Row>, KeepFault>
    ensures ends { EndsTransaction connection.old connection.new }
    ensures shown { HasCleanDisk (state S.Store connection.new) → IfOk result (λ rows.
        ShowsIfThere S.Store table.now sql.now name.now connection.old connection.new
        rows.items) }
    ensures cause { HasCleanDisk (state S.Store connection.new) → IsErrOf result KeepFault.Failed
        → RefusesToShow S.Store table.now sql.now name.now connection.old connection.new }
    ensures clean { KeepsDoubt (state S.Store connection.old) (state S.Store connection.new) }
{
    if has_table(connection, table)? {
        answer(connection, sql, name)
    } else {
        Ok(Vec::new(alloc))
    }
}

/// The rows of cases with a label.
pub(crate) fn case_rows<S: Alter>(
    alloc: Global,
    connection: &mut Connection<S>,
    label: &Name,
) -> Result<Vec<Row>, KeepFault>
    ensures ends { EndsTransaction connection.old connection.new }
    ensures shown { HasCleanDisk (state S.Store connection.new) → IfOk result (λ rows.
        ShowsIfThere S.Store text.cases_table cases.find_text label.now
        connection.old connection.new rows.items) }
    ensures cause { HasCleanDisk (state S.Store connection.new) → IsErrOf result KeepFault.Failed
        → RefusesToShow S.Store text.cases_table cases.find_text label.now
        connection.old connection.new }
    ensures clean { KeepsDoubt (state S.Store connection.old) (state S.Store connection.new) }
{
    rows_if_there(alloc, connection, "cases", FIND_CASE, label.bytes())
}

/// The rows of digests with a label.
pub(crate) fn digest_rows<S: Alter>(
    alloc: Global,
    connection: &mut Connection<S>,
    label: &Name,
) -> Result<Vec<Row>, KeepFault>
    ensures ends { EndsTransaction connection.old connection.new }
    ensures shown { HasCleanDisk (state S.Store connection.new) → IfOk result (λ rows.
        ShowsIfThere S.Store text.digests_table text.find_digests_text label.now
        connection.old connection.new rows.items) }
    ensures cause { HasCleanDisk (state S.Store connection.new) → IsErrOf result KeepFault.Failed
        → RefusesToShow S.Store text.digests_table text.find_digests_text label.now
        connection.old connection.new }
    ensures clean { KeepsDoubt (state S.Store connection.old) (state S.Store connection.new) }
{
    rows_if_there(alloc, connection, "digests", FIND_DIGESTS, label.bytes())
}
