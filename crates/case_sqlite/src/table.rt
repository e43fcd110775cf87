//! The table `cases` and its statements.
ghost use Rattle.std.specs.Prelude.{◌≡◌, false, [], IfOk, OnOk, OnErr};
ghost use Rattle.case_sqlite.specs.CaseRows.{case_columns};
ghost use Rattle.case_sqlite.specs.Runs.{MakesTrees, RunsCommitted, KeepsDoubt};
ghost use Rattle.case_sqlite.specs.SqlKeepers.{EndsTransaction};
ghost use Rattle.case_sqlite.specs.Statements as text;
ghost use Rattle.sqlite.specs.Held.{state};
ghost use Rattle.sqlite.specs.State.{HasCleanDisk, Shown, Survives, KeepsCommit};
ghost use Rattle.sqlite.specs.Values.{bound};
ghost use Rattle.sqlite_value.specs.Value.{owned};

use crate::case_rows::{case_values, has_place};
use crate::codes::property_number;
use crate::faults::fault_of;
use audit_base::names::Name;
use case_keeper::case::{Case, Filter, Mark};
use case_keeper::keeper::KeepFault;
use sqlite::types::ValueRef;
use sqlite::{Alter, Connection, Error, Row};

const MAKE: &str = "CREATE TABLE IF NOT EXISTS cases (\
    number INTEGER PRIMARY KEY AUTOINCREMENT, \
    label TEXT NOT NULL UNIQUE, \
    rule INTEGER NOT NULL, \
    symbol TEXT NOT NULL, \
    property INTEGER NOT NULL, \
    log INTEGER NOT NULL, \
    place INTEGER NOT NULL)";

const INSERT: &str = "INSERT INTO cases (label, rule, symbol, property, log, place) \
    VALUES (?1, ?2, ?3, ?4, ?5, ?6)";

const FIND: &str = "SELECT label, rule, symbol, property, log, place FROM cases WHERE label = ?1";

const LIST: &str = "SELECT label, rule, symbol, property, log, place FROM cases \
    WHERE (?1 IS NULL OR symbol = ?1) AND (?2 IS NULL OR property = ?2) ORDER BY number";

/// Runs one statement in a transaction of its own, which is rolled back where it fails.
fn commit_one<S: Alter>(
    connection: &mut Connection<S>,
    sql: &str,
    values: &[ValueRef<'_>],
) -> Result<(), Error>
    requires { connection.old.in_transaction ≡ false }
    ensures ends { connection.new.in_transaction ≡ false }
    ensures committed { HasCleanDisk (state S.Store connection.new)
        → OnOk result (RunsCommitted S.Store sql.now (bound values.now)
        connection.old connection.new) }
    ensures refused { HasCleanDisk (state S.Store connection.new)
        → OnErr result (KeepsCommit (state S.Store connection.old) (state S.Store connection.new)) }
    ensures survives { Survives (state S.Store connection.old) (state S.Store connection.new)
        (MakesTrees S.Store sql.now (bound values.now) connection.old) }
{
    let mut transaction = connection.transaction();
    transaction.execute(sql, values)?;
    transaction.commit()
}

/// Runs one statement in a transaction of its own. It is refused where a transaction is open.
fn change<S: Alter>(
    connection: &mut Connection<S>,
    sql: &str,
    values: &[ValueRef<'_>],
) -> Result<(), KeepFault>
    ensures ends { EndsTransaction connection.old connection.new }
    ensures committed { HasCleanDisk (state S.Store connection.new)
        → OnOk result (RunsCommitted S.Store sql.now (bound values.now)
        connection.old connection.new) }
    ensures refused { HasCleanDisk (state S.Store connection.new)
        → OnErr result (KeepsCommit (state S.Store connection.old) (state S.Store connection.new)) }
    ensures survives { Survives (state S.Store connection.old) (state S.Store connection.new)
        (MakesTrees S.Store sql.now (bound values.now) connection.old) }
{
    if !connection.is_autocommit() {
        return Err(KeepFault::Failed);
    }
    match commit_one(connection, sql, values) {
        Ok(()) => Ok(()),
        Err(error) => Err(fault_of(error)),
    }
}

/// The whole answer of a query.
fn answer<S: Alter>(
    connection: &mut Connection<S>,
    sql: &str,
    values: &[ValueRef<'_>],
) -> Result<Vec<Row>, KeepFault>
    ensures ends { EndsTransaction connection.old connection.new }
    ensures shown { HasCleanDisk (state S.Store connection.new) → IfOk result (λ rows.
        Shown sql.now (bound values.now) (state S.Store connection.old)
        (state S.Store connection.new) rows.items) }
    ensures clean { KeepsDoubt (state S.Store connection.old) (state S.Store connection.new) }
{
    match connection.query_all(sql, values) {
        Ok(rows) => Ok(rows),
        Err(error) => Err(fault_of(error)),
    }
}

/// Makes the table where it is not there.
pub(crate) fn make_table<S: Alter>(connection: &mut Connection<S>) -> Result<(), KeepFault>
    ensures ends { EndsTransaction connection.old connection.new }
    ensures made { HasCleanDisk (state S.Store connection.new)
        → OnOk result (RunsCommitted S.Store text.make_text [] connection.old connection.new) }
    ensures refused { HasCleanDisk (state S.Store connection.new)
        → OnErr result (KeepsCommit (state S.Store connection.old) (state S.Store connection.new)) }
    ensures survives { Survives (state S.Store connection.old) (state S.Store connection.new)
        (MakesTrees S.Store text.make_text [] connection.old) }
{
    change(connection, MAKE, &[])
}

/// Adds the row of a case. A case with no place is refused.
pub(crate) fn insert<S: Alter>(connection: &mut Connection<S>, case: &Case) -> Result<(), KeepFault>
    ensures ends { EndsTransaction connection.old connection.new }
    ensures added { HasCleanDisk (state S.Store connection.new) → OnOk result
        (RunsCommitted S.Store text.insert_text (case_columns case.now)
        connection.old connection.new) }
    ensures refused { HasCleanDisk (state S.Store connection.new)
        → OnErr result (KeepsCommit (state S.Store connection.old) (state S.Store connection.new)) }
    ensures survives { Survives (state S.Store connection.old) (state S.Store connection.new)
        (MakesTrees S.Store text.insert_text (case_columns case.now) connection.old) }
{
    if has_place(case) {
        change(connection, INSERT, &case_values(case))
    } else {
        Err(KeepFault::Failed)
    }
}

/// The rows with a label.
pub(crate) fn rows_with_label<S: Alter>(
    connection: &mut Connection<S>,
    label: &Name,
) -> Result<Vec<Row>, KeepFault>
    ensures ends { EndsTransaction connection.old connection.new }
    ensures shown { HasCleanDisk (state S.Store connection.new) → IfOk result (λ rows.
        Shown text.find_text (text.label_values label.now) (state S.Store connection.old)
        (state S.Store connection.new) rows.items) }
    ensures clean { KeepsDoubt (state S.Store connection.old) (state S.Store connection.new) }
{
    answer(connection, FIND, &[ValueRef::Text(label.bytes())])
}

/// The symbol that a filter names, or null.
fn symbol_value(filter: &Filter) -> ValueRef<'_>
    ensures { owned result ≡ text.symbol_value filter.now }
{
    match &filter.symbol {
        Some(symbol) => ValueRef::Text(symbol.bytes()),
        None => ValueRef::Null,
    }
}

/// The number in the column of the property that a filter names, or null.
fn property_value(filter: &Filter) -> ValueRef<'static>
    ensures { owned result ≡ text.property_value filter.now }
{
    match filter.mark {
        Some(Mark::Accepted) => ValueRef::Int(0),
        Some(Mark::Broken(property)) => ValueRef::Int(i64::from(property_number(property))),
        None => ValueRef::Null,
    }
}

/// The rows that pass a filter, in the order of their numbers.
pub(crate) fn rows_passing<S: Alter>(
    connection: &mut Connection<S>,
    filter: &Filter,
) -> Result<Vec<Row>, KeepFault>
    ensures ends { EndsTransaction connection.old connection.new }
    ensures shown { HasCleanDisk (state S.Store connection.new) → IfOk result (λ rows.
        Shown text.list_text (text.filter_values filter.now) (state S.Store connection.old)
        (state S.Store connection.new) rows.items) }
    ensures clean { KeepsDoubt (state S.Store connection.old) (state S.Store connection.new) }
{
    answer(
        connection,
        LIST,
        &[symbol_value(filter), property_value(filter)],
    )
}
