//! Filing in one transaction: both tables are made where they are not there, and each case is
//! added with its digests; all of it is committed, or nothing.
ghost use Rattle.std.specs.Prelude.{◌≡◌, false, [], ◌∷◌, OnOk, OnErr, IfErr, IsErrOf, IsTrue, MatchBool};
ghost use Rattle.case_sqlite.specs.SqlKeepers.{EndsTransaction};
ghost use Rattle.digest_sqlite.specs.DigestRows.{HavePlaces};
ghost use Rattle.digest_sqlite.specs.DigestRuns.{FailsToFile, RefusesTogether, RunsInside, RunsTogether, MakesTreesTogether};
ghost use Rattle.digest_sqlite.specs.DigestStatements as text;
ghost use Rattle.sqlite.specs.Held.{state};
ghost use Rattle.sqlite.specs.State.{HasCleanDisk, Survives, KeepsCommit};
ghost use Rattle.sqlite.specs.Values.{bound};

use crate::statements::{INSERT_CASE, INSERT_DIGESTS, MAKE_CASES, MAKE_DIGESTS};
use case_keeper::keeper::KeepFault;
use case_sqlite::case_rows::{case_values, has_place};
use case_sqlite::faults::fault_of;
use digest_keeper::digested::DigestedCase;
use sqlite::types::ValueRef;
use sqlite::{Alter, Connection, Error, Transaction};

/// Runs one statement in a transaction.
fn run<S: Alter>(
    transaction: &mut Transaction<'_, S>,
    sql: &str,
    values: &[ValueRef<'_>],
) -> Result<(), Error>
    ensures same_reference { transaction.new.conn.ghost_name ≡ transaction.old.conn.ghost_name }
    ensures inside { RunsInside S.Store (text.statement_of sql.now (bound values.now) ∷ [])
        transaction.old.conn.now transaction.new.conn.now result }
    ensures survives { Survives (state S.Store transaction.old.conn.now)
        (state S.Store transaction.new.conn.now) (λ _. ⊥) }
{
    transaction.execute(sql, values)?;
    Ok(())
}

/// Makes both tables where they are not there.
fn make_tables<S: Alter>(transaction: &mut Transaction<'_, S>) -> Result<(), Error>
    ensures same_reference { transaction.new.conn.ghost_name ≡ transaction.old.conn.ghost_name }
    ensures inside { RunsInside S.Store text.making_statements
        transaction.old.conn.now transaction.new.conn.now result }
    ensures survives { Survives (state S.Store transaction.old.conn.now)
        (state S.Store transaction.new.conn.now) (λ _. ⊥) }
{
    run(transaction, MAKE_CASES, &[])?;
    run(transaction, MAKE_DIGESTS, &[])
}

/// Adds the row of a case.
fn add_case<S: Alter>(
    transaction: &mut Transaction<'_, S>,
    digested: &DigestedCase,
) -> Result<(), Error>
    ensures same_reference { transaction.new.conn.ghost_name ≡ transaction.old.conn.ghost_name }
    ensures inside { RunsInside S.Store (text.adding_case digested.now ∷ [])
        transaction.old.conn.now transaction.new.conn.now result }
    ensures survives { Survives (state S.Store transaction.old.conn.now)
        (state S.Store transaction.new.conn.now) (λ _. ⊥) }
{
    run(transaction, INSERT_CASE, &case_values(&digested.case))
}

/// Adds the row of its digests.
fn add_digests<S: Alter>(
    transaction: &mut Transaction<'_, S>,
    digested: &DigestedCase,
) -> Result<(), Error>
    ensures same_reference { transaction.new.conn.ghost_name ≡ transaction.old.conn.ghost_name }
    ensures inside { RunsInside S.Store (text.adding_digests digested.now ∷ [])
        transaction.old.conn.now transaction.new.conn.now result }
    ensures survives { Survives (state S.Store transaction.old.conn.now)
        (state S.Store transaction.new.conn.now) (λ _. ⊥) }
{
    let orders = digested.digests.orders.digits();
    let trades = digested.digests.trades.digits();
    let values = [
        ValueRef::Text(digested.case.label.bytes()),
        ValueRef::Text(&orders),
        ValueRef::Text(&trades),
    ];
    run(transaction, INSERT_DIGESTS, &values)
}

/// Adds a case and its digests.
fn add_both<S: Alter>(
    transaction: &mut Transaction<'_, S>,
    digested: &DigestedCase,
) -> Result<(), Error>
    ensures same_reference { transaction.new.conn.ghost_name ≡ transaction.old.conn.ghost_name }
    ensures inside { RunsInside S.Store (text.adding_statements digested.now)
        transaction.old.conn.now transaction.new.conn.now result }
    ensures survives { Survives (state S.Store transaction.old.conn.now)
        (state S.Store transaction.new.conn.now) (λ _. ⊥) }
{
    add_case(transaction, digested)?;
    add_digests(transaction, digested)
}

/// Adds each of these cases with its digests.
fn add_each<S: Alter>(
    transaction: &mut Transaction<'_, S>,
    filed: &[DigestedCase],
) -> Result<(), Error>
    ensures same_reference { transaction.new.conn.ghost_name ≡ transaction.old.conn.ghost_name }
    ensures inside { RunsInside S.Store (text.adding_each filed.now)
        transaction.old.conn.now transaction.new.conn.now result }
    ensures survives { Survives (state S.Store transaction.old.conn.now)
        (state S.Store transaction.new.conn.now) (λ _. ⊥) }
{
    for digested in filed {
        add_both(transaction, digested)?;
    }
    Ok(())
}

/// Makes both tables, and adds each of these cases with its digests.
fn fill<S: Alter>(transaction: &mut Transaction<'_, S>, filed: &[DigestedCase]) -> Result<(), Error>
    ensures same_reference { transaction.new.conn.ghost_name ≡ transaction.old.conn.ghost_name }
    ensures inside { RunsInside S.Store (text.filing_statements filed.now)
        transaction.old.conn.now transaction.new.conn.now result }
    ensures survives { Survives (state S.Store transaction.old.conn.now)
        (state S.Store transaction.new.conn.now) (λ _. ⊥) }
{
    make_tables(transaction)?;
    add_each(transaction, filed)
}

/// Files these cases with their digests in one transaction, which is rolled back where it fails.
fn commit_all<S: Alter>(connection: &mut Connection<S>, filed: &[DigestedCase]) -> Result<(), Error>
    requires { connection.old.in_transaction ≡ false }
    ensures ends { connection.new.in_transaction ≡ false }
    ensures committed { HasCleanDisk (state S.Store connection.new) → OnOk result
        (RunsTogether S.Store (text.filing_statements filed.now) connection.old connection.new) }
    ensures refused { HasCleanDisk (state S.Store connection.new)
        → OnErr result (KeepsCommit (state S.Store connection.old) (state S.Store connection.new)) }
    ensures survives { Survives (state S.Store connection.old) (state S.Store connection.new)
        (MakesTreesTogether S.Store (text.filing_statements filed.now) connection.old) }
    ensures cause { HasCleanDisk (state S.Store connection.new)
        → IfErr result (RefusesTogether S.Store (text.filing_statements filed.now) connection.old) }
{
    let mut transaction = connection.transaction();
    fill(&mut transaction, filed)?;
    transaction.commit()
}

/// Whether a row can have each of these cases.
fn have_places(filed: &[DigestedCase]) -> bool
    ensures { MatchBool result (HavePlaces filed.now) (¬ HavePlaces filed.now) }
{
    filed.iter().all(|digested| has_place(&digested.case))
}

/// Files these cases with their digests in one transaction. It is refused where a case has an
/// offence at no place, and where a transaction is open.
pub(crate) fn file_together<S: Alter>(
    connection: &mut Connection<S>,
    filed: &[DigestedCase],
) -> Result<(), KeepFault>
    ensures ends { EndsTransaction connection.old connection.new }
    ensures committed { HasCleanDisk (state S.Store connection.new) → OnOk result
        (RunsTogether S.Store (text.filing_statements filed.now) connection.old connection.new) }
    ensures refused { HasCleanDisk (state S.Store connection.new)
        → OnErr result (KeepsCommit (state S.Store connection.old) (state S.Store connection.new)) }
    ensures survives { Survives (state S.Store connection.old) (state S.Store connection.new)
        (MakesTreesTogether S.Store (text.filing_statements filed.now) connection.old) }
    ensures places { OnOk result (HavePlaces filed.now) }
    ensures cause { HasCleanDisk (state S.Store connection.new) → IsErrOf result KeepFault.Failed
        → FailsToFile S.Store filed.now connection.old }
{
    if !have_places(filed) {
        return Err(KeepFault::Failed);
    }
    if !connection.is_autocommit() {
        return Err(KeepFault::Failed);
    }
    match commit_all(connection, filed) {
        Ok(()) => Ok(()),
        Err(error) => Err(fault_of(error)),
    }
}
