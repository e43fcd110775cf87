//! A keeper of cases with digests over a database.
//!
//! Its cases are those of `casebook`, in the same table; their digests are in a table of their
//! own, which `casebook` passes over. A database is only read until the first filing, which makes
//! both tables where they are not there, in the transaction in which it adds.
ghost use Rattle.std.specs.Prelude.{◌≡◌, None, IfOk, IfSome, OnOk, OnErr, IsErrOf};
ghost use Rattle.case_sqlite.specs.CaseRows.{rows_of_case};
ghost use Rattle.case_sqlite.specs.Runs.{KeepsDoubt};
ghost use Rattle.case_sqlite.specs.SqlKeepers.{EndsTransaction};
ghost use Rattle.case_sqlite.specs.Statements.{find_text};
ghost use Rattle.digest_keeper.specs.DigestKeepers.{CountsDigestFaults};
ghost use Rattle.digest_sqlite.specs.DigestRuns.{ShowsIfThere, FailsToFile, FailsToFind, FailsToFindCase, FailsToFindDigests, FindsBothRows, RunsTogether, MakesTreesTogether};
ghost use Rattle.digest_sqlite.specs.DigestRows.{rows_of_digests};
ghost use Rattle.digest_sqlite.specs.DigestStatements.{filing_statements, find_digests_text, cases_table, digests_table};
ghost use Rattle.digest_sqlite.specs.SqlDigestKeepers.{digest_state_of_faults, CountsDigestFailure};
ghost use Rattle.sqlite.specs.Held.{state};
ghost use Rattle.sqlite.specs.State.{HasCleanDisk, Survives, KeepsCommit};

use crate::digest_rows::one_pair;
use crate::statements::{case_rows, digest_rows};
use crate::transactions::file_together;
use audit_base::names::Name;
use case_keeper::case::Case;
use case_keeper::keeper::KeepFault;
use case_sqlite::answers::one_with_label;
use digest_keeper::digested::{DigestedCase, KeptCase};
use digest_keeper::keeper::DigestKeeper;
use log_digests::digests::LogDigests;
use sqlite::{Alter, Connection};
use std::alloc::Global;

/// A keeper over a connection to a database.
///
/// What is on file is not known to contracts. A call fails, and its fault is counted, where the
/// database refuses, where it gives a row that is no case, no digests, or of another label, and
/// where a case that is to be filed has an offence at no place. Out of memory is no failure and is
/// not counted. After either no transaction is open, and what the call began is rolled back.
#[derive(Drop)]
pub struct SqlDigestKeeper<S: Alter> {
    connection: Connection<S>,
    faults: u64,
    alloc: Global,
}

/// Counts a fault where a call failed. The count stays at its greatest value.
fn count_failure<T>(faults: &mut u64, outcome: Result<T, KeepFault>) -> Result<T, KeepFault>
    ensures outcome { result ≡ outcome }
    ensures counted { CountsDigestFailure (digest_state_of_faults faults.old)
        (digest_state_of_faults faults.new) result }
    ensures accounts { CountsDigestFaults (digest_state_of_faults faults.old)
        (digest_state_of_faults faults.new) result }
{
    if let Err(KeepFault::Failed) = outcome {
        *faults = faults.saturating_add(1);
    }
    outcome
}

/// The case with a label.
fn find_case<S: Alter>(
    alloc: Global,
    connection: &mut Connection<S>,
    label: &Name,
) -> Result<Option<Case>, KeepFault>
    ensures labelled { IfOk result (λ found. IfSome found (λ case. case.label ≡ label.now)) }
    ensures ends { EndsTransaction connection.old connection.new }
    ensures shown { HasCleanDisk (state S.Store connection.new) → IfOk result (λ found.
        ShowsIfThere S.Store cases_table find_text label.now connection.old connection.new
        (rows_of_case found)) }
    ensures cause { HasCleanDisk (state S.Store connection.new) → IsErrOf result KeepFault.Failed
        → FailsToFindCase S.Store label.now connection.old connection.new }
    ensures clean { KeepsDoubt (state S.Store connection.old) (state S.Store connection.new) }
{
    let rows = case_rows(alloc, connection, label)?;
    one_with_label(&rows, label)
}

/// The digests with a label.
fn find_digests<S: Alter>(
    alloc: Global,
    connection: &mut Connection<S>,
    label: &Name,
) -> Result<Option<LogDigests>, KeepFault>
    ensures ends { EndsTransaction connection.old connection.new }
    ensures shown { HasCleanDisk (state S.Store connection.new) → IfOk result (λ found.
        ShowsIfThere S.Store digests_table find_digests_text label.now
        connection.old connection.new (rows_of_digests label.now found)) }
    ensures cause { HasCleanDisk (state S.Store connection.new) → IsErrOf result KeepFault.Failed
        → FailsToFindDigests S.Store label.now connection.old connection.new }
    ensures clean { KeepsDoubt (state S.Store connection.old) (state S.Store connection.new) }
{
    let rows = digest_rows(alloc, connection, label)?;
    one_pair(&rows, label)
}

/// The case with a label, with its digests where they are there.
fn find_both<S: Alter>(
    alloc: Global,
    connection: &mut Connection<S>,
    label: &Name,
) -> Result<Option<KeptCase>, KeepFault>
    ensures labelled { IfOk result (λ found. IfSome found (λ kept.
        kept.case.label ≡ label.now)) }
    ensures ends { EndsTransaction connection.old connection.new }
    ensures shown { HasCleanDisk (state S.Store connection.new)
        → IfOk result (FindsBothRows S.Store label.now connection.old connection.new) }
    ensures cause { HasCleanDisk (state S.Store connection.new) → IsErrOf result KeepFault.Failed
        → FailsToFind S.Store label.now connection.old connection.new }
{
    let found = find_case(alloc, connection, label)?;
    let Some(case) = found else {
        return Ok(None);
    };
    let digests = find_digests(alloc, connection, label)?;
    Ok(Some(KeptCase { case, digests }))
}

impl<S: Alter> SqlDigestKeeper<S> {
    ghost use Rattle.digest_sqlite.specs.SqlDigestKeepers.{sql_digest_state, digest_connection_of};

    /// A keeper over this connection, with no fault counted. Takes no memory, and asks nothing
    /// of the database.
    pub fn new(alloc: Global, connection: Connection<S>) -> SqlDigestKeeper<S>
        ensures state { sql_digest_state result ≡ record { kept = None; faults = 0 } }
        ensures connection { digest_connection_of result ≡ connection }
    {
        SqlDigestKeeper {
            connection,
            faults: 0,
            alloc,
        }
    }

    /// The connection of the keeper. Takes no memory.
    pub fn into_connection(self) -> Connection<S>
        ensures { result ≡ digest_connection_of self }
    {
        self.connection
    }
}

impl<S: Alter> DigestKeeper for SqlDigestKeeper<S> {
    ghost use Rattle.case_sqlite.specs.SqlKeepers.{EndsTransaction};
    ghost use Rattle.digest_keeper.specs.DigestKeepers.{FindsKept, FilesAll};
    ghost use Rattle.digest_sqlite.specs.DigestRows.{HavePlaces};
    ghost use Rattle.digest_sqlite.specs.DigestRuns.{FailsToFile, FailsToFind, FindsBothRows, RunsTogether, MakesTreesTogether};
    ghost use Rattle.digest_sqlite.specs.DigestStatements.{filing_statements};
    ghost use Rattle.digest_sqlite.specs.SqlDigestKeepers.{sql_digest_state, digest_connection_of, CountsDigestFailure};
    ghost use Rattle.sqlite.specs.Held.{state as shown_state};

    ghost state = { sql_digest_state };

    fn find(&mut self, label: &Name) -> Result<Option<KeptCase>, KeepFault>
        ensures found { FindsKept (sql_digest_state self.old) (sql_digest_state self.new)
            result label.now }
        ensures counted { CountsDigestFailure (sql_digest_state self.old)
            (sql_digest_state self.new) result }
        ensures ends { EndsTransaction (digest_connection_of self.old)
            (digest_connection_of self.new) }
        ensures shown { HasCleanDisk (shown_state S.Store (digest_connection_of self.new))
            → IfOk result (FindsBothRows S.Store label.now (digest_connection_of self.old)
            (digest_connection_of self.new)) }
        // It fails only where the database refused a query, or showed rows that are not those of
        // one case with the label and of one pair of digests.
        ensures cause { HasCleanDisk (shown_state S.Store (digest_connection_of self.new))
            → IsErrOf result KeepFault.Failed → FailsToFind S.Store label.now
            (digest_connection_of self.old) (digest_connection_of self.new) }
    {
        let found = find_both(self.alloc, &mut self.connection, label);
        count_failure(&mut self.faults, found)
    }

    fn file_all(&mut self, filed: &[DigestedCase]) -> Result<(), KeepFault>
        ensures filed { FilesAll (sql_digest_state self.old) (sql_digest_state self.new)
            result filed.now }
        ensures counted { CountsDigestFailure (sql_digest_state self.old)
            (sql_digest_state self.new) result }
        ensures ends { EndsTransaction (digest_connection_of self.old)
            (digest_connection_of self.new) }
        ensures committed { HasCleanDisk (shown_state S.Store (digest_connection_of self.new))
            → OnOk result (RunsTogether S.Store (filing_statements filed.now)
            (digest_connection_of self.old) (digest_connection_of self.new)) }
        ensures refused { HasCleanDisk (shown_state S.Store (digest_connection_of self.new))
            → OnErr result (KeepsCommit (shown_state S.Store (digest_connection_of self.old))
            (shown_state S.Store (digest_connection_of self.new))) }
        ensures survives { Survives (shown_state S.Store (digest_connection_of self.old))
            (shown_state S.Store (digest_connection_of self.new))
            (MakesTreesTogether S.Store (filing_statements filed.now)
            (digest_connection_of self.old)) }
        ensures places { OnOk result (HavePlaces filed.now) }
        // It fails only where a case has an offence at no place, a transaction is open, or the
        // database refused a statement or to commit.
        ensures cause { HasCleanDisk (shown_state S.Store (digest_connection_of self.new))
            → IsErrOf result KeepFault.Failed
            → FailsToFile S.Store filed.now (digest_connection_of self.old) }
    {
        let done = file_together(&mut self.connection, filed);
        count_failure(&mut self.faults, done)
    }

    ghost own_labels = { λ _. tt };
}
