//! A keeper that has its cases in a database.
//!
//! The keeper asks for whole answers and believes no row: `read_case` gives a case exactly where
//! the row is that of one, and label and filter are tested again. What statements did is said in
//! the words of `sqlite`: which text ran with which values, that it was committed, which rows it
//! showed.
ghost use Rattle.std.specs.Prelude.{◌≡◌, None, false, [], IfOk, IfSome, OnOk, OnErr, All, IsTrue};
ghost use Rattle.case_keeper.specs.Cases.{passes_filter};
ghost use Rattle.case_keeper.specs.Keepers.{CountsKeeperFaults};
ghost use Rattle.case_sqlite.specs.Runs.{database, KeeperDiskIsClean, HasTable, MakesTrees, AddingMayLeave, FindsRow, ListsRows, AddsRow, AddsNothing};
ghost use Rattle.case_sqlite.specs.Statements.{make_text};
ghost use Rattle.sqlite.specs.State.{Survives, KeepsCommit};
ghost use Rattle.case_sqlite.specs.SqlKeepers.{state_of_faults, CountsFailure};

use crate::answers::{all_passing, one_with_label};
use crate::table;
use audit_base::names::Name;
use case_keeper::case::{Case, Filter};
use case_keeper::case_list::CaseList;
use case_keeper::keeper::{KeepFault, Keeper};
use sqlite::{Alter, Connection};
use std::alloc::Global;

/// A keeper over a connection to a database, whose table `cases` it makes at its first call
/// where it is not there.
///
/// Its cases are not known to contracts. A call fails, and its fault is counted, where the
/// database refuses or gives a row that is no case, has another label or does not pass the
/// filter. Out of memory is no failure and is not counted. After either no transaction is open,
/// and what the call began is rolled back.
#[derive(Drop)]
pub struct SqlKeeper<S: Alter> {
    connection: Connection<S>,
    // Whether the table is known to be there.
    has_table: bool,
    faults: u64,
    alloc: Global,
}

/// Counts a fault where a call failed. The count stays at its greatest value.
fn count_failure<T>(faults: &mut u64, outcome: Result<T, KeepFault>) -> Result<T, KeepFault>
    ensures outcome { result ≡ outcome }
    ensures counted { CountsFailure (state_of_faults faults.old) (state_of_faults faults.new) result }
    ensures accounts { CountsKeeperFaults (state_of_faults faults.old) (state_of_faults faults.new) result }
{
    if let Err(KeepFault::Failed) = outcome {
        *faults = faults.saturating_add(1);
    }
    outcome
}

impl<S: Alter> SqlKeeper<S> {
    ghost use Rattle.case_sqlite.specs.SqlKeepers.{sql_state, connection_of, EndsTransaction};

    /// A keeper over this connection, with no fault counted. Takes no memory, and asks nothing
    /// of the database.
    pub fn new(alloc: Global, connection: Connection<S>) -> SqlKeeper<S>
        ensures state { sql_state result ≡ record { cases = None; faults = 0 } }
        ensures connection { connection_of result ≡ connection }
        ensures unmade { result.has_table ≡ false }
    {
        SqlKeeper {
            connection,
            has_table: false,
            faults: 0,
            alloc,
        }
    }

    /// The connection of the keeper. Takes no memory.
    pub fn into_connection(self) -> Connection<S>
        ensures { result ≡ connection_of self }
    {
        self.connection
    }

    /// Makes the table at the first call.
    fn make_table(&mut self) -> Result<(), KeepFault>
        ensures faults { self.new.faults ≡ self.old.faults }
        ensures ends { EndsTransaction self.old.connection self.new.connection }
        ensures made { KeeperDiskIsClean S.Store self.new
            → OnOk result (HasTable S.Store self.old self.new.connection) }
        ensures known { OnOk result (IsTrue self.new.has_table) }
        ensures refused { KeeperDiskIsClean S.Store self.new
            → OnErr result (KeepsCommit (database S.Store self.old) (database S.Store self.new)) }
        ensures survives { Survives (database S.Store self.old) (database S.Store self.new)
            (MakesTrees S.Store make_text [] self.old.connection) }
    {
        if !self.has_table {
            table::make_table(&mut self.connection)?;
            self.has_table = true;
        }
        Ok(())
    }

    /// The case with a label. A failure is not counted yet.
    fn case_with_label(&mut self, label: &Name) -> Result<Option<Case>, KeepFault>
        ensures labelled { IfOk result (λ found. IfSome found (λ case. case.label ≡ label.now)) }
        ensures faults { self.new.faults ≡ self.old.faults }
        ensures ends { EndsTransaction self.old.connection self.new.connection }
        ensures shown { KeeperDiskIsClean S.Store self.new
            → IfOk result (FindsRow S.Store self.old self.new label.now) }
    {
        self.make_table()?;
        let rows = table::rows_with_label(&mut self.connection, label)?;
        one_with_label(&rows, label)
    }

    /// Adds the row of a case. A failure is not counted yet.
    fn insert(&mut self, case: &Case) -> Result<(), KeepFault>
        ensures faults { self.new.faults ≡ self.old.faults }
        ensures ends { EndsTransaction self.old.connection self.new.connection }
        ensures inserted { KeeperDiskIsClean S.Store self.new
            → OnOk result (AddsRow S.Store self.old self.new case.now) }
        ensures refused { KeeperDiskIsClean S.Store self.new
            → OnErr result (AddsNothing S.Store self.old self.new) }
        ensures survives { Survives (database S.Store self.old) (database S.Store self.new)
            (AddingMayLeave S.Store self.old case.now) }
    {
        self.make_table()?;
        table::insert(&mut self.connection, case)
    }

    /// The cases that pass a filter. A failure is not counted yet.
    fn cases_passing(&mut self, filter: &Filter) -> Result<CaseList, KeepFault>
        ensures passing_only { IfOk result (λ given.
            All (λ case. IsTrue (passes_filter filter.now case)) given) }
        ensures faults { self.new.faults ≡ self.old.faults }
        ensures ends { EndsTransaction self.old.connection self.new.connection }
        ensures shown { KeeperDiskIsClean S.Store self.new
            → IfOk result (ListsRows S.Store self.old self.new filter.now) }
    {
        self.make_table()?;
        let rows = table::rows_passing(&mut self.connection, filter)?;
        match all_passing(self.alloc, &rows, filter)? {
            Some(cases) => Ok(CaseList::of(cases)),
            None => Err(KeepFault::Failed),
        }
    }
}

impl<S: Alter> Keeper for SqlKeeper<S> {
    ghost use Rattle.case_keeper.specs.Keepers.{FindsLabel, AddsCase, ListsCases, LacksLabel};
    ghost use Rattle.case_sqlite.specs.SqlKeepers.{sql_state, connection_of, CountsFailure, EndsTransaction};
    ghost use Rattle.case_sqlite.specs.Runs.{database, KeeperDiskIsClean, AddingMayLeave, FindsRow, ListsRows, AddsRow, AddsNothing};
    ghost use Rattle.sqlite.specs.State.{Survives};

    ghost state = { sql_state };

    fn find(&mut self, label: &Name) -> Result<Option<Case>, KeepFault>
        ensures found { FindsLabel (sql_state self.old) (sql_state self.new) result label.now }
        ensures counted { CountsFailure (sql_state self.old) (sql_state self.new) result }
        ensures ends { EndsTransaction (connection_of self.old) (connection_of self.new) }
        ensures shown { KeeperDiskIsClean S.Store self.new
            → IfOk result (FindsRow S.Store self.old self.new label.now) }
    {
        let found = self.case_with_label(label);
        count_failure(&mut self.faults, found)
    }

    fn add(&mut self, case: &Case) -> Result<(), KeepFault>
        requires { LacksLabel (sql_state self.old) case.now.label }
        ensures added { AddsCase (sql_state self.old) (sql_state self.new) result case.now }
        ensures counted { CountsFailure (sql_state self.old) (sql_state self.new) result }
        ensures ends { EndsTransaction (connection_of self.old) (connection_of self.new) }
        ensures inserted { KeeperDiskIsClean S.Store self.new
            → OnOk result (AddsRow S.Store self.old self.new case.now) }
        ensures refused { KeeperDiskIsClean S.Store self.new
            → OnErr result (AddsNothing S.Store self.old self.new) }
        ensures survives { Survives (database S.Store self.old) (database S.Store self.new)
            (AddingMayLeave S.Store self.old case.now) }
    {
        let added = self.insert(case);
        count_failure(&mut self.faults, added)
    }

    fn list(&mut self, filter: &Filter) -> Result<CaseList, KeepFault>
        ensures listed { ListsCases (sql_state self.old) (sql_state self.new) result filter.now }
        ensures counted { CountsFailure (sql_state self.old) (sql_state self.new) result }
        ensures ends { EndsTransaction (connection_of self.old) (connection_of self.new) }
        ensures shown { KeeperDiskIsClean S.Store self.new
            → IfOk result (ListsRows S.Store self.old self.new filter.now) }
    {
        let listed = self.cases_passing(filter);
        count_failure(&mut self.faults, listed)
    }

    ghost own_labels = { λ _. tt };
}
