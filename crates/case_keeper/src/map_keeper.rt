//! A keeper in memory, which fails at chosen calls.
ghost use Rattle.std.specs.Prelude.{◌≡◌, ◌↔◌, [], Some, IfErr, IsErrOf, IsTrue, is_err};
ghost use Rattle.log_source.specs.Calls as calls;
ghost use Rattle.case_keeper.specs.Cases.{LabelsDiffer};

use crate::case::{Case, Filter};
use crate::case_list::CaseList;
use crate::indexed_cases::IndexedCases;
use crate::keeper::{KeepFault, Keeper};
use audit_base::names::Name;
use std::alloc::Global;

/// A keeper in memory, whose cases are known. Its calls are counted from 1; those whose numbers
/// are in `fails` fail and are counted as faults, and no others.
#[derive(Drop)]
pub struct MapKeeper {
    cases: IndexedCases,
    fails: Vec<u32>,
    calls: u64,
    faults: u64,
    alloc: Global,
    ghost own_labels: { LabelsDiffer cases },
}

/// Whether the call of this number is to fail.
fn is_listed(number: u64, fails: &[u32]) -> bool
    ensures { result ≡ calls.is_failing_number number fails.now }
{
    fails.iter().any(|fail| u64::from(*fail) == number)
}

impl MapKeeper {
    ghost use Rattle.case_keeper.specs.Keepers.{CountsKeeperFaults};
    ghost use Rattle.case_keeper.specs.MapKeepers.{map_keeper_state, keeper_calls_made, failing_keeper_calls, keeper_fails_next, CountsKeeperCall};

    /// A keeper of no cases. It takes no memory.
    pub fn new(alloc: Global, fails: Vec<u32>) -> MapKeeper
        ensures state { map_keeper_state result ≡ record { cases = Some []; faults = 0 } }
        ensures calls { keeper_calls_made result ≡ 0 }
        ensures fails { failing_keeper_calls result ≡ fails.items }
    {
        MapKeeper {
            cases: IndexedCases::new(alloc),
            fails,
            calls: 0,
            faults: 0,
            alloc,
        }
    }

    /// Counts a call, which fails where its number is listed.
    fn count_call(&mut self) -> Result<(), KeepFault>
        ensures accounts { CountsKeeperFaults (map_keeper_state self.old) (map_keeper_state self.new) result }
        ensures cases { self.new.cases ≡ self.old.cases }
        ensures counted { CountsKeeperCall self.old self.new }
        ensures failing { is_err result ≡ keeper_fails_next self.old }
        ensures memory { IfErr result (λ fault. fault ≡ KeepFault.Failed) }
    {
        self.calls = self.calls.saturating_add(1);
        if is_listed(self.calls, &self.fails) {
            self.faults = self.faults.saturating_add(1);
            return Err(KeepFault::Failed);
        }
        Ok(())
    }
}

impl Keeper for MapKeeper {
    ghost use Rattle.case_keeper.specs.Keepers.{FindsLabel, AddsCase, ListsCases, LacksLabel};
    ghost use Rattle.case_keeper.specs.MapKeepers.{map_keeper_state, keeper_fails_next, CountsKeeperCall};

    ghost state = { map_keeper_state };

    fn find(&mut self, label: &Name) -> Result<Option<Case>, KeepFault>
        ensures found { FindsLabel (map_keeper_state self.old) (map_keeper_state self.new) result label.now }
        ensures counted { CountsKeeperCall self.old self.new }
        ensures failing { is_err result ≡ keeper_fails_next self.old }
        ensures memory { IfErr result (λ fault. fault ≡ KeepFault.Failed) }
    {
        self.count_call()?;
        Ok(self.cases.kept(label))
    }

    fn add(&mut self, case: &Case) -> Result<(), KeepFault>
        requires { LacksLabel (map_keeper_state self.old) case.now.label }
        ensures added { AddsCase (map_keeper_state self.old) (map_keeper_state self.new) result case.now }
        ensures counted { CountsKeeperCall self.old self.new }
        ensures failing { IsErrOf result KeepFault.Failed ↔ IsTrue (keeper_fails_next self.old) }
    {
        self.count_call()?;
        self.cases.add(case)?;
        Ok(())
    }

    fn list(&mut self, filter: &Filter) -> Result<CaseList, KeepFault>
        ensures listed { ListsCases (map_keeper_state self.old) (map_keeper_state self.new) result filter.now }
        ensures counted { CountsKeeperCall self.old self.new }
        ensures failing { IsErrOf result KeepFault.Failed ↔ IsTrue (keeper_fails_next self.old) }
    {
        self.count_call()?;
        let cases = CaseList::passing(self.alloc, self.cases.as_slice(), filter)?;
        Ok(cases)
    }

    ghost own_labels = { λ keeper. keeper.own_labels };
}
