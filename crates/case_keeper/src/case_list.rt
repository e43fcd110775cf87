//! A list of cases, as a keeper gives it.
ghost use Rattle.std.specs.Prelude.{◌≡◌, IfOk};
ghost use Rattle.case_keeper.specs.Cases.{passing_cases};

use crate::case::{Case, Filter};
use audit_base::faults::NoMemory;
use std::alloc::Global;
use std::marker::Model;

/// Cases in the order in which they were filed.
#[derive(Debug, Drop)]
pub struct CaseList {
    cases: Vec<Case>,
}

impl Model for CaseList {
    ghost use Rattle.std.specs.Prelude.{List};
    ghost use Rattle.case_keeper.specs.declared.case.Case.{Case};

    ghost Value = { List Case };

    ghost view = { λ list. list.cases.items };
}

/// Those of the cases that pass the filter, in their order.
fn pick(alloc: Global, cases: &[Case], filter: &Filter) -> Result<Vec<Case>, NoMemory>
    ensures { IfOk result (λ picked. picked.items ≡ passing_cases filter.now cases.now) }
{
    let mut picked = Vec::new(alloc);
    for case in cases {
        if filter.passes(case) {
            picked.push(*case)?;
        }
    }
    Ok(picked)
}

impl CaseList {
    /// The list of these cases. Takes no memory.
    pub fn of(cases: Vec<Case>) -> CaseList
        ensures { result ≡ cases.items }
    {
        CaseList { cases }
    }

    /// The cases of the list. Takes no memory.
    pub fn as_slice(&self) -> &[Case]
        ensures { result.now ≡ self.now }
    {
        self.cases.as_slice()
    }

    /// Those of the cases that pass the filter, in their order.
    pub(crate) fn passing(
        alloc: Global,
        cases: &[Case],
        filter: &Filter,
    ) -> Result<CaseList, NoMemory>
        ensures { IfOk result (λ list. list ≡ passing_cases filter.now cases.now) }
    {
        Ok(CaseList::of(pick(alloc, cases, filter)?))
    }
}
