//! Cases in the order of filing, with an index by label, so that a label is found among many
//! without going over them, whatever the labels are.
ghost use Rattle.std.specs.Prelude.{◌≡◌, ◌++◌, ◌∷◌, [], None, OnOk, OnErr};
ghost use Rattle.case_keeper.specs.Cases.{kept_case};

use crate::case::Case;
use audit_base::faults::NoMemory;
use audit_base::names::Name;
use std::alloc::Global;
use std::collections::BTreeMap;
use std::marker::Model;

/// Cases in the order of filing. Contracts see their list.
#[derive(Drop)]
pub(crate) struct IndexedCases {
    cases: Vec<Case>,
    // The index of the case of each label among the cases.
    index: BTreeMap<Name, usize>,
}

impl Model for IndexedCases {
    ghost use Rattle.std.specs.Prelude.{List};
    ghost use Rattle.case_keeper.specs.IndexedCases.{IsLabelIndex};
    ghost use Rattle.case_keeper.specs.declared.case.Case.{Case};

    ghost Value = { List Case };

    ghost view = { λ c. c.cases.items };

    ghost invariant = { λ c. IsLabelIndex c.index c.cases.items };
}

impl IndexedCases {
    /// No cases. Takes no memory.
    pub(crate) fn new(alloc: Global) -> IndexedCases
        ensures { result ≡ [] }
    {
        IndexedCases {
            cases: Vec::new(alloc),
            index: BTreeMap::new(alloc),
        }
    }

    /// The case with this label. Takes no memory.
    pub(crate) fn kept(&self, label: &Name) -> Option<Case>
        ensures { result ≡ kept_case self.now label.now }
    {
        match self.index.get(label) {
            Some(place) => self.cases.get(*place).copied(),
            None => None,
        }
    }

    /// Adds a case after the others. Out of memory leaves them as they were.
    pub(crate) fn add(&mut self, case: &Case) -> Result<(), NoMemory>
        requires { kept_case self.old case.now.label ≡ None }
        ensures ok { OnOk result (self.new ≡ self.old ++ case.now ∷ []) }
        ensures err { OnErr result (self.new ≡ self.old) }
    {
        let place = self.cases.len();
        self.cases.push(*case)?;
        if self.index.insert(case.label, place).is_err() {
            self.cases.truncate(place);
            return Err(NoMemory);
        }
        Ok(())
    }

    /// The cases. Takes no memory.
    pub(crate) fn as_slice(&self) -> &[Case]
        ensures { result.now ≡ self.now }
    {
        self.cases.as_slice()
    }
}
