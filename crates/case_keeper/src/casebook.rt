//! A casebook: files cases under their labels, shows one and lists those that pass a filter.
ghost use Rattle.std.specs.Prelude.{◌≡◌};

use crate::case::{Case, Filter};
use crate::case_list::CaseList;
use crate::keeper::{KeepFault, Keeper};
use audit_base::names::Name;
use std::marker::Model;

/// What became of a case that was to be filed.
#[derive(Clone, Copy, Debug, PartialEq, Eq)]
pub enum Filed {
    /// It is kept under its label.
    Kept,
    /// Another case is kept under its label, and stays there.
    Known(Case),
}

/// A casebook over a keeper. Contracts see it as its keeper.
#[derive(Drop)]
pub struct Casebook<K> {
    keeper: K,
}

impl<K> Model for Casebook<K> {
    ghost Value = { K };

    ghost view = { λ book. book.keeper };
}

impl<K: Keeper> Casebook<K> {
    ghost use Rattle.case_keeper.specs.Keepers.{FindsLabel, ListsCases};
    ghost use Rattle.case_keeper.specs.Casebooks.{FilesCase};

    /// The casebook over this keeper. Takes no memory.
    pub fn new(keeper: K) -> Casebook<K>
        ensures { result ≡ keeper }
    {
        Casebook { keeper }
    }

    /// The keeper of the casebook. Takes no memory.
    pub fn into_keeper(self) -> K
        ensures { result ≡ self }
    {
        self.keeper
    }

    /// Files a case under its label, unless a case has it. After a fault the cases are as before.
    pub fn file(&mut self, case: &Case) -> Result<Filed, KeepFault>
        ensures { FilesCase (K.state self.old) (K.state self.new) result case.now }
    {
        match self.keeper.find(&case.label)? {
            Some(kept) => Ok(Filed::Known(kept)),
            None => {
                self.keeper.add(case)?;
                Ok(Filed::Kept)
            }
        }
    }

    /// The case with this label.
    pub fn show(&mut self, label: &Name) -> Result<Option<Case>, KeepFault>
        ensures { FindsLabel (K.state self.old) (K.state self.new) result label.now }
    {
        self.keeper.find(label)
    }

    /// The cases that pass the filter, in the order of filing.
    pub fn list(&mut self, filter: &Filter) -> Result<CaseList, KeepFault>
        ensures { ListsCases (K.state self.old) (K.state self.new) result filter.now }
    {
        self.keeper.list(filter)
    }
}
