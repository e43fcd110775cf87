//! A case: the verdict of an audit under its label, and the filter that picks cases.
ghost use Rattle.std.specs.Prelude.{◌≡◌};

use audit_base::findings::Property;
use audit_base::names::Name;
use audit_base::terms::{Rule, Which};

/// The property that was broken, and the record that broke it, by its log and its place from 1.
#[derive(Clone, Copy, Debug, PartialEq, Eq)]
pub struct Offence {
    pub property: Property,
    pub log: Which,
    pub place: u32,
}

/// The verdict of an audit of a symbol by a rule, under its label. With no offence the logs
/// were accepted.
#[derive(Clone, Copy, Debug, PartialEq, Eq)]
pub struct Case {
    pub label: Name,
    pub rule: Rule,
    pub symbol: Name,
    pub offence: Option<Offence>,
}

/// How an audit ended: its logs were accepted, or this property was broken.
#[derive(Clone, Copy, Debug, PartialEq, Eq)]
pub enum Mark {
    Accepted,
    Broken(Property),
}

/// Which cases are listed: those of a symbol, those with a mark, or those with both. What it
/// does not name may be any.
#[derive(Clone, Copy, Debug, PartialEq, Eq)]
pub struct Filter {
    pub symbol: Option<Name>,
    pub mark: Option<Mark>,
}

impl Mark {
    ghost use Rattle.case_keeper.specs.Cases.{same_result};

    /// Whether two audits ended alike: both accepted, or with one property broken.
    fn is_same(self, other: Mark) -> bool
        ensures { result ≡ same_result self other }
    {
        match (self, other) {
            (Mark::Accepted, Mark::Accepted) => true,
            (Mark::Broken(property), Mark::Broken(other)) => property.word() == other.word(),
            _ => false,
        }
    }
}

impl Case {
    ghost use Rattle.case_keeper.specs.Cases.{mark_of};

    /// How its audit ended.
    pub fn mark(&self) -> Mark
        ensures { result ≡ mark_of self.now }
    {
        match self.offence {
            Some(offence) => Mark::Broken(offence.property),
            None => Mark::Accepted,
        }
    }
}

impl Filter {
    ghost use Rattle.case_keeper.specs.Cases.{passes_filter, passes_symbol, passes_mark};

    /// Whether the symbol of a case is the one that the filter names, if it names one.
    fn passes_symbol(&self, case: &Case) -> bool
        ensures { result ≡ passes_symbol self.now case.now }
    {
        match self.symbol {
            Some(symbol) => symbol == case.symbol,
            None => true,
        }
    }

    /// Whether the mark of a case is the one that the filter names, if it names one.
    fn passes_mark(&self, case: &Case) -> bool
        ensures { result ≡ passes_mark self.now case.now }
    {
        match self.mark {
            Some(mark) => mark.is_same(case.mark()),
            None => true,
        }
    }

    /// Whether a case has the symbol and the mark that the filter names.
    pub fn passes(&self, case: &Case) -> bool
        ensures { result ≡ passes_filter self.now case.now }
    {
        self.passes_symbol(case) && self.passes_mark(case)
    }
}
