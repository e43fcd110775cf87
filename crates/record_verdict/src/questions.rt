//! What is asked of two logs.
ghost use Rattle.std.specs.Prelude.{◌≡◌};
ghost use Rattle.record_verdict.specs.Scopes.{scope_of};

use crate::scopes::{Admission, Scope};
use audit_base::names::Name;
use audit_base::terms::Rule;

/// What is asked of two logs: whether the trades of a symbol conform to a rule.
#[derive(Clone, Copy, Debug)]
pub struct Question {
    pub rule: Rule,
    pub symbol: Name,
    /// Whether a table of quantities is wanted.
    pub table: bool,
}

impl Question {
    /// What of the question a reading of the logs needs to know.
    pub fn scope(&self) -> Scope
        ensures { result ≡ scope_of self.now }
    {
        Scope {
            symbol: self.symbol,
            admission: Admission::of(self.rule),
        }
    }
}
