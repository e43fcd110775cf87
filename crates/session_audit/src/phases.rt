//! The phases of a day.
ghost use Rattle.std.specs.Prelude.{◌≡◌};
ghost use Rattle.session_audit.specs.Phases as spec;

use audit_base::terms::Rule;
use std::marker::Model;

/// How a phase trades.
#[derive(Clone, Copy, Debug, PartialEq, Eq, Hash)]
pub enum PhaseKind {
    /// A call under the rule `uniform`.
    Uniform,
    /// A call under the rule `maximum`.
    Maximum,
    /// Continuous trading.
    Continuous,
}

impl PhaseKind {
    /// The rule that the deals of the phase are judged by.
    pub fn rule(self) -> Rule
        ensures { result ≡ spec.rule_of self }
    {
        match self {
            PhaseKind::Uniform => Rule::Uniform,
            PhaseKind::Maximum => Rule::Maximum,
            PhaseKind::Continuous => Rule::Continuous,
        }
    }
}

/// A phase, which lasts until the next one begins. A list of these are the phases of a day where
/// there is one, the first begins at place 1, and the places at which they begin rise strictly.
#[derive(Clone, Copy, Debug, PartialEq, Eq)]
pub struct Phase {
    pub kind: PhaseKind,
    /// The first place of the phase, a number of a record of the order log.
    pub first: u32,
}

/// A list of phases. Contracts see the list.
#[derive(Debug, Drop)]
pub struct PhaseList {
    phases: Vec<Phase>,
}

impl Model for PhaseList {
    ghost use Rattle.std.specs.Prelude.{List};
    ghost use Rattle.session_audit.specs.declared.phases.Phase.{Phase};

    ghost Value = { List Phase };

    ghost view = { λ list. list.phases.items };
}

impl PhaseList {
    /// The list of these phases. Takes no memory.
    pub fn of(phases: Vec<Phase>) -> PhaseList
        ensures { result ≡ phases.items }
    {
        PhaseList { phases }
    }

    /// The phases of the list. Takes no memory.
    pub fn as_slice(&self) -> &[Phase]
        ensures { result.now ≡ self.now }
    {
        self.phases.as_slice()
    }
}
