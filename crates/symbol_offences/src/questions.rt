//! What is asked of the records of a symbol.
ghost use Rattle.std.specs.Prelude.{◌≡◌, [], ℕ, List, false};
ghost use Rattle.record_verdict.specs.RecordVerdicts.{question};
ghost use Rattle.symbol_offences.specs.declared.questions.KeepingOptions.{KeepingOptions as KeepingOptionsSpec};
ghost use Rattle.symbol_offences.specs.Questions.{keeping_for};

use audit_base::names::Name;
use audit_base::terms::Rule;
use further_checks::findings::FurtherChecks;
use record_verdict::questions::Question;
use std::marker::Brand;

/// What is asked of the records of a symbol: the offences under a rule, and of a symbol that the
/// rule accepts every trade that fails a further check.
#[derive(Clone, Copy, Debug)]
pub struct OffenceQuestion {
    pub rule: Rule,
    pub symbol: Name,
    /// Whether the records that a letter quotes are written behind each offence.
    pub records: bool,
    /// Which of the further checks are asked for.
    pub checks: FurtherChecks,
}

/// What is kept of a symbol beside what its verdict needs.
#[derive(Clone, Copy, Debug)]
pub struct KeepingOptions {
    /// Its records, of both logs.
    pub records: bool,
    /// The times of its trades.
    pub times: bool,
}

/// The symbol that is asked about, and what is kept of it, for proofs alone. What hands records to
/// collectors of any kind can say of one only which records it has been handed, and not what it was
/// made for. So its type says that. Whoever makes one picks them, at `Brand`, and nothing of them is
/// there when the program runs.
pub trait QuestionGhost {
    ghost symbol: { List ℕ };

    ghost keeping: { KeepingOptionsSpec };
}

impl QuestionGhost for Brand {
    ghost symbol = { [] };

    ghost keeping = { record { records = false; times = false } };
}

impl OffenceQuestion {
    /// The same as the question of an audit, without a table.
    pub fn audit(&self) -> Question
        ensures { result ≡ question self.now.rule self.now.symbol false }
    {
        Question {
            rule: self.rule,
            symbol: self.symbol,
            table: false,
        }
    }

    /// What is kept for its answer.
    pub(crate) fn keeping(&self) -> KeepingOptions
        ensures { result ≡ keeping_for self.now }
    {
        KeepingOptions {
            records: self.records,
            times: self.checks.any(),
        }
    }
}
