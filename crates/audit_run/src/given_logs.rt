//! What two logs give the commands that read both, as `command_run` speaks of it.
use audit_report::verdicts::Verdict;
use command_run::given_logs::GivenByLogs;
use record_verdict::before_rule::BeforeRule;
use record_verdict::questions::Question;
use record_verdict::scopes::Scope;

/// Two logs give the verdict on a question.
pub struct GivenVerdict;

impl GivenByLogs for GivenVerdict {
    ghost use Rattle.std.specs.Prelude.{◌≡◌};
    ghost use Rattle.audit_report.specs.declared.verdicts.Verdict.TheVariants.{Malformed};
    ghost use Rattle.record_verdict.specs.RecordVerdicts.{IsRecordVerdict};

    type Given = (Question, Verdict);

    ghost of_records = { λ given entries paired. IsRecordVerdict given.0 entries paired given.1 };

    ghost of_bad = { λ given log bad. given.1 ≡ Malformed log bad };
}

/// The records of two logs give what is known in a scope before a rule is looked at.
pub struct GivenBeforeRule;

impl GivenByLogs for GivenBeforeRule {
    ghost use Rattle.record_verdict.specs.BeforeRule.{IsBeforeRule};

    type Given = (Scope, BeforeRule);

    ghost of_records = { λ given entries paired. IsBeforeRule given.0 entries paired given.1 };

    ghost of_bad = { λ given log bad. ⊥ };
}
