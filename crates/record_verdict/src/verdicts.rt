//! The verdict on the records of two logs, by what they give before the rule is looked at.
ghost use Rattle.std.specs.Prelude.{◌≡◌, IfOk};
ghost use Rattle.audit_report.specs.Statuses.{verdict_status};
ghost use Rattle.record_verdict.specs.BeforeRule.{IsJudgeable};
ghost use Rattle.record_verdict.specs.RecordVerdict.{as_verdict, IsJudgedInRange};
ghost use Rattle.record_verdict.specs.Stages.{IsVerdictAfterStages};

use crate::before_rule::BeforeRule;
use crate::questions::Question;
use crate::rules::judge_deals;
use audit_base::faults::NoMemory;
use audit_base::findings::Finding;
use audit_report::statuses::Status;
use audit_report::verdicts::{Accepted, Verdict};
use std::alloc::Global;

/// The verdict on the records of two logs. Whether a log has records is settled before.
#[derive(Debug, Drop)]
pub enum RecordVerdict {
    /// The records conform to the rule.
    Accepted(Accepted),
    /// They do not conform, and this is the one finding.
    Rejected(Finding),
}

impl RecordVerdict {
    /// The status of the verdict: `Accepted` or `Rejected`.
    pub fn status(&self) -> Status
        ensures { result ≡ verdict_status (as_verdict self.now) }
    {
        match self {
            RecordVerdict::Accepted(_) => Status::Accepted,
            RecordVerdict::Rejected(_) => Status::Rejected,
        }
    }

    /// The verdict on the two logs that have these records.
    pub fn into_verdict(self) -> Verdict
        ensures { result ≡ as_verdict self }
    {
        match self {
            RecordVerdict::Accepted(accepted) => Verdict::Accepted(accepted),
            RecordVerdict::Rejected(finding) => Verdict::Rejected(finding),
        }
    }
}

/// The verdict on records that give this: the first finding before the rule is looked at, or what
/// the rule says of sound trades.
pub fn verdict_after(
    alloc: Global,
    question: &Question,
    given: &BeforeRule,
) -> Result<RecordVerdict, NoMemory>
    requires { IsJudgeable given.now }
    ensures verdict { IfOk result (IsVerdictAfterStages question.now given.now) }
    ensures in_range { IfOk result IsJudgedInRange }
{
    match given {
        BeforeRule::Found(finding) => Ok(RecordVerdict::Rejected(*finding)),
        BeforeRule::Sound(resolved) => {
            let orders = resolved.history.orders();
            judge_deals(alloc, question, &orders, &resolved.deals, resolved.count)
        }
    }
}
