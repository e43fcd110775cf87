//! The answer to `certify`, by what is known of two logs before the rule is looked at.
ghost use Rattle.std.specs.Prelude.{IfOk, IsTrue};
ghost use Rattle.audit_base.specs.RuleKinds.{asks_for_greatest};
ghost use Rattle.audit_run.specs.Certificates.{IsVerdictAnswerWith};
ghost use Rattle.command_run.specs.Deciding.{IsAnswerOfKind};
ghost use Rattle.audit_run.specs.JudgedAnswers.{IsCertifyAnswerOn, IsDealsCertificate};
ghost use Rattle.record_verdict.specs.RecordVerdict.{as_verdict};
ghost use Rattle.record_verdict.specs.Stages.{VerdictFollowsDeals};
ghost use Rattle.record_verdict.specs.BeforeRule.{AreResolvedTradesInRange, IsJudgeable};

use audit_base::faults::NoMemory;
use audit_certificate::certifying::certify;
use command_run::answers::{Answer, done_answer, finding_answer};
use matching_core::deals_draft::ResolvedTrades;
use record_verdict::before_rule::BeforeRule;
use record_verdict::questions::Question;
use record_verdict::verdicts::{RecordVerdict, verdict_after};
use std::alloc::Global;

/// The certificate of sound trades that conform, or what `audit` answers where they do not.
fn certified_answer(
    alloc: Global,
    question: &Question,
    resolved: &ResolvedTrades,
    judged: &RecordVerdict,
) -> Result<Answer, NoMemory>
    requires rule { IsTrue (asks_for_greatest question.now.rule) }
    requires judgeable { AreResolvedTradesInRange resolved.now }
    requires judged { let sound = resolved.now in
        VerdictFollowsDeals question.now sound.history sound.deals.items sound.count
        (as_verdict judged.now) }
    ensures { IfOk result (IsAnswerOfKind
        (IsVerdictAnswerWith (IsDealsCertificate question.now resolved.now)
        (as_verdict judged.now))) }
{
    match judged {
        RecordVerdict::Accepted(_) => Ok(done_answer(certify(
            alloc,
            question.rule,
            &question.symbol,
            &resolved.history.orders(),
            &resolved.deals,
        )?)),
        RecordVerdict::Rejected(finding) => finding_answer(alloc, *finding),
    }
}

/// The answer to `certify` on two logs that give this before the rule.
pub(crate) fn certify_answer(
    alloc: Global,
    question: &Question,
    given: &BeforeRule,
) -> Result<Answer, NoMemory>
    requires rule { IsTrue (asks_for_greatest question.now.rule) }
    requires judgeable { IsJudgeable given.now }
    ensures { IfOk result (IsAnswerOfKind (IsCertifyAnswerOn question.now given.now)) }
{
    let judged = verdict_after(alloc, question, given)?;
    match given {
        BeforeRule::Found(finding) => finding_answer(alloc, *finding),
        BeforeRule::Sound(resolved) => certified_answer(alloc, question, resolved, &judged),
    }
}
