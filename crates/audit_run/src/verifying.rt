//! The command `verify`: whether a certificate agrees with two logs.
ghost use Rattle.std.specs.Prelude.{◌≤◌, IfOk, length};
ghost use Rattle.audit_base.specs.declared.terms.Which.{Which};
ghost use Rattle.audit_report.specs.declared.statuses.Status.TheVariants as status;
ghost use Rattle.audit_report.specs.Certificates.{refused_line, verified_line};
ghost use Rattle.log_source.specs.Sources.{longest_log};
ghost use Rattle.log_verdict.specs.BothLogs.{HaveOneLimit, StaysWithin, StaysWithinAt};
ghost use Rattle.audit_run.specs.Certificates.{VerifiesDeals};
ghost use Rattle.command_run.specs.Deciding.{IsAnswerOfKind};
ghost use Rattle.audit_run.specs.Deciding.{request_to_verify, DecidesAuditorAnswer};
ghost use Rattle.audit_run.specs.JudgedAnswers.{IsVerifyAnswerOn};
ghost use Rattle.command_run.specs.Deciding.{DecidesBytes};
ghost use Rattle.command_run.specs.VerdictAnswers.{IsAnswerWith};
ghost use Rattle.log_verdict.specs.Collecting.{TouchesOnly};
ghost use Rattle.log_verdict.specs.Steps.{reading_by, reading_within, KeepsShelfLogs, FaultsNeverFall};
ghost use Rattle.record_verdict.specs.BeforeRule.{AreResolvedTradesInRange, IsJudgeable};

use super::given_logs::GivenBeforeRule;
use super::program::Auditor;
use audit_base::faults::NoMemory;
use audit_base::names::Name;
use audit_base::terms::{Rule, Which};
use audit_certificate::faults::VerifyFault;
use audit_certificate::verifying::verify;
use audit_report::certificates::{append_refused_line, append_verified_line};
use audit_report::statuses::Status;
use command_run::answers::{Answer, answer_without, done_answer, finding_answer, unread_answer};
use command_run::laws::{both_logs_decide, read_logs_decide};
use log_source::shelf::Shelf;
use log_source::take::take_log;
use log_verdict::both_logs::read_both;
use log_verdict::reading::ReadingFault;
use log_verdict::sources::Source;
use log_verdict::stops::Stop;
use matching_core::deals_draft::ResolvedTrades;
use matching_core::totals::volume_of;
use record_verdict::before_rule::BeforeRule;
use record_verdict::scopes::{Admission, Scope};
use std::alloc::Global;

/// The answer to a certificate that agrees under a rule.
fn verified_answer(
    alloc: Global,
    rule: Rule,
    symbol: &Name,
    volume: u128,
) -> Result<Answer, NoMemory>
    ensures { IfOk result (IsAnswerOfKind
        (IsAnswerWith status.Accepted (verified_line rule symbol.now volume))) }
{
    let mut text = Vec::new(alloc);
    append_verified_line(alloc, rule, symbol, volume, &mut text)?;
    Ok(done_answer(text))
}

/// The answer to a certificate of which this line is the first that is refused.
fn refused_answer(alloc: Global, line: u32) -> Result<Answer, NoMemory>
    ensures { IfOk result (IsAnswerOfKind (IsAnswerWith status.Rejected (refused_line line))) }
{
    let mut text = Vec::new(alloc);
    append_refused_line(alloc, line, &mut text)?;
    Ok(Answer {
        status: Status::Rejected,
        text,
        stop: None,
    })
}

/// The answer to a certificate over sound trades.
fn answer_sound(
    alloc: Global,
    symbol: &Name,
    resolved: &ResolvedTrades,
    certificate: &[u8],
) -> Result<Answer, NoMemory>
    requires judgeable { AreResolvedTradesInRange resolved.now }
    requires small { length certificate.now ≤ longest_log }
    ensures { IfOk result (IsAnswerOfKind (VerifiesDeals symbol.now resolved.now.history
        resolved.now.deals.items certificate.now)) }
{
    let orders = resolved.history.orders();
    match verify(alloc, symbol, &orders, &resolved.deals, certificate) {
        Ok(rule) => verified_answer(alloc, rule, symbol, volume_of(&resolved.deals)),
        Err(VerifyFault::No(line)) => refused_answer(alloc, line),
        Err(VerifyFault::Memory) => Err(NoMemory),
    }
}

/// The answer to a certificate over logs that give this before the rule.
fn verify_answer(
    alloc: Global,
    symbol: &Name,
    given: &BeforeRule,
    certificate: &[u8],
) -> Result<Answer, NoMemory>
    requires judgeable { IsJudgeable given.now }
    requires small { length certificate.now ≤ longest_log }
    ensures { IfOk result (IsAnswerOfKind
        (IsVerifyAnswerOn symbol.now given.now certificate.now)) }
{
    match given {
        BeforeRule::Found(finding) => finding_answer(alloc, *finding),
        BeforeRule::Sound(resolved) => answer_sound(alloc, symbol, resolved, certificate),
    }
}

/// The answer to the certificate of this name, which is taken whole from the slot of the trade
/// log. That is started anew.
fn answer_certificate<F: Shelf>(
    alloc: Global,
    shelf: &mut F,
    symbol: &Name,
    given: &BeforeRule,
    name: &str,
    limit: u64,
) -> Result<Answer, Stop>
    requires limit { limit ≤ longest_log }
    requires judgeable { IsJudgeable given.now }
    ensures logs { KeepsShelfLogs F.Shelf shelf.old shelf.new }
    ensures only { TouchesOnly (reading_within limit F.Shelf shelf.old shelf.new) Which.Trades }
    ensures decides { DecidesBytes (reading_within limit F.Shelf shelf.old shelf.new)
        Which.Trades name.now (IsVerifyAnswerOn symbol.now given.now) result }
    ensures within { StaysWithinAt (reading_within limit F.Shelf shelf.old shelf.new)
        Which.Trades result }
{
    match take_log(alloc, shelf, Which::Trades, name, limit) {
        Ok(certificate) => Ok(verify_answer(alloc, symbol, given, &certificate)?),
        Err(fault) => unread_answer(alloc, Which::Trades, ReadingFault::from(fault)),
    }
}

/// The answer to `verify`. The certificate is taken after both logs, where they are in their
/// grammars, and before any finding about them is answered.
pub(crate) fn answer_verify<F: Shelf>(
    alloc: Global,
    shelf: &mut F,
    symbol: &Name,
    orders: &Source<'_>,
    trades: &Source<'_>,
    certificate: &str,
) -> Result<Answer, Stop>
    requires limit { HaveOneLimit orders.now trades.now }
    requires small { orders.now.limit ≤ longest_log }
    ensures logs { KeepsShelfLogs F.Shelf shelf.old shelf.new }
    ensures later { FaultsNeverFall (reading_by orders.now F.Shelf shelf.old shelf.new) }
    ensures decides { DecidesAuditorAnswer (reading_by orders.now F.Shelf shelf.old shelf.new)
        (request_to_verify symbol.now orders.now trades.now certificate.now) result }
    ensures within { StaysWithin (reading_by orders.now F.Shelf shelf.old shelf.new) result }
{
    both_logs_decide::<Auditor, GivenBeforeRule>();
    read_logs_decide::<Auditor>();
    let scope = Scope {
        symbol: *symbol,
        admission: Admission::Resting,
    };
    // A match and no `?`, as in `verdict_on`.
    match read_both(alloc, shelf, &scope, orders, trades) {
        Ok(given) => answer_certificate(alloc, shelf, symbol, &given, certificate, orders.limit),
        Err(why) => answer_without(alloc, why),
    }
}
