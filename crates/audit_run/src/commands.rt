//! The answer to each command. A command is an arm of `answer_request`.
ghost use Rattle.std.specs.Prelude.{◌≡◌, IsTrue};
ghost use Rattle.audit_base.specs.RuleKinds.{asks_for_greatest};
ghost use Rattle.log_source.specs.Sources.{longest_log};
ghost use Rattle.log_verdict.specs.BothLogs.{HaveOneLimit, StaysWithin};
ghost use Rattle.audit_run.specs.Deciding.{request_to_audit, request_to_certify, DecidesAuditorAnswer};
ghost use Rattle.command_words.specs.Words.{MayBeAsked};
ghost use Rattle.log_verdict.specs.Steps.{reading, reading_by, KeepsShelfLogs, FaultsNeverFall};

use super::converting::answer_convert;
use super::expecting::answer_expect;
use super::generating::answer_generate;
use super::given_logs::{GivenBeforeRule, GivenVerdict};
use super::judged_answers::certify_answer;
use super::program::Auditor;
use super::sessions::answer_session;
use super::verifying::answer_verify;
use audit_base::names::Name;
use audit_base::terms::{Form, Rule};
use command_run::answers::{Answer, answer_without, verdict_answer};
use command_run::laws::{both_logs_decide, one_log_decides};
use command_words::paths::PathText;
use command_words::requests::Request;
use log_source::shelf::Shelf;
use log_verdict::both_logs::read_both;
use log_verdict::sources::Source;
use log_verdict::stops::Stop;
use log_verdict::verdicts::verdict_on;
use record_verdict::questions::Question;
use seeded_hash::seed::HashSeed;
use session_audit::questions::PhaseQuestion;
use std::alloc::Global;

/// The answer to `audit`.
fn answer_audit<F: Shelf>(
    alloc: Global,
    shelf: &mut F,
    question: &Question,
    orders: &Source<'_>,
    trades: &Source<'_>,
) -> Result<Answer, Stop>
    requires limit { HaveOneLimit orders.now trades.now }
    ensures logs { KeepsShelfLogs F.Shelf shelf.old shelf.new }
    ensures later { FaultsNeverFall (reading_by orders.now F.Shelf shelf.old shelf.new) }
    ensures decides { DecidesAuditorAnswer (reading_by orders.now F.Shelf shelf.old shelf.new)
        (request_to_audit question.now orders.now trades.now) result }
    ensures within { StaysWithin (reading_by orders.now F.Shelf shelf.old shelf.new) result }
{
    both_logs_decide::<Auditor, GivenVerdict>();
    // A match and no `?`, as in `verdict_on`.
    match verdict_on(alloc, shelf, question, orders, trades) {
        Ok(verdict) => Ok(verdict_answer(alloc, &verdict)?),
        Err(stop) => Err(stop),
    }
}

/// The answer to `certify`.
fn answer_certify<F: Shelf>(
    alloc: Global,
    shelf: &mut F,
    rule: Rule,
    symbol: &Name,
    orders: &Source<'_>,
    trades: &Source<'_>,
) -> Result<Answer, Stop>
    requires rule { IsTrue (asks_for_greatest rule) }
    requires limit { HaveOneLimit orders.now trades.now }
    ensures logs { KeepsShelfLogs F.Shelf shelf.old shelf.new }
    ensures later { FaultsNeverFall (reading_by orders.now F.Shelf shelf.old shelf.new) }
    ensures decides { DecidesAuditorAnswer (reading_by orders.now F.Shelf shelf.old shelf.new)
        (request_to_certify rule symbol.now orders.now trades.now) result }
    ensures within { StaysWithin (reading_by orders.now F.Shelf shelf.old shelf.new) result }
{
    both_logs_decide::<Auditor, GivenBeforeRule>();
    let question = Question {
        rule,
        symbol: *symbol,
        table: false,
    };
    // A match and no `?`, as in `verdict_on`.
    match read_both(alloc, shelf, &question.scope(), orders, trades) {
        Ok(given) => Ok(certify_answer(alloc, &question, &given)?),
        Err(why) => answer_without(alloc, why),
    }
}

/// The log of this path, in this form, of at most 64 MiB, read with hashes of this seed.
fn source_of(path: &PathText, form: Form, seed: HashSeed) -> Source<'_>
    ensures name { result.name.now ≡ path.now }
    ensures form { result.form ≡ form }
    ensures limit { result.limit ≡ longest_log }
{
    Source::of(path.as_str(), form, seed)
}

/// The answer to a request, whatever its command is.
pub(crate) fn answer_request<F: Shelf>(
    alloc: Global,
    seed: HashSeed,
    shelf: &mut F,
    request: &Request,
) -> Result<Answer, Stop>
    requires { MayBeAsked request.now }
    ensures logs { KeepsShelfLogs F.Shelf shelf.old shelf.new }
    ensures later { FaultsNeverFall (reading F.Shelf shelf.old shelf.new) }
    ensures decides { DecidesAuditorAnswer (reading F.Shelf shelf.old shelf.new)
        request.now result }
    ensures within { StaysWithin (reading F.Shelf shelf.old shelf.new) result }
{
    // A law that the answers to one log rest on. It computes nothing.
    one_log_decides::<Auditor>();
    match request {
        Request::Audit {
            rule,
            symbol,
            orders,
            trades,
            orders_form,
            trades_form,
            table,
        } => {
            let question = Question {
                rule: *rule,
                symbol: *symbol,
                table: *table,
            };
            let orders = source_of(orders, *orders_form, seed);
            let trades = source_of(trades, *trades_form, seed);
            answer_audit(alloc, shelf, &question, &orders, &trades)
        }
        Request::Expect {
            rule,
            symbol,
            orders,
            orders_form,
        } => {
            let orders = source_of(orders, *orders_form, seed);
            answer_expect(alloc, shelf, *rule, symbol, &orders)
        }
        Request::Convert { log, form, path } => {
            answer_convert(alloc, shelf, *log, &source_of(path, *form, seed))
        }
        Request::Generate { start, count } => Ok(answer_generate(alloc, *start, *count)?),
        Request::Certify {
            rule,
            symbol,
            orders,
            trades,
            orders_form,
            trades_form,
        } => {
            let orders = source_of(orders, *orders_form, seed);
            let trades = source_of(trades, *trades_form, seed);
            answer_certify(alloc, shelf, *rule, symbol, &orders, &trades)
        }
        Request::Verify {
            symbol,
            orders,
            trades,
            certificate,
            orders_form,
            trades_form,
        } => {
            let orders = source_of(orders, *orders_form, seed);
            let trades = source_of(trades, *trades_form, seed);
            answer_verify(alloc, shelf, symbol, &orders, &trades, certificate.as_str())
        }
        Request::Session {
            symbol,
            phases,
            orders,
            trades,
            orders_form,
            trades_form,
            table,
        } => {
            let question = PhaseQuestion {
                symbol: *symbol,
                phases: phases.as_slice(),
                table: *table,
            };
            let orders = source_of(orders, *orders_form, seed);
            let trades = source_of(trades, *trades_form, seed);
            answer_session(alloc, shelf, &question, &orders, &trades)
        }
    }
}
