//! That a command has one answer, that an audit accepts the trades that `expect` writes, what
//! `generate` answers, and that a certificate that was written is verified. That two logs have
//! one verdict is a law of `log_verdict`.
ghost use Rattle.audit_run.specs.AnswerIsOne.{AnswerIsOne, RunsAgree};
ghost use Rattle.audit_run.specs.ExpectedTrades.{AuditAcceptsExpectedTrades, ExpectedTradesAreAccepted};
ghost use Rattle.audit_run.specs.Laws.{CertifiedIsVerified, GenerateWrites};

use super::program::Auditor;
use audit_certificate::one_answer::{one_answer_for_a_text, one_certificate};
use command_run::laws::{calls_agree, held_logs_are_answered};
use log_verdict::laws::records_are_in_range;
pub use log_verdict::laws::{forms_agree, one_verdict};
use session_audit::session_laws::one_session;
use verdict_laws::histories::expected_trades_are_one;

/// Two answers to one request on the same logs have the same status and the same text, whatever
/// the command is and however long the logs are. So what `run` says is written of the logs that a
/// shelf holds is one text.
pub fn answer_is_one()
    ensures { AnswerIsOne }
{
    one_verdict();
    one_certificate();
    one_answer_for_a_text();
    one_session();
    expected_trades_are_one();
    records_are_in_range();
}

/// Of two calls of `run` on the same words, for both of which the same logs are there, within the
/// size limit, and no fault rises, one runs out of memory, or both answer the same status and
/// write the same text: whatever shelves and sinks they have, and however the bytes are cut.
pub fn runs_agree()
    ensures { RunsAgree }
{
    calls_agree::<Auditor>();
    answer_is_one();
}

/// Where a call of `run` on the words of `expect` answers 0, and it is known what the shelf
/// holds and what the sink was given, the text that it wrote is accepted as a CSV trade log
/// beside the same order log, under the same rule, with a table or without. So where a call
/// on the words of `audit` finds both logs within the size limit and nothing fails, it
/// answers 0, or that memory ran out.
pub fn expected_trades_are_accepted()
    ensures verdict { ExpectedTradesAreAccepted }
    ensures audit { AuditAcceptsExpectedTrades }
{
    held_logs_are_answered::<Auditor>();
    one_verdict();
}

/// A call of `run` on the words of `generate` answers 0, that the sink failed,
/// or that memory ran out.
pub fn generate_writes()
    ensures { GenerateWrites }
{}

/// What `certify` wrote as a certificate of two logs is verified by `verify` over the same logs.
pub fn certified_is_verified()
    ensures { CertifiedIsVerified }
{}
