//! What differs first between a case on file and two logs.
ghost use Rattle.std.specs.Prelude.{◌≡◌, ◌↔◌, IsTrue};
ghost use Rattle.desk_filing.specs.Lines as text;
ghost use Rattle.desk_filing.specs.Turns.{IsFirstDifference};

use audit_base::terms::Which;
use audit_report::words::log_word;
use case_keeper::case::Offence;
use log_digests::digests::LogDigests;

/// What is not as the case has it.
#[derive(Clone, Copy, Debug, PartialEq, Eq)]
pub enum CaseDifference {
    /// The bytes of the order log.
    OfOrders,
    /// The bytes of the trade log.
    OfTrades,
    /// How the audit ended.
    OfVerdict,
}

impl CaseDifference {
    /// The word of what differs.
    pub(crate) fn word(self) -> &'static [u8]
        ensures { result.now ≡ text.difference_word self }
    {
        match self {
            CaseDifference::OfOrders => log_word(Which::Orders),
            CaseDifference::OfTrades => log_word(Which::Trades),
            CaseDifference::OfVerdict => b"verdict",
        }
    }
}

/// How two audits ended, each on logs of these digests.
#[derive(Clone, Copy, Debug, PartialEq, Eq)]
pub(crate) struct AuditedLogs {
    pub(crate) digests: LogDigests,
    pub(crate) offence: Option<Offence>,
}

/// Whether two audits ended alike.
fn ended_alike(filed: &AuditedLogs, now: &AuditedLogs) -> bool
    ensures { IsTrue result ↔ (filed.now.offence ≡ now.now.offence) }
{
    filed.offence == now.offence
}

/// What differs first of an audit from the one on file: the order log, the trade log, or else how
/// it ended.
pub(crate) fn first_difference(filed: &AuditedLogs, now: &AuditedLogs) -> Option<CaseDifference>
    ensures { IsFirstDifference filed.now now.now result }
{
    if filed.digests.orders != now.digests.orders {
        return Some(CaseDifference::OfOrders);
    }
    if filed.digests.trades != now.digests.trades {
        return Some(CaseDifference::OfTrades);
    }
    if !ended_alike(filed, now) {
        return Some(CaseDifference::OfVerdict);
    }
    None
}
