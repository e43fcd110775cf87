//! The session of a symbol, by what its records give before the phases are looked at.
ghost use Rattle.std.specs.Prelude.{◌≡◌, IfOk};
ghost use Rattle.audit_base.specs.Deals.{DealsInRange};
ghost use Rattle.audit_base.specs.Histories.{Regular};
ghost use Rattle.audit_base.specs.Orders.{IsOrderList};
ghost use Rattle.audit_report.specs.declared.verdicts.Verdict.TheVariants as verdict;
ghost use Rattle.record_verdict.specs.BeforeRule.{AreResolvedTradesInRange, IsJudgeable};
ghost use Rattle.session_audit.specs.Days.{ConformsDay};
ghost use Rattle.session_audit.specs.Phases.{ArePhases};
ghost use Rattle.session_audit.specs.SessionVerdicts.{session_status, AreOnlyOfDay, IsRejectedSession};
ghost use Rattle.session_audit.specs.SessionVerdicts.{IsSessionAfter, IsSessionOfDeals, IsSessionOfKind};

use crate::auditing::audit_session;
use crate::days::Day;
use crate::laws::day_uniqueness;
use crate::phases::Phase;
use crate::questions::PhaseQuestion;
use crate::texts::session_text;
use audit_base::faults::NoMemory;
use audit_base::findings::Finding;
use audit_base::names::Name;
use audit_base::orders::Deal;
use audit_report::reports::report_text;
use audit_report::statuses::Status;
use audit_report::verdicts::Verdict;
use matching_core::deals_draft::ResolvedTrades;
use order_list::lists::OrderList;
use record_verdict::before_rule::BeforeRule;
use std::alloc::Global;

/// What `session` says of a symbol: whether its trades conform phase by phase, and the text.
#[derive(Drop)]
pub struct Session {
    pub conforms: bool,
    pub text: Vec<u8>,
}

impl Session {
    /// The status that the session is answered with.
    pub fn status(&self) -> Status
        ensures { result ≡ session_status self.now.conforms }
    {
        if self.conforms {
            Status::Accepted
        } else {
            Status::Rejected
        }
    }
}

/// The quantities of a day that conforms are the only ones: the law of days, over these deals.
fn only_of_day(orders: &OrderList<'_>, phases: &[Phase], deals: &[Deal])
    requires order_list { IsOrderList orders.now }
    requires regular { Regular orders.now }
    requires numbers { DealsInRange deals.now }
    requires conforms { ConformsDay phases.now orders.now deals.now }
    ensures { AreOnlyOfDay phases.now orders.now deals.now }
{
    day_uniqueness();
}

/// The session that does not conform, with the text of this finding.
fn rejected_session(alloc: Global, finding: Finding) -> Result<Session, NoMemory>
    ensures { IfOk result (IsSessionOfKind (IsRejectedSession (verdict.Rejected finding))) }
{
    let text = report_text(alloc, &Verdict::Rejected(finding))?;
    Ok(Session {
        conforms: false,
        text,
    })
}

/// The session of a symbol whose trades are sound: the phases decide.
fn session_of_deals(
    alloc: Global,
    symbol: &Name,
    phases: &[Phase],
    table: bool,
    resolved: &ResolvedTrades,
) -> Result<Session, NoMemory>
    requires phases { ArePhases phases.now }
    requires judgeable { AreResolvedTradesInRange resolved.now }
    ensures { IfOk result (IsSessionOfKind (IsSessionOfDeals symbol.now phases.now table
        resolved.now.history resolved.now.deals.items resolved.now.count)) }
{
    let orders = resolved.history.orders();
    let deals = &resolved.deals;
    match audit_session(alloc, &orders, phases, deals, resolved.count)? {
        Day::Conforms(totals) => {
            only_of_day(&orders, phases, deals);
            let trades = deals.len() as u32;
            let question = PhaseQuestion {
                symbol: *symbol,
                phases,
                table,
            };
            let text = session_text(alloc, &question, &orders, &totals, trades)?;
            Ok(Session {
                conforms: true,
                text,
            })
        }
        Day::Broken(finding) => rejected_session(alloc, finding),
    }
}

/// The session of a symbol whose records give this before the phases: their finding there, or
/// else what the phases say of the sound trades. `table` asks for a line of each order in the
/// text of a session that conforms.
pub fn session_after(
    alloc: Global,
    symbol: &Name,
    phases: &[Phase],
    table: bool,
    given: &BeforeRule,
) -> Result<Session, NoMemory>
    requires phases { ArePhases phases.now }
    requires judgeable { IsJudgeable given.now }
    ensures { IfOk result (IsSessionAfter symbol.now phases.now table given.now) }
{
    match given {
        BeforeRule::Found(finding) => rejected_session(alloc, *finding),
        BeforeRule::Sound(resolved) => session_of_deals(alloc, symbol, phases, table, resolved),
    }
}
