//! The page by what two logs give before the rule is looked at, and by the verdict.
ghost use Rattle.std.specs.Prelude.{◌≡◌, [], None, Some, IfOk};
ghost use Rattle.audit_base.specs.Deals.{IsDealList};
ghost use Rattle.audit_base.specs.Orders.{IsOrderList};
ghost use Rattle.desk_page.specs.PageAnswers as spec;
ghost use Rattle.page_parts.specs.VerdictPages.{IsVerdictPage};
ghost use Rattle.record_verdict.specs.RecordVerdict.{as_verdict};

use crate::drawings::Drawing;
use audit_base::faults::NoMemory;
use audit_base::findings::Finding;
use audit_base::orders::Deal;
use matching_core::totals::volume_of;
use order_list::lists::OrderList;
use page_markup::markup::Markup;
use page_parts::repeats::PageLogs;
use page_parts::sentences::{SymbolTotals, VerdictInWords};
use page_parts::verdict_pages::verdict_page;
use record_verdict::questions::Question;
use record_verdict::verdicts::RecordVerdict;
use std::alloc::Global;

/// The finding of a verdict.
pub(crate) fn verdict_finding(judged: &RecordVerdict) -> Option<Finding>
    ensures { result ≡ spec.verdict_finding (as_verdict judged.now) }
{
    match judged {
        RecordVerdict::Accepted(_) => None,
        RecordVerdict::Rejected(finding) => Some(*finding),
    }
}

/// What the symbol has: its orders, its trades, and what was traded.
fn totals_of_market(orders: &OrderList<'_>, deals: &[Deal]) -> SymbolTotals
    requires order_list { IsOrderList orders.now }
    requires deal_list { IsDealList orders.now deals.now }
    ensures { result ≡ spec.totals_of_market orders.now deals.now }
{
    SymbolTotals {
        orders: orders.len() as u32,
        trades: deals.len() as u32,
        volume: volume_of(deals),
    }
}

/// What is told of the question.
fn in_words(
    question: &Question,
    finding: Option<Finding>,
    totals: Option<SymbolTotals>,
) -> VerdictInWords
    ensures { result ≡ spec.in_words question.now finding totals }
{
    VerdictInWords {
        rule: question.rule,
        symbol: question.symbol,
        finding,
        totals,
    }
}

/// The page of a finding before the rule, by which neither orders nor deals are known.
pub(crate) fn page_before_rule(
    alloc: Global,
    question: &Question,
    finding: &Finding,
    named: &PageLogs<'_>,
) -> Result<Vec<u8>, NoMemory>
    ensures { let said = spec.in_words question.now (Some finding.now) None in
        IfOk result (λ text. IsVerdictPage said [] named.now text.items) }
{
    let said = in_words(question, Some(*finding), None);
    let none = Markup::new(alloc);
    let text = verdict_page(alloc, &said, &none, named)?;
    Ok(text)
}

/// The page of the verdict on these orders and deals.
pub(crate) fn page_of_market<D: Drawing>(
    alloc: Global,
    question: &Question,
    orders: &OrderList<'_>,
    deals: &[Deal],
    finding: &Option<Finding>,
    named: &PageLogs<'_>,
) -> Result<Vec<u8>, NoMemory>
    requires order_list { IsOrderList orders.now }
    requires deal_list { IsDealList orders.now deals.now }
    ensures { IfOk result (λ text. spec.IsPageOfMarket D.is_picture question.now
        named.now orders.now deals.now finding.now text.items) }
{
    let picture = D::picture(alloc, question.rule, orders, deals, finding)?;
    let said = in_words(question, *finding, Some(totals_of_market(orders, deals)));
    let text = verdict_page(alloc, &said, &picture, named)?;
    Ok(text)
}
