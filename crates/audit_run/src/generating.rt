//! The command `generate`: a summary of the Expected trades of a log of any length, which is the
//! same at each run.
ghost use Rattle.std.specs.Prelude.{◌≡◌, ◌<◌, ◌^◌, IfOk, OnOk, length};
ghost use Rattle.audit_base.specs.declared.terms.VolumeRule.TheVariants as of_volume;
ghost use Rattle.audit_base.specs.Histories.{Regular};
ghost use Rattle.audit_base.specs.Orders.{IsOrderList};
ghost use Rattle.log_maker.specs.Generator.{IsCount, IsStart, generated_orders, generated_records};
ghost use Rattle.command_run.specs.Deciding.{IsAnswerOfKind};
ghost use Rattle.audit_run.specs.OneLog.{AddsLine};
ghost use Rattle.audit_run.specs.OtherTexts.{IsCallLine, IsContinuousLine, IsGeneratedSummary, IsSummaryOfOrders};
ghost use Rattle.command_run.specs.VerdictAnswers.{IsDone};

use audit_base::faults::NoMemory;
use audit_base::orders::Deal;
use audit_base::terms::Rule;
use audit_report::summaries::{append_call_line, append_continuous_line, append_generated_line};
use call_laws::optimum::{
    greatest_matching_reaches_the_least_cut, maximum_trades_are_expected, uniform_optimum,
    uniform_trades_are_expected,
};
use command_run::answers::{Answer, done_answer};
use continuous_audit::expecting::continuous_matching;
use instruction_history::faults::HistoryFault;
use instruction_history::history::History;
use log_maker::generator::{generated_symbol, make_orders};
use matching_core::totals::volume_of;
use maximum_audit::expecting::greatest_matching;
use order_list::lists::OrderList;
use std::alloc::Global;
use uniform_audit::expecting::expected_uniform;
use volume_bound::extremes::{best_uniform, least_cut};

/// The history of the generated records, which is well-formed.
fn generated_history(alloc: Global, start: u32, count: u32) -> Result<History, NoMemory>
    requires start { IsStart start }
    requires count { IsCount count }
    ensures { IfOk result (λ history.
        history ≡ generated_orders (generated_records start count)) }
{
    let entries = make_orders(alloc, start, count)?;
    match History::build(alloc, &entries, &generated_symbol()) {
        Ok(history) => Ok(history),
        Err(HistoryFault::Found(_)) => unreachable!(),
        Err(HistoryFault::Memory) => Err(NoMemory),
    }
}

/// How many deals there are.
fn count_of(deals: &[Deal]) -> u32
    requires { length deals.now < 2 ^ 32 }
    ensures { result ≡ length deals.now }
{
    deals.len() as u32
}

/// Adds the line of the Expected trades of `uniform`.
fn append_uniform(alloc: Global, orders: &OrderList<'_>, out: &mut Vec<u8>) -> Result<(), NoMemory>
    requires { IsOrderList orders.now }
    ensures { OnOk result
        (AddsLine (IsCallLine of_volume.Uniform orders.now) out.old.items out.new.items) }
{
    // Laws that the answer rests on. They compute nothing.
    uniform_optimum();
    uniform_trades_are_expected();
    let most = best_uniform(alloc, orders)?;
    let deals = expected_uniform(alloc, orders)?;
    append_call_line(alloc, Rule::Uniform, count_of(&deals), &most, out)
}

/// Adds the line of the Expected trades of `maximum`.
fn append_maximum(alloc: Global, orders: &OrderList<'_>, out: &mut Vec<u8>) -> Result<(), NoMemory>
    requires { IsOrderList orders.now }
    ensures { OnOk result
        (AddsLine (IsCallLine of_volume.Maximum orders.now) out.old.items out.new.items) }
{
    // Laws that the answer rests on. They compute nothing.
    greatest_matching_reaches_the_least_cut();
    maximum_trades_are_expected();
    let most = least_cut(alloc, orders)?;
    let deals = greatest_matching(alloc, orders)?;
    append_call_line(alloc, Rule::Maximum, count_of(&deals), &most, out)
}

/// Adds the line of the Expected trades of `continuous`.
fn append_continuous(
    alloc: Global,
    orders: &OrderList<'_>,
    out: &mut Vec<u8>,
) -> Result<(), NoMemory>
    requires order_list { IsOrderList orders.now }
    requires regular { Regular orders.now }
    ensures { OnOk result
        (AddsLine (IsContinuousLine orders.now) out.old.items out.new.items) }
{
    let deals = continuous_matching(alloc, orders)?;
    append_continuous_line(alloc, count_of(&deals), volume_of(&deals), out)
}

/// The summary of a generated log whose history has these orders.
fn summary(
    alloc: Global,
    start: u32,
    count: u32,
    orders: &OrderList<'_>,
) -> Result<Vec<u8>, NoMemory>
    requires order_list { IsOrderList orders.now }
    requires regular { Regular orders.now }
    ensures { IfOk result (λ text. IsSummaryOfOrders orders.now start count text.items) }
{
    let mut text = Vec::new(alloc);
    append_generated_line(alloc, start, count, &mut text)?;
    append_uniform(alloc, orders, &mut text)?;
    append_maximum(alloc, orders, &mut text)?;
    append_continuous(alloc, orders, &mut text)?;
    Ok(text)
}

/// The answer to `generate`: the summary of the log of START and COUNT.
pub(crate) fn answer_generate(alloc: Global, start: u32, count: u32) -> Result<Answer, NoMemory>
    requires start { IsStart start }
    requires count { IsCount count }
    ensures { IfOk result (IsAnswerOfKind (IsDone (IsGeneratedSummary start count))) }
{
    let history = generated_history(alloc, start, count)?;
    let text = summary(alloc, start, count, &history.orders())?;
    Ok(done_answer(text))
}
