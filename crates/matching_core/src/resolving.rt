//! The deals of the trades of one symbol: each trade with its bid and its ask.
ghost use Rattle.std.specs.Prelude.{◌≡◌, ◌<◌, ◌-◌, ◌^◌, Some, IfOk, OnOk, length};
ghost use Rattle.audit_base.specs.Deals.{IsDealList, DealsInRange};
ghost use Rattle.audit_base.specs.Trades.{SoundTrades, deals_of_symbol, trades_finding};
ghost use Rattle.matching_core.specs.Answers.{IfCheckFinding, IsResolveAnswer};
ghost use Rattle.matching_core.specs.DealsSoFar.{IsDealsSoFar};

use super::deals_or_flaw::DealsOrFlaw;
use super::deals_so_far::{DealsSoFar, HistoryGhost};
use super::outcomes::CheckFault;
use super::sound_deals::SoundDeals;
use audit_base::faults::NoMemory;
use audit_base::names::Name;
use audit_base::orders::Deal;
use audit_base::records::TradeRecord;
use instruction_history::history::History;
use seeded_hash::seed::HashSeed;
use std::alloc::Global;
use std::marker::Brand;

/// What is known after all these records.
fn deals_after<M: HistoryGhost>(
    alloc: Global,
    history: &History,
    trades: &[TradeRecord],
    symbol: &Name,
) -> Result<DealsSoFar<M>, NoMemory>
    requires orders { history.now ≡ M.orders }
    requires symbol { symbol.now ≡ M.symbol }
    requires fits_places { length trades.now < 2 ^ 32 - 1 }
    ensures { IfOk result (λ so_far. IsDealsSoFar M.orders M.symbol so_far trades.now) }
{
    let mut so_far = DealsSoFar::new(alloc, HashSeed::fixed());
    for trade in trades {
        so_far.take(history, symbol, trade)?;
    }
    Ok(so_far)
}

/// The deals, or the first finding, of all these records.
fn resolve_all<M: HistoryGhost>(
    alloc: Global,
    history: &History,
    trades: &[TradeRecord],
    symbol: &Name,
) -> Result<Vec<Deal>, CheckFault>
    requires orders { history.now ≡ M.orders }
    requires symbol { symbol.now ≡ M.symbol }
    requires fits_places { length trades.now < 2 ^ 32 - 1 }
    ensures { IsResolveAnswer history.now symbol.now trades.now result }
{
    let DealsSoFar { kept, .. } = deals_after::<M>(alloc, history, trades, symbol)?;
    let DealsOrFlaw { sound, flaw } = kept;
    let SoundDeals { deals, .. } = sound;
    match flaw {
        Some(flaw) => Err(CheckFault::Found(flaw.finding())),
        None => Ok(deals),
    }
}

/// The deals of the symbol's trades, in log order, where they are sound: each trade id of the
/// symbol comes once, and each trade names the key of a bid and the key of an ask of the history.
/// Trades have the places 1, 2 and so on of their log; those of other symbols are passed over. Ok
/// exactly where the trades are sound and Found exactly where one has a finding of number 5 or 6,
/// out of memory aside. One pass over the trades.
pub fn resolve(
    alloc: Global,
    history: &History,
    trades: &[TradeRecord],
    symbol: &Name,
) -> Result<Vec<Deal>, CheckFault>
    requires { length trades.now < 2 ^ 32 - 1 }
    ensures sound { OnOk result (SoundTrades history.now symbol.now trades.now) }
    ensures deals { let deals = deals_of_symbol history.now symbol.now trades.now in
        IfOk result (λ made. made.items ≡ deals) }
    ensures deal_list { IfOk result (λ deals. IsDealList history.now deals.items) }
    ensures numbers { IfOk result (λ deals. DealsInRange deals.items) }
    ensures found { let first = trades_finding history.now symbol.now trades.now in
        IfCheckFinding result (λ f. first ≡ Some f) }
{
    resolve_all::<Brand>(alloc, history, trades, symbol)
}
