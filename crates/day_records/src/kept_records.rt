//! The records of one symbol of a day, and what they give when the symbol is judged.
ghost use Rattle.std.specs.Prelude.{◌≡◌, IfOk, OnOk};
ghost use Rattle.day_records.specs.KeptRecords.{GivesSymbolDuringTrades, HasFewOrders, HasFewKeptRecords, IsBegun, IsUnseen, KeepsTrade, KnowsHistory, KnowsTrades, times_if, times_listed};

use crate::kept_orders::KeptOrders;
use crate::kept_trades::KeptTrades;
use crate::symbol_during_trades::SymbolDuringTrades;
use audit_base::faults::NoMemory;
use audit_base::names::Name;
use audit_base::records::TradeRecord;
use audit_base::stamps::Stamp;
use instruction_history::history_or_flaw::HistoryOrFlaw;
use record_verdict::scopes::Admission;
use seeded_hash::seed::HashSeed;
use std::alloc::Global;

/// The records of a symbol of a day: those of its orders, and those of the trade log so far.
#[derive(Drop)]
pub struct KeptRecords {
    orders: KeptOrders,
    trades: KeptTrades,
}

/// What is known of the history of a symbol after these records of it.
fn history_of(alloc: Global, seed: HashSeed, orders: &KeptOrders) -> Result<HistoryOrFlaw, NoMemory>
    requires { HasFewOrders orders.now }
    ensures { IfOk result (KnowsHistory orders.now.entries) }
{
    let mut history = HistoryOrFlaw::new(alloc, seed);
    for index in 0..orders.len() {
        let (place, entry) = orders.at(index);
        history.take(&entry, place)?;
    }
    Ok(history)
}

/// Takes the trades of a symbol, before which there were none.
fn take_trades(known: &mut SymbolDuringTrades, trades: &KeptTrades) -> Result<(), NoMemory>
    ensures { OnOk result (KnowsTrades trades.now.trades known.old known.new) }
{
    for index in 0..trades.len() {
        let (place, trade) = trades.at(index);
        known.take(&trade, place)?;
    }
    Ok(())
}

/// The times of trades, in their order.
fn times_of(alloc: Global, trades: &KeptTrades) -> Result<Vec<Stamp>, NoMemory>
    ensures { IfOk result (λ times. times.items ≡ times_listed trades.now.trades) }
{
    let mut times = Vec::new(alloc);
    for index in 0..trades.len() {
        let listed = trades.at(index);
        times.push(listed.1.time)?;
    }
    Ok(times)
}

impl KeptRecords {
    /// The order records of a symbol, and no trades. Takes no memory.
    pub fn of(alloc: Global, orders: KeptOrders) -> KeptRecords
        ensures { IsBegun orders result }
    {
        let trades = KeptTrades::new(alloc, orders.symbol());
        KeptRecords { orders, trades }
    }

    /// No records of a symbol. Takes no memory.
    pub fn none(alloc: Global, symbol: Name) -> KeptRecords
        ensures { IsUnseen symbol result }
    {
        KeptRecords {
            orders: KeptOrders::new(alloc, symbol),
            trades: KeptTrades::new(alloc, symbol),
        }
    }

    /// Takes the next trade of the symbol, with its place in the log. After `NoMemory` nothing is
    /// known of the records.
    pub fn take(&mut self, trade: &TradeRecord, place: u32) -> Result<(), NoMemory>
        requires { trade.now.symbol ≡ self.old.trades.symbol }
        ensures { OnOk result (KeepsTrade self.old self.new place trade.now) }
    {
        self.trades.push(trade, place)
    }

    /// The order records of the symbol.
    pub fn orders(&self) -> &KeptOrders
        ensures { result.now ≡ self.now.orders }
    {
        &self.orders
    }

    /// The times of the trades, in their order, where they are asked for. Where they are not, there
    /// are none, and this takes no memory.
    pub fn trade_times(&self, alloc: Global, asked: bool) -> Result<Vec<Stamp>, NoMemory>
        ensures { IfOk result (λ times. times.items ≡ times_if asked self.now.trades.trades) }
    {
        if !asked {
            return Ok(Vec::new(alloc));
        }
        times_of(alloc, &self.trades)
    }

    /// What the records give: the orders of the symbol and the deals between them, or the finding
    /// about its orders. The memory of the records is freed, of the orders before the trades are
    /// looked at.
    pub fn resolve(
        self,
        alloc: Global,
        seed: HashSeed,
        admission: Admission,
    ) -> Result<SymbolDuringTrades, NoMemory>
        requires { HasFewKeptRecords self }
        ensures { IfOk result (GivesSymbolDuringTrades admission self) }
    {
        let KeptRecords { orders, trades } = self;
        let history = history_of(alloc, seed, &orders)?;
        drop(orders);
        let mut known = SymbolDuringTrades::of(alloc, seed, admission, history);
        take_trades(&mut known, &trades)?;
        Ok(known)
    }

    /// What the records give, as `resolve` says it. The records are kept.
    pub fn resolve_keeping(
        &self,
        alloc: Global,
        seed: HashSeed,
        admission: Admission,
    ) -> Result<SymbolDuringTrades, NoMemory>
        requires { HasFewKeptRecords self.now }
        ensures { IfOk result (GivesSymbolDuringTrades admission self.now) }
    {
        let history = history_of(alloc, seed, &self.orders)?;
        let mut known = SymbolDuringTrades::of(alloc, seed, admission, history);
        take_trades(&mut known, &self.trades)?;
        Ok(known)
    }
}
