//! What is kept of the trade log of one symbol beside its deals: the times of its trades and its
//! records, where they are asked for.
ghost use Rattle.std.specs.Prelude.{◌≡◌, ◌∷◌, [], OnOk};
ghost use Rattle.audit_base.specs.Orders.{same_name};
ghost use Rattle.log_source.specs.Collectors.{HasPlace};
ghost use Rattle.log_source.specs.Handing.{HandsOnMore};
ghost use Rattle.symbol_offences.specs.TradeLog.{IsTradesOfSymbol, with_time_if, with_trade_if};

use crate::questions::{KeepingOptions, QuestionGhost};
use audit_base::faults::NoMemory;
use audit_base::names::Name;
use audit_base::records::TradeRecord;
use audit_base::stamps::Stamp;
use day_records::kept_trades::KeptTrades;
use log_source::collector::Collector;
use std::alloc::Global;
use std::marker::PhantomData;

/// Whether the trade is one of this symbol.
fn has_symbol(trade: &TradeRecord, symbol: &Name) -> bool
    ensures { result ≡ same_name trade.now.symbol symbol.now }
{
    trade.symbol == *symbol
}

/// Keeps one trade more, where records are kept.
fn keep_trade(
    keeps: bool,
    kept: &mut KeptTrades,
    trade: &TradeRecord,
    place: u32,
) -> Result<(), NoMemory>
    requires { trade.now.symbol ≡ kept.old.symbol }
    ensures { OnOk result (kept.new ≡ with_trade_if keeps kept.old place trade.now) }
{
    if !keeps {
        return Ok(());
    }
    kept.push(trade, place)
}

/// Keeps one time more, where times are kept.
fn keep_time(keeps: bool, times: &mut Vec<Stamp>, time: Stamp) -> Result<(), NoMemory>
    ensures { OnOk result (times.new.items ≡ with_time_if keeps times.old.items time) }
{
    if !keeps {
        return Ok(());
    }
    times.push(time)?;
    Ok(())
}

/// What is kept of a symbol after some records of the trade log.
#[derive(Drop)]
pub struct TradesOfSymbol<Q> {
    symbol: Name,
    /// How many records of the log there were, of all symbols.
    count: u32,
    keeping: KeepingOptions,
    /// Those of the trades of the symbol, where they are kept.
    pub(crate) times: Vec<Stamp>,
    /// Those of the symbol, where they are kept.
    pub(crate) records: KeptTrades,
    of: PhantomData<Q>,
}

impl<Q: QuestionGhost> TradesOfSymbol<Q> {
    /// No trades. Takes no memory.
    pub fn new(alloc: Global, symbol: Name, keeping: KeepingOptions) -> TradesOfSymbol<Q>
        requires symbol { symbol ≡ Q.symbol }
        requires keeping { keeping ≡ Q.keeping }
        ensures { IsTradesOfSymbol Q.symbol Q.keeping result [] }
    {
        TradesOfSymbol {
            symbol,
            count: 0,
            keeping,
            times: Vec::new(alloc),
            records: KeptTrades::new(alloc, symbol),
            of: PhantomData,
        }
    }

    /// Takes the next record of the log. After `NoMemory` nothing is known of the symbol.
    fn take_trade(&mut self, trade: &TradeRecord) -> Result<(), NoMemory>
        requires { HasPlace (IsTradesOfSymbol Q.symbol Q.keeping) self.old }
        ensures { let has_taken = IsTradesOfSymbol Q.symbol Q.keeping in
            OnOk result (HandsOnMore (has_taken self.old) (has_taken self.new) (trade.now ∷ [])) }
    {
        self.count += 1;
        if !has_symbol(trade, &self.symbol) {
            return Ok(());
        }
        keep_time(self.keeping.times, &mut self.times, trade.time)?;
        keep_trade(self.keeping.records, &mut self.records, trade, self.count)
    }
}

impl<Q: QuestionGhost> Collector for TradesOfSymbol<Q> {
    ghost use Rattle.audit_base.specs.Orders.{same_name};

    type Entry = TradeRecord;

    ghost has_taken = { IsTradesOfSymbol Q.symbol Q.keeping };

    ghost wants = { λ kept symbol. same_name symbol kept.symbol };

    fn take(&mut self, trade: TradeRecord) -> Result<(), NoMemory> {
        self.take_trade(&trade)
    }

    fn wants(&self, symbol: &[u8]) -> bool {
        symbol == self.symbol.bytes()
    }

    fn pass_over(&mut self) {
        self.count += 1;
    }

    fn count(&self) -> u32 {
        self.count
    }
}
