//! The records of the symbols of a day, trade by trade.
//!
//! Which order records there may be is a predicate (`may_have`), since a caller knows what the
//! order log gave and not the list.
ghost use Rattle.std.specs.Prelude.{⊤, ◌≡◌, ◌+◌, ◌<◌, ◌∷◌, [], List, IfOk, OnOk, slice_get, Some, length};
ghost use Rattle.audit_base.specs.declared.records.OrderRecord.{OrderRecord as OrderRecordSpec};
ghost use Rattle.log_source.specs.Collectors.{HasPlace};
ghost use Rattle.log_source.specs.Handing.{HandsOnMore};
ghost use Rattle.day_records.specs.DayOrders.{HasOrders};
ghost use Rattle.day_symbols.specs.Kept.{HasRoomAt};
ghost use Rattle.day_symbols.specs.Shares.{DayShare, whole_day};
ghost use Rattle.record_verdict.specs.declared.scopes.Admission.{Admission as AdmissionSpec};
ghost use Rattle.record_verdict.specs.declared.scopes.Admission.TheVariants.{All as AdmitsAll};
ghost use Rattle.day_records.specs.DayTrades.{AreBegun, EndsDay, IsDayTrades, KeepsAllButKeptRecords};
ghost use Rattle.day_records.specs.KeptRecords.{IsUnseen};

use crate::day_orders::DayOrderLog;
use crate::kept_orders::KeptOrders;
use crate::kept_records::KeptRecords;
use audit_base::faults::NoMemory;
use audit_base::names::Name;
use audit_base::records::TradeRecord;
use day_symbols::shares::DayShare;
use day_symbols::symbols::Symbols;
use log_source::collector::Collector;
use record_verdict::scopes::Admission;
use seeded_hash::seed::HashSeed;
use std::alloc::Global;
use std::marker::{Brand, PhantomData};

/// The share of a day that is audited, which orders its rule admits, and which order records it may
/// have, for proofs alone. What hands records to collectors of any kind can say of one only which
/// records it has been handed, and not which day it was made for. So the type of a day says that.
/// Whoever makes one picks them, at `Brand`, and nothing of them is there when the program runs.
pub trait DayGhost {
    ghost share: { DayShare };

    ghost admission: { AdmissionSpec };

    ghost may_have: { List OrderRecordSpec → Type 0 };
}

impl DayGhost for Brand {
    ghost share = { whole_day };

    ghost admission = { AdmitsAll };

    ghost may_have = { λ _. ⊤ };
}

/// What is known of a day after its order log and some records of its trade log: its symbols, and
/// the records of each that is in the share.
#[derive(Drop)]
pub struct DayTrades<M> {
    alloc: Global,
    seed: HashSeed,
    share: DayShare,
    admission: Admission,
    /// How many records of the trade log there were, of all symbols.
    count: u32,
    symbols: Symbols,
    /// Those of the symbols of the share, in their order.
    kept: Vec<KeptRecords>,
    of: PhantomData<M>,
}

/// A day whose records have all come.
#[derive(Drop)]
pub struct DayRecords {
    pub symbols: Symbols,
    /// Those of the symbols of the share, in their order.
    pub kept: Vec<KeptRecords>,
    /// How many records the trade log has, of all symbols.
    pub count: u32,
    /// The seed of the hashes by which keys and ids are found, when a symbol is judged.
    pub seed: HashSeed,
    pub admission: Admission,
}

/// The records of each symbol before any trade.
fn begin(alloc: Global, orders: Vec<KeptOrders>) -> Result<Vec<KeptRecords>, NoMemory>
    ensures { IfOk result (λ kept. AreBegun orders.items kept.items) }
{
    let mut kept = Vec::with_capacity(alloc, orders.len())?;
    for symbol_orders in orders {
        kept.push(KeptRecords::of(alloc, symbol_orders))?;
    }
    Ok(kept)
}

impl<M: DayGhost> DayTrades<M> {
    /// No trades, after these orders of the share. Symbols, keys and ids are found by hashes of
    /// this seed.
    pub fn new(
        alloc: Global,
        seed: HashSeed,
        share: DayShare,
        admission: Admission,
        orders: DayOrderLog,
    ) -> Result<DayTrades<M>, NoMemory>
        requires share { share ≡ M.share }
        requires admission { admission ≡ M.admission }
        requires orders { (entries : List OrderRecordSpec)
            → M.may_have entries → HasOrders M.share orders entries }
        requires some { (entries : List OrderRecordSpec) × M.may_have entries }
        ensures { IfOk result (λ day. IsDayTrades M.share M.admission M.may_have day []) }
    {
        let DayOrderLog { symbols, kept } = orders;
        let kept = begin(alloc, kept)?;
        Ok(DayTrades {
            alloc,
            seed,
            share,
            admission,
            count: 0,
            symbols,
            kept,
            of: PhantomData,
        })
    }

    /// No records of the symbol at this index, where the list ends there.
    fn make_room(&mut self, share_index: usize, symbol: Name) -> Result<(), NoMemory>
        ensures room { let room = HasRoomAt (IsUnseen symbol) share_index in
            OnOk result (room self.old.kept.items self.new.kept.items) }
        ensures only { KeepsAllButKeptRecords self.old self.new }
    {
        if share_index == self.kept.len() {
            self.kept.push(KeptRecords::none(self.alloc, symbol))?;
        }
        Ok(())
    }

    /// Takes the next record of the log. After `NoMemory` nothing is known of the day.
    fn take_trade(&mut self, trade: &TradeRecord) -> Result<(), NoMemory>
        requires { HasPlace (IsDayTrades M.share M.admission M.may_have) self.old }
        ensures { let has_taken = IsDayTrades M.share M.admission M.may_have in
            OnOk result (HandsOnMore (has_taken self.old) (has_taken self.new) (trade.now ∷ [])) }
    {
        self.count += 1;
        let index = self.symbols.meet(&trade.symbol)?;
        if !self.share.has(index) {
            return Ok(());
        }
        let share_index = self.share.index_in_share(index);
        self.make_room(share_index, trade.symbol)?;
        self.kept[share_index].take(trade, self.count)
    }

    /// The symbols of the day and the records of those in the share. Takes no memory.
    pub fn end(self) -> DayRecords
        ensures { EndsDay M.share M.admission M.may_have self result }
    {
        let DayTrades {
            seed,
            admission,
            count,
            symbols,
            kept,
            ..
        } = self;
        DayRecords {
            symbols,
            kept,
            count,
            seed,
            admission,
        }
    }
}

impl<M: DayGhost> Collector for DayTrades<M> {
    ghost use Rattle.day_symbols.specs.Shares.{is_looked_at};

    type Entry = TradeRecord;

    ghost has_taken = { IsDayTrades M.share M.admission M.may_have };

    ghost wants = { λ day symbol. is_looked_at day.share day.symbols symbol };

    fn take(&mut self, trade: TradeRecord) -> Result<(), NoMemory> {
        self.take_trade(&trade)
    }

    fn wants(&self, symbol: &[u8]) -> bool {
        self.share.looks_at(&self.symbols, symbol)
    }

    fn pass_over(&mut self) {
        self.count += 1;
    }

    fn count(&self) -> u32 {
        self.count
    }
}
