//! What is known of the records of a log: their symbols, and from when to when they are.
ghost use Rattle.std.specs.Prelude.{◌≡◌, [], List, ℕ};
ghost use Rattle.audit_base.specs.Moments.{Moment};
ghost use Rattle.log_contents.specs.Facts.{AreFactsOf};

use crate::time_spans::{TimeSpan, span_with};
use audit_base::faults::NoMemory;
use audit_base::records::{LogRecord, OrderRecord, TradeRecord};
use audit_base::stamps::Stamp;
use day_symbols::symbols::Symbols;
use log_source::collector::Collector;
use seeded_hash::seed::HashSeed;
use std::alloc::Global;
use std::marker::PhantomData;
use trade_reports::reports::Report;

/// A record of a log, which is made at a time.
pub trait TimedRecord: LogRecord {
    ghost time_of: { Self → Moment };

    /// The time that it has: in a FIX log TransactTime (tag 60).
    fn made_at(&self) -> Stamp
        ensures { result ≡ time_of self.now };
}

impl TimedRecord for OrderRecord {
    ghost use Rattle.audit_base.specs.Histories as history;

    ghost time_of = { history.time_of };

    fn made_at(&self) -> Stamp {
        self.time()
    }
}

impl TimedRecord for TradeRecord {
    ghost time_of = { λ trade. trade.time };

    fn made_at(&self) -> Stamp {
        self.time
    }
}

impl TimedRecord for Report {
    ghost time_of = { λ report. report.time };

    fn made_at(&self) -> Stamp {
        self.time
    }
}

/// A collector that keeps of its records how many they are, their symbols, each once, and their
/// least and their greatest time.
#[derive(Drop)]
pub struct RecordFacts<R> {
    /// How many records there were.
    pub count: u32,
    /// Their symbols, in the order in which each appears first.
    pub symbols: Symbols,
    /// From when to when they are, where there are any.
    pub times: Option<TimeSpan>,
    of: PhantomData<R>,
}

impl<R: TimedRecord> RecordFacts<R> {
    /// Of no records. Symbols are found by hashes of this seed. Takes no memory.
    pub fn new(alloc: Global, seed: HashSeed) -> Self
        ensures { AreFactsOf R.symbol_of R.time_of result [] }
    {
        RecordFacts {
            count: 0,
            symbols: Symbols::new(alloc, seed),
            times: None,
            of: PhantomData,
        }
    }
}

impl<R: TimedRecord> Collector for RecordFacts<R> {
    ghost use Rattle.std.specs.Prelude.{true};

    type Entry = R;

    ghost has_taken = { AreFactsOf R.symbol_of R.time_of };

    ghost wants = { λ facts symbol. true };

    fn take(&mut self, entry: R) -> Result<(), NoMemory> {
        self.count += 1;
        self.times = Some(span_with(self.times, entry.made_at()));
        self.symbols.meet(entry.symbol())?;
        Ok(())
    }

    fn wants(&self, _symbol: &[u8]) -> bool {
        true
    }

    fn pass_over(&mut self) {}

    fn count(&self) -> u32 {
        self.count
    }
}
