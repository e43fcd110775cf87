//! A collector that only counts.
use crate::collector::Collector;
use audit_base::faults::NoMemory;
use audit_base::records::LogRecord;
use std::marker::PhantomData;

/// How many records there were. It looks at the records of no symbol, so none is ever made for it.
#[derive(Drop)]
pub struct Counter<R> {
    count: u32,
    of: PhantomData<R>,
}

impl<R: LogRecord> Counter<R> {
    ghost use Rattle.std.specs.Prelude.{[]};

    /// No records.
    pub fn new() -> Self
        ensures { ⟦<Counter<R> as Collector>⟧.has_taken result [] }
    {
        Counter {
            count: 0,
            of: PhantomData,
        }
    }
}

impl<R: LogRecord> Collector for Counter<R> {
    ghost use Rattle.std.specs.Prelude.{◌≡◌, false, length};

    type Entry = R;

    ghost has_taken = { λ counted entries. counted.count ≡ length entries };

    ghost wants = { λ counted symbol. false };

    fn take(&mut self, _entry: R) -> Result<(), NoMemory> {
        self.count += 1;
        Ok(())
    }

    fn wants(&self, _symbol: &[u8]) -> bool {
        false
    }

    fn pass_over(&mut self) {
        self.count += 1;
    }

    fn count(&self) -> u32 {
        self.count
    }
}
