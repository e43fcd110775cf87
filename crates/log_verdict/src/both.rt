//! Two collectors that are handed the records of one log.
use audit_base::faults::NoMemory;
use log_source::collector::Collector;

/// Two collectors of one log: each is handed all of its records. A record is made where one of them
/// looks at it.
#[derive(Drop)]
pub struct Both<A, B> {
    pub first: A,
    pub second: B,
}

impl<A: Collector, B: Collector<Entry = A::Entry>> Collector for Both<A, B> {
    ghost use Rattle.std.specs.Prelude.{◌||◌};

    type Entry = A::Entry;

    ghost has_taken = { λ both entries. A.has_taken both.first entries × B.has_taken both.second entries };

    ghost wants = { λ both symbol. A.wants both.first symbol || B.wants both.second symbol };

    fn take(&mut self, entry: A::Entry) -> Result<(), NoMemory> {
        self.first.take(entry)?;
        self.second.take(entry)
    }

    fn wants(&self, symbol: &[u8]) -> bool {
        self.first.wants(symbol) || self.second.wants(symbol)
    }

    fn pass_over(&mut self) {
        self.first.pass_over();
        self.second.pass_over();
    }

    fn count(&self) -> u32 {
        self.first.count()
    }
}
