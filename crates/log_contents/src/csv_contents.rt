//! Contents as the collector of a CSV log: each of its records has a kind.
ghost use Rattle.std.specs.Prelude.{◌≡◌, ℕ, List};
ghost use Rattle.log_contents.specs.Contents.{HasCsvRecords};
ghost use Rattle.log_contents.specs.Kinds.{kind_of_life};

use crate::contents::Contents;
use crate::record_facts::TimedRecord;
use audit_base::faults::NoMemory;
use audit_base::records::{OrderRecord, TradeRecord};
use audit_base::terms::Life;
use log_source::collector::Collector;

/// A record of a CSV log, whose kind its first column has.
pub trait KindRecord: TimedRecord {
    ghost kind_of: { Self → List ℕ };

    /// Its kind.
    fn kind(&self) -> &'static [u8]
        ensures { result.now ≡ kind_of self.now };
}

/// The kind of a new order, by its life.
fn kind_of_life(life: Life) -> &'static [u8]
    ensures { result.now ≡ kind_of_life life }
{
    match life {
        Life::Rests => b"N",
        Life::Immediate => b"I",
        Life::Market => b"M",
    }
}

/// `N`, `I` or `M` for a new order, by its life, `X` for a cancel, `R` for a replacement.
impl KindRecord for OrderRecord {
    ghost use Rattle.log_contents.specs.Kinds.{kind_of_order};

    ghost kind_of = { kind_of_order };

    fn kind(&self) -> &'static [u8] {
        match *self {
            OrderRecord::New { life, .. } => kind_of_life(life),
            OrderRecord::Cancel { .. } => b"X",
            OrderRecord::Replace { .. } => b"R",
        }
    }
}

/// `T`.
impl KindRecord for TradeRecord {
    ghost use Rattle.log_contents.specs.Kinds.{kind_of_trade};

    ghost kind_of = { kind_of_trade };

    fn kind(&self) -> &'static [u8] {
        b"T"
    }
}

impl<R: KindRecord> Collector for Contents<R> {
    ghost use Rattle.std.specs.Prelude.{true};

    type Entry = R;

    ghost has_taken = { HasCsvRecords R.symbol_of R.time_of R.kind_of };

    ghost wants = { λ contents symbol. true };

    fn take(&mut self, entry: R) -> Result<(), NoMemory> {
        self.kinds.count(entry.kind())?;
        self.facts.take(entry)
    }

    fn wants(&self, _symbol: &[u8]) -> bool {
        true
    }

    fn pass_over(&mut self) {}

    fn count(&self) -> u32 {
        self.facts.count
    }
}
