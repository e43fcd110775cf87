//! A collector: what is handed the records of a log one after another
//! and keeps what it needs of them.
ghost use Rattle.std.specs.Prelude.{◌≡◌, ◌∷◌, [], ℕ, Bool, List, OnOk, length};
ghost use Rattle.log_source.specs.Collectors.{HasPlace, PassesOver};
ghost use Rattle.log_source.specs.Handing.{HandsOnMore};

use audit_base::faults::NoMemory;
use audit_base::records::LogRecord;

/// What is handed the records of a log in order, one by one,
/// so that nothing of the log need be kept but what the collector keeps.
/// Its meaning is the lists of records that it may have been handed so far.
///
/// A reader asks `wants` before it makes a record. A record that is not wanted is only tested,
/// and handed on by `pass_over`; it still has its place. There may be at most 4,294,967,294
/// records before each, which those of a log of `LONGEST_READ` bytes never reach:
/// each has at least nine of the bytes.
pub trait Collector: Drop {
    type Entry: LogRecord;

    // The collector has been handed exactly these records.
    ghost has_taken: { Self → List Self.Entry → Type 0 };

    // It looks at the records of this symbol.
    ghost wants: { Self → List ℕ → Bool };

    /// Hands on the next record. A collector that has answered `NoMemory` is given up:
    /// nothing is known of it afterwards.
    fn take(&mut self, entry: Self::Entry) -> Result<(), NoMemory>
        requires { HasPlace has_taken self.old }
        ensures { OnOk result
            (HandsOnMore (has_taken self.old) (has_taken self.new) (entry ∷ [])) };

    /// Whether it looks at the records of the symbol.
    fn wants(&self, symbol: &[u8]) -> bool
        ensures { result ≡ wants self.now symbol.now };

    /// Hands on that the next record is of a symbol whose records it does not look at.
    fn pass_over(&mut self)
        requires { HasPlace has_taken self.old }
        ensures { PassesOver Self.Entry.symbol_of (wants self.old)
            (has_taken self.old) (has_taken self.new) };

    /// How many records it has been handed.
    fn count(&self) -> u32
        requires { HasPlace has_taken self.now }
        ensures { (entries : List Self.Entry) → has_taken self.now entries
            → result ≡ length entries };
}

/// A list keeps all records.
impl<R: LogRecord> Collector for Vec<R> {
    ghost use Rattle.std.specs.Prelude.{◌≡◌, true};

    type Entry = R;

    ghost has_taken = { λ kept entries. kept.items ≡ entries };

    ghost wants = { λ kept symbol. true };

    fn take(&mut self, entry: R) -> Result<(), NoMemory> {
        self.push(entry)?;
        Ok(())
    }

    fn wants(&self, _symbol: &[u8]) -> bool {
        true
    }

    fn pass_over(&mut self) {}

    fn count(&self) -> u32 {
        self.len() as u32
    }
}
