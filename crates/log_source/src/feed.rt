//! A feed: what is handed a log piece by piece and keeps what it needs of it.
ghost use Rattle.std.specs.Prelude.{ℕ, List, OnOk};
ghost use Rattle.log_source.specs.Feeds.{HasRoom};
ghost use Rattle.log_source.specs.Handing.{HandsOnMore};

use audit_base::faults::NoMemory;

/// What is handed a log piece by piece. Its meaning is the lists of bytes that it stands for, those
/// that it may have been handed so far.
pub trait Feed {
    // The feed has been handed these bytes, however they were cut.
    ghost stands_for: { Self → List ℕ → Type 0 };

    /// Hands on the next piece. All pieces together have at most `LONGEST_READ` bytes.
    /// A feed that has answered `NoMemory` is given up: nothing is known of it afterwards.
    fn feed(&mut self, piece: &[u8]) -> Result<(), NoMemory>
        requires { HasRoom stands_for self.old piece.now }
        ensures { OnOk result (HandsOnMore (stands_for self.old) (stands_for self.new) piece.now) };
}
