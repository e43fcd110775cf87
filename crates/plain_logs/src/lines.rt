//! The taker that writes each body as a line of a FIX log.
ghost use Rattle.std.specs.Prelude.{◌≡◌, [], ℕ};

use audit_base::faults::NoMemory;
use audit_base::sizes::LONGEST_BODY;
use fix_days::bodies::Bodies;
use fix_framing::writing::write_frame;
use std::alloc::Global;
use std::marker::{Brand, PhantomData};

/// How many bodies a feed had handed on before its taker was put in place, for proofs alone. A feed
/// of any taker can say of one only which bodies it has been handed, so the type of a taker says
/// this. Whoever hands on a piece picks the number, at `Brand`, and nothing of it is there when the
/// program runs.
pub(crate) trait SkippedGhost {
    ghost skipped: { ℕ };
}

impl SkippedGhost for Brand {
    ghost skipped = { 0 };
}

/// The messages of FIX 4.4 with the bodies that were handed on behind those that were skipped, one
/// on a line.
#[derive(Drop)]
pub(crate) struct PlainLines<W> {
    alloc: Global,
    /// The text of the lines.
    pub(crate) text: Vec<u8>,
    of: PhantomData<W>,
}

impl<W: SkippedGhost> PlainLines<W> {
    /// No lines, in the memory of this text, which is lost.
    pub(crate) fn in_memory_of(alloc: Global, mut text: Vec<u8>) -> Self
        ensures { result.text.items ≡ [] }
    {
        text.clear();
        PlainLines {
            alloc,
            text,
            of: PhantomData,
        }
    }
}

impl<W: SkippedGhost> Bodies for PlainLines<W> {
    ghost use Rattle.plain_logs.specs.PlainTexts.{IsTextBehind};

    ghost has_taken = { λ lines bodies. IsTextBehind W.skipped bodies lines.text.items };

    fn take(&mut self, body: &[u8]) -> Result<(), NoMemory> {
        // No message that is read has a longer body.
        if body.len() > LONGEST_BODY {
            return Ok(());
        }
        write_frame(self.alloc, body, &mut self.text)?;
        self.text.push(b'\n')?;
        Ok(())
    }
}
