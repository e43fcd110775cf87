//! A taker of bodies: what is handed the bodies of a day's messages one after another.
ghost use Rattle.std.specs.Prelude.{[], ◌∷◌, ℕ, List, OnOk};
ghost use Rattle.log_source.specs.Handing.{HandsOnMore};

use audit_base::faults::NoMemory;

/// What is handed the bodies of messages in order, one by one, so that nothing of a day need be
/// kept but what the taker keeps. A body is what is between BodyLength (9) and CheckSum (10).
pub trait Bodies: Drop {
    // The taker has been handed exactly these bodies.
    ghost has_taken: { Self → List (List ℕ) → Type 0 };

    /// Hands on the next body. A taker that has answered `NoMemory` is given up: nothing is known
    /// of it afterwards.
    fn take(&mut self, body: &[u8]) -> Result<(), NoMemory>
        ensures { OnOk result
            (HandsOnMore (has_taken self.old) (has_taken self.new) (body.now ∷ [])) };
}
