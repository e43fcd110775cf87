//! A shelf that is handed back with the logs that it was taken with.
//!
//! What reads a shelf of any kind leaves its logs as they were, as far as the shelf shows them. One
//! that stands before another and shows two logs of it alone would lose the rest. So the type of
//! this one says what all logs were.
ghost use Rattle.std.specs.Prelude.{◌≡◌, ℕ, Bool, false, List, Option, None};
ghost use Rattle.audit_base.specs.declared.terms.Which.{Which};

use audit_base::terms::Which;
use log_source::shelf::{Failed, Shelf, StartFault};
use std::marker::{Brand, PhantomData};

/// The logs of a shelf, for proofs alone. Whoever takes a shelf picks them, at `Brand`, and nothing
/// of them is there when the program runs.
pub trait ShelfGhost {
    // Whether the bytes of its logs are known.
    ghost tells: { Bool };

    // The bytes that a slot finds under a name, or nothing, where its logs are known.
    ghost log_of: { Which → List ℕ → Option (List ℕ) };
}

impl ShelfGhost for Brand {
    ghost tells = { false };

    ghost log_of = { λ which name. None };
}

/// A shelf that has these logs. To contracts it is the shelf below. It takes no memory.
#[derive(Drop)]
pub struct SameLogs<L: ShelfGhost, F: Shelf> {
    shelf: F,
    of: PhantomData<L>,
    ghost tells_stays: { F.tells shelf ≡ L.tells },
    ghost logs_stay: { (which : Which) (name : List ℕ) →
        F.log_of shelf which name ≡ L.log_of which name },
}

impl<L: ShelfGhost, F: Shelf> SameLogs<L, F> {
    /// The shelf, which has these logs now.
    pub fn of(shelf: F) -> SameLogs<L, F>
        requires tells { F.tells shelf ≡ L.tells }
        requires logs { (which : Which) (name : List ℕ) →
            F.log_of shelf which name ≡ L.log_of which name }
        ensures tells { ⟦<SameLogs<L, F> as Shelf>⟧.tells result ≡ F.tells shelf }
        ensures logs { (which : Which) (name : List ℕ) →
            ⟦<SameLogs<L, F> as Shelf>⟧.log_of result which name ≡ F.log_of shelf which name }
        ensures slots { (which : Which) →
            ⟦<SameLogs<L, F> as Shelf>⟧.slot result which ≡ F.slot shelf which }
    {
        SameLogs {
            shelf,
            of: PhantomData,
        }
    }

    /// The shelf below, which still has these logs.
    pub fn into_shelf(self) -> F
        ensures tells { F.tells result ≡ L.tells }
        ensures logs { (which : Which) (name : List ℕ) →
            F.log_of result which name ≡ L.log_of which name }
        ensures slots { (which : Which) →
            F.slot result which ≡ ⟦<SameLogs<L, F> as Shelf>⟧.slot self which }
    {
        self.shelf
    }
}

impl<L: ShelfGhost, F: Shelf> Shelf for SameLogs<L, F> {
    ghost tells = { λ same. F.tells same.shelf };

    ghost log_of = { λ same. F.log_of same.shelf };

    ghost slot = { λ same. F.slot same.shelf };

    fn start(&mut self, which: Which, name: &str) -> Result<(), StartFault> {
        self.shelf.start(which, name)
    }

    fn read(&mut self, which: Which, buf: &mut [u8]) -> Result<usize, Failed> {
        self.shelf.read(which, buf)
    }
}
