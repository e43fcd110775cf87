//! A shelf that takes the digest of each log while it is read.
//!
//! What reads two logs of a shelf asks this one in its place, and reads them as they are. So the
//! digests are those of the very bytes that were judged, and no log is read twice.
ghost use Rattle.std.specs.Prelude.{◌≡◌, ℕ, List, true};
ghost use Rattle.audit_base.specs.declared.terms.Which.{Which};
ghost use Rattle.log_digests.specs.Digests.{digest_of};
ghost use Rattle.log_digests.specs.DigestShelves.{name_of_log};
ghost use Rattle.log_source.specs.Sources.{with_account};

use crate::digests::LogDigest;
use crate::feeds::DigestFeed;
use audit_base::terms::Which;
use log_source::shelf::{Failed, Shelf, StartFault};

/// Two logs of a shelf, one in each slot under every name, with the hash of what was read of
/// each since it was started. To contracts it is the shelf below, which finds under every name
/// the log of the slot's own, and whose slots keep account of the bytes that they gave: those that
/// the hash may be of. It takes no memory.
#[derive(Drop)]
pub struct DigestShelf<'a, F: Shelf> {
    shelf: F,
    orders_name: &'a str,
    trades_name: &'a str,
    orders: DigestFeed,
    trades: DigestFeed,
}

impl<'a, F: Shelf> DigestShelf<'a, F> {
    /// The logs of these names of a shelf.
    pub fn over(shelf: F, orders: &'a str, trades: &'a str) -> DigestShelf<'a, F>
        ensures tells { ⟦<DigestShelf<'a, F> as Shelf>⟧.tells result ≡ F.tells shelf }
        ensures logs { (which : Which) (name : List ℕ) →
            ⟦<DigestShelf<'a, F> as Shelf>⟧.log_of result which name
            ≡ F.log_of shelf which (name_of_log orders.now trades.now which) }
        ensures slots { let slot = ⟦<DigestShelf<'a, F> as Shelf>⟧.slot result in
            (which : Which) → slot which ≡ with_account (F.slot shelf which) (slot which).gave }
    {
        DigestShelf {
            shelf,
            orders_name: orders,
            trades_name: trades,
            orders: DigestFeed::new(),
            trades: DigestFeed::new(),
        }
    }

    /// The digest of what was read of a log since it was last started.
    pub fn digest(&self, which: Which) -> LogDigest
        ensures { (bytes : List ℕ) →
            (⟦<DigestShelf<'a, F> as Shelf>⟧.slot self.now which).gave bytes ≡ true
            → result ≡ digest_of bytes }
    {
        match which {
            Which::Orders => self.orders.digest_so_far(),
            Which::Trades => self.trades.digest_so_far(),
        }
    }

    /// The shelf below, as the reading of its logs left it.
    pub fn into_shelf(self) -> F
        ensures { let slot = ⟦<DigestShelf<'a, F> as Shelf>⟧.slot self.entry in
            (which : Which) → slot which ≡ with_account (F.slot result which) (slot which).gave }
    {
        self.shelf
    }
}

impl<'a, F: Shelf> Shelf for DigestShelf<'a, F> {
    ghost use Rattle.log_digests.specs.DigestShelves.{digested_slot, feed_of_log, name_of_log};

    ghost tells = { λ taking. F.tells taking.shelf };

    ghost log_of = { λ taking which name. F.log_of taking.shelf which
        (name_of_log taking.orders_name.now taking.trades_name.now which) };

    ghost slot = { λ taking which. digested_slot (F.slot taking.shelf which)
        (feed_of_log taking.orders taking.trades which) };

    fn start(&mut self, which: Which, _name: &str) -> Result<(), StartFault> {
        match which {
            Which::Orders => {
                self.orders = DigestFeed::new();
                self.shelf.start(which, self.orders_name)
            }
            Which::Trades => {
                self.trades = DigestFeed::new();
                self.shelf.start(which, self.trades_name)
            }
        }
    }

    fn read(&mut self, which: Which, buf: &mut [u8]) -> Result<usize, Failed> {
        let count = self.shelf.read(which, buf)?;
        match which {
            Which::Orders => self.orders.take(&buf[..count]),
            Which::Trades => self.trades.take(&buf[..count]),
        }
        Ok(count)
    }
}
