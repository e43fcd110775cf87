//! A shelf that remembers under which name it last started each log.
ghost use Rattle.std.specs.Prelude.{◌≡◌, ℕ, List};
ghost use Rattle.audit_base.specs.declared.terms.Which.{Which};

use audit_base::terms::Which;
use log_source::shelf::{Failed, Shelf, StartFault};
use std::alloc::Global;

/// A shelf that is asked in the place of another, and remembers the names. To contracts it is
/// that shelf.
#[derive(Drop)]
pub struct NotedShelf<F> {
    shelf: F,
    orders: Option<String>,
    trades: Option<String>,
    alloc: Global,
}

impl<F: Shelf> NotedShelf<F> {
    /// The shelf with no name remembered. What is known of it, what it has and what it has
    /// started are those of the shelf. Takes no memory.
    pub fn new(alloc: Global, shelf: F) -> NotedShelf<F>
        ensures tells { ⟦<NotedShelf<F> as Shelf>⟧.tells result ≡ F.tells shelf }
        ensures logs { (which : Which) (name : List ℕ) →
            ⟦<NotedShelf<F> as Shelf>⟧.log_of result which name ≡ F.log_of shelf which name }
        ensures slots { (which : Which) →
            ⟦<NotedShelf<F> as Shelf>⟧.slot result which ≡ F.slot shelf which }
    {
        NotedShelf {
            shelf,
            orders: None,
            trades: None,
            alloc,
        }
    }

    /// The name under which a log was last started, if there was memory for it.
    pub fn name_of(&self, which: Which) -> Option<&String> {
        match which {
            Which::Orders => self.orders.as_ref(),
            Which::Trades => self.trades.as_ref(),
        }
    }
}

impl<F: Shelf> Shelf for NotedShelf<F> {
    ghost tells = { λ noted. F.tells noted.shelf };

    ghost log_of = { λ noted. F.log_of noted.shelf };

    ghost slot = { λ noted. F.slot noted.shelf };

    fn start(&mut self, which: Which, name: &str) -> Result<(), StartFault> {
        let noted = String::from_str(self.alloc, name).ok();
        match which {
            Which::Orders => self.orders = noted,
            Which::Trades => self.trades = noted,
        }
        self.shelf.start(which, name)
    }

    fn read(&mut self, which: Which, buf: &mut [u8]) -> Result<usize, Failed> {
        self.shelf.read(which, buf)
    }
}
