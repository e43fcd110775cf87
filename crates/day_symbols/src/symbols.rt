//! The symbols that were met so far, each once.
ghost use Rattle.std.specs.Prelude.{◌≡◌, ◌∷◌, ◌++◌, [], ℕ, List, OnErr, OnOk, IfOk, Some, ◌==◌, length, option_map, position, slice_get};
ghost use Rattle.audit_base.specs.Orders.{same_name};
ghost use Rattle.day_symbols.specs.Symbols.{distinct_names};

use audit_base::faults::NoMemory;
use audit_base::names::Name;
use indexmap::IndexSet;
use seeded_hash::seed::HashSeed;
use std::alloc::Global;
use std::marker::Model;

/// Symbols in the order in which each was met first. Contracts see their list. A symbol is
/// found by its hash, which begins with a seed, so that nobody can choose symbols that hash
/// alike.
#[derive(Drop)]
pub struct Symbols {
    names: IndexSet<Name, HashSeed>,
}

impl Model for Symbols {
    ghost use Rattle.std.specs.Prelude.{ℕ, List};
    ghost use Rattle.indexmap.specs.IndexSet.{keys};

    ghost Value = { List (List ℕ) };

    ghost view = { λ symbols. symbols.names.keys };
}

impl Symbols {
    /// No symbols, to be found by hashes of this seed. Takes no memory.
    pub fn new(alloc: Global, seed: HashSeed) -> Symbols
        ensures { result ≡ [] }
    {
        Symbols {
            names: IndexSet::with_hasher(alloc, seed),
        }
    }

    /// How many there are.
    pub fn len(&self) -> usize
        ensures { result ≡ length self.now }
    {
        self.names.len()
    }

    /// Whether there is none.
    pub fn is_empty(&self) -> bool
        ensures { result ≡ (length self.now == 0) }
    {
        self.names.is_empty()
    }

    /// Meets a symbol, and gives its index. Where it was met before nothing changes. After
    /// `NoMemory` the symbols are as they were.
    pub fn meet(&mut self, symbol: &Name) -> Result<usize, NoMemory>
        ensures meets { (names : List (List ℕ)) → self.old ≡ distinct_names names
            → OnOk result (self.new ≡ distinct_names (names ++ symbol.now ∷ [])) }
        ensures index { IfOk result (λ at. slice_get self.new at ≡ Some symbol.now) }
        ensures kept { OnErr result (self.new ≡ self.old) }
    {
        let (index, _) = self.names.insert_full(*symbol)?;
        Ok(index)
    }

    /// The index of a symbol, if it was met.
    pub fn find(&self, symbol: &Name) -> Option<usize>
        ensures { result ≡ position (same_name symbol.now) self.now }
    {
        self.names.get_index_of(symbol)
    }

    /// The symbol at an index.
    pub fn at(&self, index: usize) -> Option<&Name>
        ensures { option_map (λ name. name.now) result ≡ slice_get self.now index }
    {
        self.names.get_index(index)
    }
}
