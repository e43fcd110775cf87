//! How often each kind is there. A kind is a text: how one message or record is counted.
ghost use Rattle.std.specs.Prelude.{◌≡◌, ◌+◌, ◌-◌, ◌<◌, ◌^◌, ◌∷◌, ◌++◌, [], OnOk, false, length, slice_index, slice_index_or, slice_set};
ghost use Rattle.std.specs.List.{list_any};
ghost use Rattle.audit_base.specs.Orders.{same_name};
ghost use Rattle.log_source.specs.Collectors.{HasPlace};
ghost use Rattle.log_source.specs.Handing.{HandsOnMore};
ghost use Rattle.log_contents.specs.Counts.{HasCounted, kinds_counted};

use audit_base::faults::NoMemory;
use indexmap::IndexSet;
use seeded_hash::seed::HashSeed;
use std::alloc::Global;

/// Kinds in the order in which each was counted first, and how often each was. A kind is found
/// by its hash, which begins with a seed, so that nobody can choose kinds that hash alike. The
/// text of each kind is kept once, whatever its length.
#[derive(Drop)]
pub struct KindCounts {
    alloc: Global,
    kinds: IndexSet<Vec<u8>, HashSeed>,
    /// How often each of the kinds was counted.
    counts: Vec<u32>,
}

impl KindCounts {
    /// No kinds, to be found by hashes of this seed. Takes no memory.
    pub fn new(alloc: Global, seed: HashSeed) -> KindCounts
        ensures { HasCounted result [] }
    {
        KindCounts {
            alloc,
            kinds: IndexSet::with_hasher(alloc, seed),
            counts: Vec::new(alloc),
        }
    }

    /// Counts the kind at this index once more.
    fn count_again(&mut self, index: usize)
        requires inside { index < length self.old.counts.items }
        requires room { slice_index self.old.counts.items index < 2 ^ 32 - 1 }
        ensures kinds { self.new.kinds ≡ self.old.kinds }
        ensures counts { self.new.counts.items ≡ slice_set self.old.counts.items index
            (slice_index self.old.counts.items index + 1) }
    {
        self.counts[index] += 1;
    }

    /// Counts a kind for the first time.
    fn count_first(&mut self, kind: &[u8]) -> Result<(), NoMemory>
        requires { list_any (same_name kind.now) (kinds_counted self.old) ≡ false }
        ensures kinds { OnOk result
            (kinds_counted self.new ≡ kinds_counted self.old ++ kind.now ∷ []) }
        ensures counts { OnOk result
            (self.new.counts.items ≡ self.old.counts.items ++ 1 ∷ []) }
    {
        let mut text = Vec::with_capacity(self.alloc, kind.len())?;
        text.extend_from_slice(kind)?;
        self.kinds.insert_full(text)?;
        self.counts.push(1)?;
        Ok(())
    }

    /// Counts one more of this kind. After `NoMemory` nothing is known of the counts.
    pub fn count(&mut self, kind: &[u8]) -> Result<(), NoMemory>
        requires { HasPlace HasCounted self.old }
        ensures { OnOk result
            (HandsOnMore (HasCounted self.old) (HasCounted self.new) (kind.now ∷ [])) }
    {
        match self.kinds.get_index_of(kind) {
            Some(index) => {
                self.count_again(index);
                Ok(())
            }
            None => self.count_first(kind),
        }
    }

    /// The kind at an index, in the order in which each was counted first; none has no bytes.
    pub fn kind_at(&self, index: usize) -> &[u8]
        ensures { result.now ≡ slice_index_or (kinds_counted self.now) index [] }
    {
        match self.kinds.get_index(index) {
            Some(kind) => kind.as_slice(),
            None => &[],
        }
    }

    /// How often the kind at an index was counted.
    pub fn count_at(&self, index: usize) -> u32
        ensures { result ≡ slice_index_or self.now.counts.items index 0 }
    {
        match self.counts.get(index) {
            Some(count) => *count,
            None => 0,
        }
    }

    /// How many kinds there are.
    pub fn len(&self) -> usize
        ensures { result ≡ length (kinds_counted self.now) }
    {
        self.kinds.len()
    }
}
