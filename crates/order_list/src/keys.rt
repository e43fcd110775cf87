//! The keys of a history: what each of them names, and which key has a number.
//!
//! A key is kept as the pair of its firm and its id where the two are short, and only a
//! longer key as it is.
ghost use Rattle.std.specs.Prelude.{◌≡◌, ◌≤◌, [], true, false, None, IfOk, OnOk, length, slice_get, vec_capacity};
ghost use Rattle.audit_base.specs.declared.names.Key.{Key};
ghost use Rattle.indexmap.specs.IndexMap.{keys as keys_of_map};
ghost use Rattle.order_list.specs.declared.keys.KeyNumber.{KeyNumber as KeyNumberSpec};
ghost use Rattle.order_list.specs.Keys.{index_on, record_seen_in, name_from, key_of_pair, no_key, key_in, listed_key, short_key, long_key};
ghost use Rattle.order_list.specs.Keys.{AddsKey, AddsNumber, PutsKey, kept_in};

use super::kept_seen::{KeptSeen, seen_of};
use audit_base::faults::NoMemory;
use audit_base::names::{Key, Name, is_name, name_of};
use audit_base::terms::Side;
use indexmap::IndexMap;
use seeded_hash::blocks::BlockSeed;
use seeded_hash::seed::HashSeed;
use seeded_hash::short_pairs::ShortPair;
use std::alloc::Global;

/// From so many short keys on, what finds them is given up where it is not needed any more. Below
/// it the copy of the keys costs more time than the memory is worth.
const MANY_KEYS: usize = 131_072;

/// What a key names.
#[derive(Clone, Copy)]
pub struct SeenRecord {
    /// The number of its record in the log.
    pub place: u32,
    /// The side of a new order or a replacement. It is kept here so that a trade's order, which
    /// lies far away, is not looked at for its side.
    pub side: Option<Side>,
    /// Its index in the order list, where it is a new order or a replacement.
    pub index: Option<u32>,
}

impl SeenRecord {
    /// The index in the order list, if it is an order of the side.
    pub fn index_on(self, side: Side) -> Option<u32>
        ensures { result ≡ index_on side self }
    {
        if self.side? == side { self.index } else { None }
    }
}

/// Where a key is: its index in the map of the short keys or of the others.
#[derive(Clone, Copy, Debug)]
pub struct KeyNumber {
    pub index: u32,
    pub is_short: bool,
}

/// What a key named before it was added, and its number.
#[derive(Clone, Copy)]
pub struct AddedKey {
    pub earlier: Option<SeenRecord>,
    pub number: KeyNumber,
}

/// What was kept of a key before it was put in, and its number.
#[derive(Clone, Copy)]
struct PutKey {
    earlier: Option<KeptSeen>,
    number: KeyNumber,
}

/// What the keys of the records so far name.
#[derive(Drop)]
pub struct Keys {
    short: IndexMap<ShortPair, KeptSeen, BlockSeed>,
    /// The keys that are not short.
    long: IndexMap<Key, KeptSeen, HashSeed>,
    /// The short keys, once they are kept for their numbers alone.
    listed: Vec<ShortPair>,
}

/// A text as a name; where it is none, `?`.
fn name_from(text: &[u8]) -> Name
    ensures { result ≡ name_from text.now }
{
    if is_name(text) {
        name_of(text)
    } else {
        name_of(b"?")
    }
}

/// The key that a pair of texts is of.
fn key_of_pair(pair: &ShortPair) -> Key
    ensures { result ≡ key_of_pair pair.now }
{
    Key {
        firm: name_from(pair.first()),
        id: name_from(pair.second()),
    }
}

/// What is given where no key has a number.
fn no_key() -> Key
    ensures { result ≡ no_key }
{
    Key {
        firm: name_of(b"?"),
        id: name_of(b"?"),
    }
}

/// The keys of a map in their order, in a vector that has room for them. The memory of the map is
/// given back.
fn keys_in_order(
    map: IndexMap<ShortPair, KeptSeen, BlockSeed>,
    room: Vec<ShortPair>,
) -> Vec<ShortPair>
    requires empty { room.items ≡ [] }
    requires room { length map.entries ≤ vec_capacity room }
    ensures { result.items ≡ keys_of_map map }
{
    let mut listed = room;
    for pair in map.into_keys() {
        listed.push_reserved(pair);
    }
    listed
}

/// An index of a map as it is kept. A map has no more keys than a log has records, so it fits.
fn kept_index(index: usize) -> Result<u32, NoMemory>
    ensures { IfOk result (λ kept. kept ≡ index) }
{
    match u32::try_from(index) {
        Ok(kept) => Ok(kept),
        Err(_) => Err(NoMemory),
    }
}

/// The number of a short key, by its index.
fn short_number(index: u32) -> KeyNumber
    ensures { result ≡ record { index = index; is_short = true } }
{
    KeyNumber {
        index,
        is_short: true,
    }
}

/// The number of a longer key, by its index.
fn long_number(index: u32) -> KeyNumber
    ensures { result ≡ record { index = index; is_short = false } }
{
    KeyNumber {
        index,
        is_short: false,
    }
}

impl Keys {
    /// No keys.
    pub fn new(alloc: Global, seed: HashSeed) -> Keys
        ensures { (key : Key) → record_seen_in result key ≡ None }
    {
        Keys {
            short: IndexMap::with_hasher(alloc, BlockSeed::of(seed)),
            long: IndexMap::with_hasher(alloc, seed),
            listed: Vec::new(alloc),
        }
    }

    /// The same keys with the same numbers. Where there are many, they are not found by their names
    /// any more, and the memory of what finds them is given back. Where there is no memory for the
    /// copy, all stays.
    pub fn for_numbers(self) -> Keys
        ensures { (number : KeyNumberSpec) → key_in result number ≡ key_in self number }
    {
        if self.short.len() < MANY_KEYS || !self.listed.is_empty() {
            return self;
        }
        let alloc = *self.short.allocator();
        let Ok(room) = Vec::with_capacity(alloc, self.short.len()) else {
            return self;
        };
        let seed = *self.short.hasher();
        let Keys { short, long, .. } = self;
        Keys {
            short: IndexMap::with_hasher(alloc, seed),
            long,
            listed: keys_in_order(short, room),
        }
    }

    /// What is kept of the key of this firm and this id, if a record has it. A key is a copy of
    /// both names, which only a long one needs.
    fn kept(&self, firm: &Name, id: &Name) -> Option<KeptSeen>
        ensures { result ≡ kept_in self.now (record { firm = firm.now; id = id.now }) }
    {
        match ShortPair::of(firm.bytes(), id.bytes()) {
            Some(short) => self.short.get(&short).copied(),
            None => {
                let key = Key {
                    firm: *firm,
                    id: *id,
                };
                self.long.get(&key).copied()
            }
        }
    }

    /// What the key of this firm and this id names, if a record has it.
    pub fn find(&self, firm: &Name, id: &Name) -> Option<SeenRecord>
        ensures { result ≡ record_seen_in self.now (record { firm = firm.now; id = id.now }) }
    {
        seen_of(self.kept(firm, id))
    }

    /// One more key, by what is kept of it.
    fn put(&mut self, key: &Key, kept: KeptSeen) -> Result<PutKey, NoMemory>
        ensures earlier { IfOk result (λ put. put.earlier ≡ kept_in self.old key.now) }
        ensures puts { OnOk result (PutsKey self.old self.new key.now kept) }
        ensures number { IfOk result (λ put. put.earlier ≡ None
            → AddsNumber self.old self.new key.now put.number) }
    {
        match ShortPair::of(key.firm.bytes(), key.id.bytes()) {
            Some(short) => {
                let number = short_number(kept_index(self.short.len())?);
                let earlier = self.short.insert(short, kept)?;
                Ok(PutKey { earlier, number })
            }
            None => {
                let number = long_number(kept_index(self.long.len())?);
                let earlier = self.long.insert(*key, kept)?;
                Ok(PutKey { earlier, number })
            }
        }
    }

    /// One more key: what it named before, and where nothing, its number. Where it named something,
    /// it names the new record now.
    pub fn add(&mut self, key: &Key, seen: SeenRecord) -> Result<AddedKey, NoMemory>
        ensures earlier { IfOk result (λ added. added.earlier ≡ record_seen_in self.old key.now) }
        ensures adds { OnOk result (AddsKey self.old self.new key.now seen) }
        ensures number { IfOk result (λ added. added.earlier ≡ None
            → AddsNumber self.old self.new key.now added.number) }
    {
        let kept = KeptSeen::of(seen)?;
        let put = self.put(key, kept)?;
        Ok(AddedKey {
            earlier: seen_of(put.earlier),
            number: put.number,
        })
    }

    /// The key that has a number.
    pub fn key_of(&self, number: KeyNumber) -> Key
        ensures { result ≡ key_in self.now number }
    {
        if number.is_short {
            self.short_key(number.index)
        } else {
            self.long_key(number.index)
        }
    }

    /// The short key at an index.
    fn short_key(&self, index: u32) -> Key
        ensures { let listed = slice_get self.now.listed.items index in
            result ≡ short_key listed (slice_get self.now.short.entries index) }
    {
        match self.short.get_index(index as usize) {
            Some((pair, _)) => key_of_pair(pair),
            None => self.listed_key(index),
        }
    }

    /// The short key at an index, where they are kept for their numbers alone.
    fn listed_key(&self, index: u32) -> Key
        ensures { result ≡ listed_key (slice_get self.now.listed.items index) }
    {
        match self.listed.get(index as usize) {
            Some(pair) => key_of_pair(pair),
            None => no_key(),
        }
    }

    /// The longer key at an index.
    fn long_key(&self, index: u32) -> Key
        ensures { result ≡ long_key (slice_get self.now.long.entries index) }
    {
        match self.long.get_index(index as usize) {
            Some((key, _)) => *key,
            None => no_key(),
        }
    }
}
