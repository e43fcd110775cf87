//! Trade ids that rise: each is greater than those before it, so none of them came before.
//!
//! Most exchanges number their trades upward. Such ids need no map: their bytes lie in one row, as
//! they came, and one that is asked for is found by halving.
ghost use Rattle.std.specs.Prelude.{◌≡◌, ◌∷◌, ◌++◌, [], true, drop, take, IfOk, OnOk, OnErr};
ghost use Rattle.matching_core.specs.IdOrder.{compare_ids, is_above_ids, rising_place_of_id};
ghost use Rattle.matching_core.specs.RisingIds.{id_text, ids_with_places, AreIdsInside};

use audit_base::faults::NoMemory;
use audit_base::names::Name;
use std::alloc::Global;
use std::cmp::Ordering;
use std::marker::Model;

/// Where the bytes of an id lie, and the place of its trade.
#[derive(Clone, Copy)]
struct RisingId {
    start: u32,
    place: u32,
    size: u8,
}

const _: () = prove!(size_of::<RisingId>() == 12);

/// A part of the bytes; where they end before it, what there is of it.
fn part(bytes: &[u8], start: usize, size: usize) -> &[u8]
    ensures { result.now ≡ take size (drop start bytes.now) }
{
    let start = start.min(bytes.len());
    let size = size.min(bytes.len() - start);
    &bytes[start..start + size]
}

/// Which of two ids comes first: the shorter, and of two of one length the one of
/// the smaller bytes.
fn compare_ids(a: &[u8], b: &[u8]) -> Ordering
    ensures { result ≡ compare_ids a.now b.now }
{
    match a.len().cmp(&b.len()) {
        Ordering::Equal => a.cmp(b),
        unequal => unequal,
    }
}

impl RisingId {
    /// The id, whose bytes lie among these.
    fn text<'a>(&self, bytes: &'a [u8]) -> &'a [u8]
        ensures { result.now ≡ id_text bytes.now self.now }
    {
        part(bytes, self.start as usize, self.size as usize)
    }
}

/// Where the bytes of an id begin, as it is kept. `NoMemory` where 32 bits do not hold it, which
/// only a log of more than 2^32 bytes can bring about.
fn kept_start(start: usize) -> Result<u32, NoMemory>
    ensures { IfOk result (λ kept. kept ≡ start) }
{
    match u32::try_from(start) {
        Ok(kept) => Ok(kept),
        Err(_) => Err(NoMemory),
    }
}

/// One id more, its bytes after those of the others.
fn append(
    bytes: &mut Vec<u8>,
    ids: &mut Vec<RisingId>,
    id: &Name,
    place: u32,
) -> Result<(), NoMemory>
    requires { AreIdsInside bytes.old.items ids.old.items }
    ensures inside { AreIdsInside bytes.new.items ids.new.items }
    ensures adds { OnOk result (ids_with_places bytes.new.items ids.new.items
        ≡ ids_with_places bytes.old.items ids.old.items ++ (id.now, place) ∷ []) }
    ensures stays { OnErr result (ids_with_places bytes.new.items ids.new.items
        ≡ ids_with_places bytes.old.items ids.old.items) }
{
    let text = id.bytes();
    let own = RisingId {
        start: kept_start(bytes.as_slice().len())?,
        place,
        size: text.len() as u8,
    };
    bytes.extend_from_slice(text)?;
    ids.push(own)?;
    Ok(())
}

/// Trade ids, each greater than those before it, with the places of their trades. Contracts see the
/// list of the pairs.
#[derive(Drop)]
pub(crate) struct RisingIds {
    bytes: Vec<u8>,
    ids: Vec<RisingId>,
}

impl Model for RisingIds {
    ghost use Rattle.std.specs.Prelude.{ℕ, List};

    ghost Value = { List (List ℕ × ℕ) };

    ghost use Rattle.matching_core.specs.RisingIds.{ids_with_places, HoldsRisingIds};

    ghost view = { λ r. ids_with_places r.bytes.items r.ids.items };

    ghost invariant = { λ r. HoldsRisingIds r.bytes.items r.ids.items };
}

impl RisingIds {
    /// No ids.
    pub fn new(alloc: Global) -> RisingIds
        ensures { result ≡ [] }
    {
        RisingIds {
            bytes: Vec::new(alloc),
            ids: Vec::new(alloc),
        }
    }

    /// Whether the id is greater than all that are here.
    pub fn are_below(&self, id: &Name) -> bool
        ensures { result ≡ is_above_ids self.now id.now }
    {
        match self.ids.last() {
            Some(last) => compare_ids(last.text(&self.bytes), id.bytes()) == Ordering::Less,
            None => true,
        }
    }

    /// The place of the trade with the id, if it is here.
    pub fn find(&self, id: &Name) -> Option<u32>
        ensures { result ≡ rising_place_of_id self.now id.now }
    {
        let bytes = self.bytes.as_slice();
        let text = id.bytes();
        let compared = |own: &RisingId| compare_ids(own.text(bytes), text);
        match self.ids.binary_search_by(compared) {
            Ok(index) => Some(self.ids[index].place),
            Err(_) => None,
        }
    }

    /// One more id, which is greater than all that are here.
    pub fn push(&mut self, id: &Name, place: u32) -> Result<(), NoMemory>
        requires { is_above_ids self.old id.now ≡ true }
        ensures adds { OnOk result (self.new ≡ self.old ++ (id.now, place) ∷ []) }
        ensures stays { OnErr result (self.new ≡ self.old) }
    {
        append(&mut self.bytes, &mut self.ids, id, place)
    }
}
