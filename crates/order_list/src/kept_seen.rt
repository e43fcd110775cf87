//! What a key names, in 8 bytes.
//!
//! The index and the side stand in one number of 32 bits: four times the index, and 1 for a bid, 2
//! for an ask. So an index has 30 bits. No log has so many orders: its reading ends at 2^35 bytes,
//! and an order takes more than 32.
ghost use Rattle.std.specs.Prelude.{◌≡◌, ◌<◌, ◌≤◌, option_map, IfOk};
ghost use Rattle.order_list.specs.KeptSeen as spec;

use super::keys::SeenRecord;
use audit_base::faults::NoMemory;
use audit_base::terms::Side;

/// The number that means no index.
const NO_INDEX: u32 = 1_073_741_823;

/// What a key names, as it is kept.
#[derive(Clone, Copy)]
pub struct KeptSeen {
    place: u32,
    /// Four times the index, and the number of the side.
    order: u32,
}

const _: () = prove!(size_of::<KeptSeen>() == 8);

/// The number of a side.
fn side_number(side: Option<Side>) -> u32
    ensures same { result ≡ spec.side_number side }
    ensures small { result ≤ 2 }
{
    match side {
        None => 0,
        Some(Side::Buy) => 1,
        Some(Side::Sell) => 2,
    }
}

/// The side that has a number.
fn side_from(number: u32) -> Option<Side>
    ensures { result ≡ spec.side_from number }
{
    if number == 0 {
        None
    } else if number == 1 {
        Some(Side::Buy)
    } else {
        Some(Side::Sell)
    }
}

/// An index as it is kept.
fn index_number(index: Option<u32>) -> Result<u32, NoMemory>
    ensures same { IfOk result (λ number. spec.index_from number ≡ index) }
    ensures small { IfOk result (λ number. number ≤ 1073741823) }
{
    match index {
        None => Ok(NO_INDEX),
        Some(index) => {
            if index < NO_INDEX {
                Ok(index)
            } else {
                Err(NoMemory)
            }
        }
    }
}

/// The index that is kept so.
fn index_from(number: u32) -> Option<u32>
    ensures { result ≡ spec.index_from number }
{
    if number < NO_INDEX {
        Some(number)
    } else {
        None
    }
}

/// What is kept, if it is there, as what it says.
pub(crate) fn seen_of(kept: Option<KeptSeen>) -> Option<SeenRecord>
    ensures { result ≡ option_map spec.seen_from kept }
{
    match kept {
        Some(kept) => Some(kept.seen()),
        None => None,
    }
}

impl KeptSeen {
    /// What is kept of this.
    pub(crate) fn of(seen: SeenRecord) -> Result<KeptSeen, NoMemory>
        ensures { IfOk result (λ kept. spec.seen_from kept ≡ seen) }
    {
        let index = index_number(seen.index)?;
        Ok(KeptSeen {
            place: seen.place,
            order: index * 4 + side_number(seen.side),
        })
    }

    /// What it says.
    fn seen(self) -> SeenRecord
        ensures { result ≡ spec.seen_from self }
    {
        SeenRecord {
            place: self.place,
            side: side_from(self.order % 4),
            index: index_from(self.order / 4),
        }
    }
}
