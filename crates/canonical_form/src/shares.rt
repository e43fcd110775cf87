//! What pairs of a bid and an ask trade.
ghost use Rattle.std.specs.Prelude.{◌≡◌, ◌<◌, ◌≤◌, ◌+◌, ◌++◌, ◌^◌, [], ◌∷◌, All, IfOk, OnOk, IsSorted, length};
ghost use Rattle.canonical_form.specs.Parts.{AreMergedShares, IsPartOfDeal, next_share, part_cmp, share_of_part, finished_shares};
ghost use Rattle.canonical_form.specs.Shares.{AreShares};

use super::parts::{DealPart, sort_parts};
use audit_base::faults::NoMemory;
use audit_base::orders::Deal;
use std::alloc::Global;

/// What a bid and an ask trade with each other, by their indices in the order list.
#[derive(Clone, Copy, Debug, PartialEq, Eq, Drop)]
pub struct Share {
    pub bid: usize,
    pub ask: usize,
    pub quantity: u128,
}

/// The share that one part makes.
fn share_of_part(part: DealPart) -> Share
    ensures { result ≡ share_of_part part }
{
    Share {
        bid: part.bid,
        ask: part.ask,
        quantity: part.quantity as u128,
    }
}

/// Adds a share after the others.
fn push_share(shares: &mut Vec<Share>, share: Share) -> Result<(), NoMemory>
    ensures { OnOk result (shares.new.items ≡ shares.old.items ++ share ∷ []) }
{
    shares.push(share)?;
    Ok(())
}

/// The share that is made after a part: the one so far, if the part is of its pair, or else the
/// next one. The one so far is then added to the finished ones.
fn merge_part(shares: &mut Vec<Share>, share: Share, part: DealPart) -> Result<Share, NoMemory>
    requires fits { share.quantity + part.quantity < 2 ^ 128 }
    ensures next { IfOk result (λ next. next ≡ next_share share part) }
    ensures finished { OnOk result (shares.new.items
        ≡ finished_shares shares.old.items share part) }
{
    if share.bid == part.bid && share.ask == part.ask {
        return Ok(Share {
            quantity: share.quantity + part.quantity as u128,
            ..share
        });
    }
    push_share(shares, share)?;
    Ok(share_of_part(part))
}

/// One share for all parts of a pair.
fn merge_parts(alloc: Global, parts: &[DealPart]) -> Result<Vec<Share>, NoMemory>
    requires fits_indices { length parts.now < 2 ^ 32 }
    requires each { All IsPartOfDeal parts.now }
    requires sorted { IsSorted part_cmp parts.now }
    ensures { IfOk result (λ shares. AreMergedShares parts.now shares.items) }
{
    let mut shares = Vec::new(alloc);
    if parts.is_empty() {
        return Ok(shares);
    }
    let mut share = share_of_part(parts[0]);
    for at in 1..parts.len() {
        share = merge_part(&mut shares, share, parts[at])?;
    }
    push_share(&mut shares, share)?;
    Ok(shares)
}

/// What each pair of a bid and an ask trades in the deals: one share for each pair that trades,
/// in order of the bid, then of the ask. Two lists of deals that trade the same with each pair
/// give the same shares.
pub fn canonical(alloc: Global, deals: &[Deal]) -> Result<Vec<Share>, NoMemory>
    requires fits_indices { length deals.now < 2 ^ 32 }
    ensures { IfOk result (λ shares. AreShares deals.now shares.items) }
{
    let parts = sort_parts(alloc, deals)?;
    merge_parts(alloc, &parts)
}
