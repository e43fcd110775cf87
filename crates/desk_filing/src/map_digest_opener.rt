//! An opener of databases in memory, which fails at chosen calls.
ghost use Rattle.std.specs.Prelude.{◌≡◌, IfOk, Some};
ghost use Rattle.digest_keeper.specs.KeptCases.{KeptLabelsDiffer};
ghost use Rattle.digest_keeper.specs.MemoryKeepers.{memory_keeper_state};
ghost use Rattle.log_source.specs.Calls as calls;

use crate::opener::{DigestOpener, MissingDatabase};
use audit_base::faults::NoMemory;
use case_keeper::keeper::KeepFault;
use digest_keeper::digested::KeptCase;
use digest_keeper::map_digest_keeper::MapDigestKeeper;
use std::alloc::Global;

/// An opener in memory, which has under every path a database of one and the same case, or none.
/// Its calls are counted from 1; those whose numbers are in `fails` fail and are counted as
/// faults. So do the calls of each keeper that it opens whose numbers are in `keeper_fails`.
#[derive(Drop)]
pub struct MapDigestOpener {
    kept: Option<KeptCase>,
    fails: Vec<u32>,
    keeper_fails: Vec<u32>,
    calls: u64,
    faults: u64,
    alloc: Global,
}

/// Whether the call of this number is to fail.
fn is_listed(number: u64, fails: &[u32]) -> bool
    ensures { result ≡ calls.is_failing_number number fails.now }
{
    fails.iter().any(|fail| u64::from(*fail) == number)
}

/// A keeper that has these cases on file, and fails at these calls.
fn keeper_of(alloc: Global, kept: &[KeptCase], fails: &[u32]) -> Result<MapDigestKeeper, NoMemory>
    requires { KeptLabelsDiffer kept.now }
    ensures { IfOk result (λ keeper.
        memory_keeper_state keeper ≡ record { kept = Some kept.now; faults = 0 }) }
{
    let kept = Vec::from_slice(alloc, kept)?;
    let fails = Vec::from_slice(alloc, fails)?;
    Ok(MapDigestKeeper::holding(alloc, kept, fails))
}

impl MapDigestOpener {
    ghost use Rattle.desk_filing.specs.MemoryOpeners.{memory_opener_state, memory_state};

    /// An opener that has made no call, over a database with this case, or over none.
    pub fn new(
        alloc: Global,
        kept: Option<KeptCase>,
        fails: Vec<u32>,
        keeper_fails: Vec<u32>,
    ) -> MapDigestOpener
        ensures { memory_opener_state result ≡ memory_state kept 0 }
    {
        MapDigestOpener {
            kept,
            fails,
            keeper_fails,
            calls: 0,
            faults: 0,
            alloc,
        }
    }
}

impl DigestOpener for MapDigestOpener {
    ghost use Rattle.desk_filing.specs.MemoryOpeners.{memory_opener_state};

    type Book = MapDigestKeeper;

    ghost state = { memory_opener_state };

    fn open(
        &mut self,
        _path: &str,
        missing: MissingDatabase,
    ) -> Result<MapDigestKeeper, KeepFault> {
        self.calls = self.calls.saturating_add(1);
        if is_listed(self.calls, &self.fails) {
            self.faults = self.faults.saturating_add(1);
            return Err(KeepFault::Failed);
        }
        match self.kept {
            Some(kept) => Ok(keeper_of(self.alloc, &[kept], &self.keeper_fails)?),
            None => match missing {
                MissingDatabase::Make => Ok(keeper_of(self.alloc, &[], &self.keeper_fails)?),
                MissingDatabase::Refuse => Err(KeepFault::Failed),
            },
        }
    }
}
