//! An opener of casebooks in memory, which fails at chosen calls.
ghost use Rattle.std.specs.Prelude.{◌≡◌, IfErr, is_err};
ghost use Rattle.log_source.specs.Calls as calls;

use super::opener::Opener;
use case_keeper::keeper::KeepFault;
use case_keeper::map_keeper::MapKeeper;
use std::alloc::Global;

/// An opener of casebooks in memory, each of which begins with no cases. Its calls are counted from
/// 1; those whose numbers are in `fails` fail and are counted as faults, and no others.
#[derive(Drop)]
pub struct MapOpener {
    fails: Vec<u32>,
    calls: u64,
    faults: u64,
    alloc: Global,
}

/// Whether the call of this number is to fail.
fn is_listed(number: u64, fails: &[u32]) -> bool
    ensures { result ≡ calls.is_failing_number number fails.now }
{
    fails.iter().any(|fail| u64::from(*fail) == number)
}

impl MapOpener {
    ghost use Rattle.case_run.specs.MapOpeners.{map_opener_state, openings_made, failing_openings};

    /// An opener that has made no call. Takes no memory.
    pub fn new(alloc: Global, fails: Vec<u32>) -> MapOpener
        ensures faults { (map_opener_state result).faults ≡ 0 }
        ensures calls { openings_made result ≡ 0 }
        ensures fails { failing_openings result ≡ fails.items }
    {
        MapOpener {
            fails,
            calls: 0,
            faults: 0,
            alloc,
        }
    }
}

impl Opener for MapOpener {
    ghost use Rattle.case_run.specs.MapOpeners.{map_opener_state, opening_fails, CountsOpening};
    ghost use Rattle.case_run.specs.Openers.{OpensCasebook};
    ghost use Rattle.case_keeper.specs.MapKeepers.{map_keeper_state};

    type Book = MapKeeper;

    ghost state = { map_opener_state };

    fn open_book(&mut self, path: &str) -> Result<MapKeeper, KeepFault>
        ensures opens { OpensCasebook map_keeper_state (map_opener_state self.old) (map_opener_state self.new)
            path.now result }
        ensures counted { CountsOpening self.old self.new }
        ensures failing { is_err result ≡ opening_fails self.old }
        ensures memory { IfErr result (λ fault. fault ≡ KeepFault.Failed) }
    {
        self.calls = self.calls.saturating_add(1);
        if is_listed(self.calls, &self.fails) {
            self.faults = self.faults.saturating_add(1);
            return Err(KeepFault::Failed);
        }
        Ok(MapKeeper::new(self.alloc, Vec::new(self.alloc)))
    }
}
