//! A keeper of cases with digests in memory, which fails at chosen calls.
ghost use Rattle.std.specs.Prelude.{◌≡◌, ◌++◌, ◌∷◌, [], Some, IfOk, IfSome, ◌≤◌, option_copied};
ghost use Rattle.log_source.specs.Calls as calls;
ghost use Rattle.log_source.specs.Sources.{RoseOrIsFull};
ghost use Rattle.digest_keeper.specs.KeptCases.{KeptLabelsDiffer, kept_under, all_kept_of};

use crate::digested::{DigestedCase, KeptCase, has_label};
use crate::keeper::DigestKeeper;
use audit_base::faults::NoMemory;
use audit_base::names::Name;
use case_keeper::keeper::KeepFault;
use std::alloc::Global;

/// A keeper in memory, of which it is known what is on file. Its calls are counted from 1; those
/// whose numbers are in `fails` fail and are counted as faults, and so is a filing of a label that
/// is known.
#[derive(Drop)]
pub struct MapDigestKeeper {
    kept: Vec<KeptCase>,
    fails: Vec<u32>,
    calls: u64,
    faults: u64,
    alloc: Global,
    ghost own_labels: { KeptLabelsDiffer kept.items },
}

/// Whether the call of this number is to fail.
fn is_listed(number: u64, fails: &[u32]) -> bool
    ensures { result ≡ calls.is_failing_number number fails.now }
{
    fails.iter().any(|fail| u64::from(*fail) == number)
}

/// The case that is on file under a label.
fn find_label<'a>(kept: &'a [KeptCase], label: &Name) -> Option<&'a KeptCase>
    ensures { option_copied result ≡ kept_under kept.now label.now }
{
    kept.iter().find(|kept| has_label(kept, label))
}

/// A copy of the cases on file.
fn copy_of(alloc: Global, kept: &[KeptCase]) -> Result<Vec<KeptCase>, NoMemory>
    ensures { IfOk result (λ made. made.items ≡ kept.now) }
{
    Ok(Vec::from_slice(alloc, kept)?)
}

/// The cases on file with these after them; nothing where one of these has a label that is
/// known.
fn with_all(
    alloc: Global,
    kept: &[KeptCase],
    filed: &[DigestedCase],
) -> Result<Option<Vec<KeptCase>>, NoMemory>
    requires { KeptLabelsDiffer kept.now }
    ensures made { IfOk result (λ all. IfSome all (λ made.
        made.items ≡ kept.now ++ all_kept_of filed.now)) }
    ensures apart { IfOk result (λ all. IfSome all (λ made. KeptLabelsDiffer made.items)) }
{
    let mut made = copy_of(alloc, kept)?;
    for digested in filed {
        if find_label(&made, &digested.case.label).is_some() {
            return Ok(None);
        }
        made.push(digested.kept())?;
    }
    Ok(Some(made))
}

impl MapDigestKeeper {
    ghost use Rattle.digest_keeper.specs.DigestKeepers.{CountsDigestFaults};
    ghost use Rattle.digest_keeper.specs.MemoryKeepers.{memory_keeper_state};

    /// A keeper that has these cases on file.
    pub fn holding(alloc: Global, kept: Vec<KeptCase>, fails: Vec<u32>) -> MapDigestKeeper
        requires { KeptLabelsDiffer kept.items }
        ensures { memory_keeper_state result ≡ record { kept = Some kept.items; faults = 0 } }
    {
        MapDigestKeeper {
            kept,
            fails,
            calls: 0,
            faults: 0,
            alloc,
        }
    }

    /// Counts a fault.
    fn refuse(&mut self) -> KeepFault
        ensures fault { result ≡ KeepFault.Failed }
        ensures kept { self.new.kept ≡ self.old.kept }
        ensures counted { RoseOrIsFull (memory_keeper_state self.old).faults
            (memory_keeper_state self.new).faults }
        ensures later { (memory_keeper_state self.old).faults
            ≤ (memory_keeper_state self.new).faults }
    {
        self.faults = self.faults.saturating_add(1);
        KeepFault::Failed
    }

    /// Counts a call, which fails where its number is listed.
    fn count_call(&mut self) -> Result<(), KeepFault>
        ensures accounts { CountsDigestFaults (memory_keeper_state self.old)
            (memory_keeper_state self.new) result }
        ensures kept { self.new.kept ≡ self.old.kept }
    {
        self.calls = self.calls.saturating_add(1);
        if is_listed(self.calls, &self.fails) {
            return Err(self.refuse());
        }
        Ok(())
    }
}

impl DigestKeeper for MapDigestKeeper {
    ghost use Rattle.digest_keeper.specs.MemoryKeepers.{memory_keeper_state};

    ghost state = { memory_keeper_state };

    fn find(&mut self, label: &Name) -> Result<Option<KeptCase>, KeepFault> {
        self.count_call()?;
        Ok(find_label(&self.kept, label).copied())
    }

    fn file_all(&mut self, filed: &[DigestedCase]) -> Result<(), KeepFault> {
        self.count_call()?;
        match with_all(self.alloc, &self.kept, filed)? {
            Some(made) => {
                self.kept = made;
                Ok(())
            }
            None => Err(self.refuse()),
        }
    }

    ghost own_labels = { λ keeper. keeper.own_labels };
}
