//! A keeper of cases with the digests of their logs.
//!
//! Its meaning is one record, as that of a keeper of cases: what is on file, where known, and
//! its faults.
ghost use Rattle.digest_keeper.specs.DigestKeepers.{DigestKeeperState, KnownKeptLabelsDiffer, FindsKept, FilesAll};

use crate::digested::{DigestedCase, KeptCase};
use audit_base::names::Name;
use case_keeper::keeper::KeepFault;

/// What holds cases under their labels with the digests of their logs, in the order of filing,
/// no two cases under one label.
///
/// Of some keepers it is known what they hold. A keeper counts its faults, which never fall;
/// `Failed` comes only where they rose or their count is at its greatest value, and after a fault
/// what is on file is as before.
pub trait DigestKeeper {
    // The state of the keeper: what is on file, where it is known, and its faults.
    ghost state: { Self → DigestKeeperState };

    /// The case with this label, with its digests where it was filed with them. `None` comes,
    /// where it is known what is on file, exactly where no case has the label.
    fn find(&mut self, label: &Name) -> Result<Option<KeptCase>, KeepFault>
        ensures { FindsKept (state self.old) (state self.new) result label.now };

    /// Adds cases with their digests after the others, all of them or none. It fails where one
    /// has the label of a case that is on file, or of one before it.
    fn file_all(&mut self, filed: &[DigestedCase]) -> Result<(), KeepFault>
        ensures { FilesAll (state self.old) (state self.new) result filed.now };

    // No two of its cases have one label, where it is known what is on file.
    ghost own_labels: { (keeper : Self) → KnownKeptLabelsDiffer (state keeper) };
}
