//! What opens databases of cases with digests.
//!
//! What is under a path before it is opened is known to no keeper, so an opener is a trait of its
//! own, with one record as its meaning.
ghost use Rattle.desk_filing.specs.DigestOpeners.{DigestOpenerState, OpensDatabase};

use case_keeper::keeper::KeepFault;
use digest_keeper::keeper::DigestKeeper;

/// What an opener does where there is no database under a path.
#[derive(Clone, Copy, Debug, PartialEq, Eq)]
pub enum MissingDatabase {
    /// It makes one, with nothing on file.
    Make,
    /// It fails, and makes nothing.
    Refuse,
}

/// What opens databases by their paths. Of some openers it is known what is on file under each
/// path. An opener counts its faults, which never fall, and no call changes what it has.
pub trait DigestOpener {
    type Book: DigestKeeper;

    // What is known of the opener.
    ghost state: { Self → DigestOpenerState };

    /// The keeper of what is on file under a path, with no fault counted. `Failed` comes only
    /// where the opener's faults rose or their count is at its greatest value, or where it is
    /// known that there is no database under the path and none was to be made.
    fn open(&mut self, path: &str, missing: MissingDatabase) -> Result<Self::Book, KeepFault>
        ensures { OpensDatabase Self.Book.state (state self.old) (state self.new) path.now missing
            result };
}
