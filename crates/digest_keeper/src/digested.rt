//! A case and the digests of the logs that it is the verdict on.
ghost use Rattle.std.specs.Prelude.{◌≡◌};
ghost use Rattle.digest_keeper.specs.KeptCases.{has_kept_label};

use audit_base::names::Name;
use case_keeper::case::Case;
use log_digests::digests::LogDigests;

/// A case that is to be filed with the digests of its logs.
#[derive(Clone, Copy, Debug, PartialEq, Eq)]
pub struct DigestedCase {
    pub case: Case,
    pub digests: LogDigests,
}

/// A case on file, with the digests of its logs where it was filed with them.
#[derive(Clone, Copy, Debug, PartialEq, Eq)]
pub struct KeptCase {
    pub case: Case,
    pub digests: Option<LogDigests>,
}

impl DigestedCase {
    ghost use Rattle.digest_keeper.specs.KeptCases.{kept_of};

    /// The case as it is on file once it was filed.
    pub fn kept(&self) -> KeptCase
        ensures { result ≡ kept_of self.now }
    {
        KeptCase {
            case: self.case,
            digests: Some(self.digests),
        }
    }
}

/// Whether a case on file has this label.
pub(crate) fn has_label(kept: &KeptCase, label: &Name) -> bool
    ensures { result ≡ has_kept_label label.now kept.now }
{
    kept.case.label == *label
}
