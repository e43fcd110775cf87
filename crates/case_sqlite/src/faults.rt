//! What a keeper answers where the database refuses.
ghost use Rattle.std.specs.Prelude.{◌≡◌};
ghost use Rattle.case_sqlite.specs.Faults as spec;

use case_keeper::keeper::KeepFault;
use sqlite::{Error, ErrorCode};

/// The fault of a keeper whose database refused: out of memory, or a failure, which the keeper
/// counts.
pub fn fault_of(error: Error) -> KeepFault
    ensures { result ≡ spec.fault_of error }
{
    match error {
        Error::SqliteFailure(ErrorCode::OutOfMemory) => KeepFault::Memory,
        _ => KeepFault::Failed,
    }
}
