//! Why a certificate is not verified.
use audit_base::faults::NoMemory;
use thiserror::Error;

/// Why a certificate is not verified.
#[derive(Clone, Copy, Debug, PartialEq, Eq, Error)]
pub enum VerifyFault {
    /// The first line, counted from 1, that is missing, not ended, one too many, or fails its test.
    #[error("line {0} does not agree")]
    No(u32),
    #[error("out of memory")]
    Memory,
}

impl From<NoMemory> for VerifyFault {
    ghost use Rattle.std.specs.Prelude.{◌≡◌};
    ghost use Rattle.audit_certificate.specs.declared.faults.VerifyFault.TheVariants.{Memory};

    ghost from_gives = { λ _ fault. fault ≡ Memory };

    fn from(_fault: NoMemory) -> VerifyFault {
        VerifyFault::Memory
    }
}
