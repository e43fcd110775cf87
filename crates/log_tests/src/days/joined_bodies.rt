//! The taker of bodies that the tests use.
use audit_base::faults::NoMemory;
use fix_days::bodies::Bodies;
use fix_days::faults::BadMessage;
use fix_days::read_day::ReadDay;
use std::alloc::Global;

/// The bodies, each with `;` after it.
#[derive(Drop)]
pub(crate) struct JoinedBodies {
    pub(crate) text: Vec<u8>,
}

impl JoinedBodies {
    pub(crate) fn new(alloc: Global) -> Self {
        JoinedBodies {
            text: Vec::new(alloc),
        }
    }
}

impl Bodies for JoinedBodies {
    ghost use Rattle.std.specs.Prelude.{⊤};

    ghost has_taken = { λ _ _. ⊤ };

    fn take(&mut self, body: &[u8]) -> Result<(), NoMemory> {
        self.text.extend_from_slice(body)?;
        self.text.push(b';')?;
        Ok(())
    }
}

/// Whether a day was read as these bodies and this first bad message.
pub(crate) fn is_read(
    read: &Result<ReadDay<JoinedBodies>, NoMemory>,
    text: &[u8],
    bad: Option<BadMessage>,
) -> bool {
    matches!(read, Ok(day) if day.bodies.text.as_slice() == text && day.bad == bad)
}
