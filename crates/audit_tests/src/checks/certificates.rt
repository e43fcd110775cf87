//! Rows of `verify`, whose certificate is a third log.
use crate::checks::answers::{RowFault, answer_of};
use crate::checks::rows::{Row, check_answer, memory_shelf};
use audit_base::faults::NoMemory;
use log_source::memory_shelf::MemoryShelf;
use std::alloc::Global;

/// The words of such a row.
pub(crate) const VERIFY: &str = "verify Z orders trades certificate";

/// The shelf of a row with this certificate.
fn certificate_shelf(
    alloc: Global,
    row: &Row,
    certificate: Vec<u8>,
) -> Result<MemoryShelf, NoMemory> {
    let mut shelf = memory_shelf(alloc, row, 65_536, Vec::new(alloc))?;
    shelf.put(String::from_str(alloc, "certificate")?, certificate)?;
    Ok(shelf)
}

/// Checks a row over its logs and this certificate.
pub(crate) fn check_certificate(
    alloc: Global,
    row: &Row,
    certificate: Vec<u8>,
) -> Result<(), RowFault> {
    let mut shelf = certificate_shelf(alloc, row, certificate)?;
    let answered = answer_of(alloc, row.words, &mut shelf)?;
    check_answer(alloc, row, 0, &answered)
}
