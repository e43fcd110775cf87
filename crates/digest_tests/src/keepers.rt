//! Cases that are filed together, by any keeper.
use crate::calls::{CommandAnswer, said_nothing};
use audit_base::names::read_name;
use audit_base::terms::Rule;
use case_keeper::case::Case;
use case_keeper::keeper::KeepFault;
use digest_keeper::digested::DigestedCase;
use digest_keeper::keeper::DigestKeeper;
use log_digests::digests::LogDigests;
use log_digests::digits::read_digest;
use std::alloc::Global;

/// The digits of the digests of `abc` and of no bytes.
const ABC: &[u8] = b"ba7816bf8f01cfea414140de5dae2223b00361a396177a9cb410ff61f20015ad";

const EMPTY: &[u8] = b"e3b0c44298fc1c149afbf4c8996fb92427ae41e4649b934ca495991b7852b855";

/// An accepted case of the rule `fair`, with the digests of `abc` and of no bytes.
fn digested(label: &[u8], symbol: &[u8]) -> Option<DigestedCase> {
    let case = Case {
        label: read_name(label)?,
        rule: Rule::Fair,
        symbol: read_name(symbol)?,
        offence: None,
    };
    let digests = LogDigests {
        orders: read_digest(ABC)?,
        trades: read_digest(EMPTY)?,
    };
    Some(DigestedCase { case, digests })
}

/// Whether a case is on file with its digests.
fn is_kept<K: DigestKeeper>(keeper: &mut K, filed: &DigestedCase) -> Result<bool, KeepFault> {
    Ok(keeper.find(&filed.case.label)? == Some(filed.kept()))
}

/// Files two cases together, and then one with another whose label is known, which is refused:
/// whether of the three exactly the first two are on file.
fn keeps_first_two<K: DigestKeeper>(
    keeper: &mut K,
    first: DigestedCase,
    second: DigestedCase,
    third: DigestedCase,
) -> Result<bool, KeepFault> {
    keeper.file_all(&[first, second])?;
    let refused = keeper.file_all(&[third, second]).is_err();
    let kept = is_kept(keeper, &first)? && is_kept(keeper, &second)?;
    Ok(refused && kept && keeper.find(&third.case.label)?.is_none())
}

/// Files the cases d/Y and d/Z together, and then e/Y and d/Z, which is refused.
pub(crate) fn files_together<K: DigestKeeper>(keeper: &mut K) -> bool {
    let (Some(first), Some(second), Some(third)) = (
        digested(b"d/Y", b"Y"),
        digested(b"d/Z", b"Z"),
        digested(b"e/Y", b"Y"),
    ) else {
        return false;
    };
    matches!(keeps_first_two(keeper, first, second, third), Ok(true))
}

/// Says with status 0 that the cases were filed together, and with 1 that they were not.
pub(crate) fn say_together<K: DigestKeeper>(alloc: Global, keeper: &mut K) -> CommandAnswer {
    said_nothing(alloc, u8::from(!files_together(keeper)))
}
