//! Findings 1 to 3: what is wrong with one record, by what is known of the records before it.
ghost use Rattle.std.specs.Prelude.{◌≡◌, [], IfSome};
ghost use Rattle.audit_base.specs.Flaws.{IsEvidenceInside};
ghost use Rattle.audit_base.specs.Histories.{target_key};
ghost use Rattle.instruction_history.specs.Draft as draft;

use audit_base::flaws::Evidence;
use audit_base::records::OrderRecord;
use audit_base::stamps::Stamp;
use order_list::keys::SeenRecord;

/// The record that the next one is compared with.
#[derive(Clone, Copy)]
pub(crate) struct LastRecord {
    /// The number of the record in the log.
    pub place: u32,
    pub time: Stamp,
}

/// Finding 1: the key is that of an earlier record.
fn duplicate_id(earlier: Option<SeenRecord>) -> Option<Evidence>
    ensures { result ≡ draft.duplicate_evidence earlier }
{
    let seen = earlier?;
    Some(Evidence::DuplicateId(seen.place))
}

/// Finding 2: the time is earlier than that of the record before it.
fn time_back(last: Option<LastRecord>, time: Stamp) -> Option<Evidence>
    ensures { result ≡ draft.time_back_evidence last time }
{
    let last = last?;
    if time.is_before(last.time) {
        Some(Evidence::TimeBack(last.place))
    } else {
        None
    }
}

/// Finding 3: the record names a target, and there is none.
fn unknown_target(entry: &OrderRecord, target: Option<usize>) -> Option<Evidence>
    ensures { result ≡ draft.unknown_target_evidence (target_key entry.now) target }
{
    if entry.target_key().is_some() && target.is_none() {
        Some(Evidence::UnknownTarget)
    } else {
        None
    }
}

/// What is wrong with the record, if anything is: the first of the three. `earlier` is what its
/// key named before it.
pub(crate) fn record_evidence(
    earlier: Option<SeenRecord>,
    last: Option<LastRecord>,
    entry: &OrderRecord,
    target: Option<usize>,
) -> Option<Evidence>
    ensures first { result ≡ draft.record_evidence earlier last entry.now target }
    ensures alone { IfSome result (IsEvidenceInside []) }
{
    if let Some(evidence) = duplicate_id(earlier) {
        return Some(evidence);
    }
    if let Some(evidence) = time_back(last, entry.time()) {
        return Some(evidence);
    }
    unknown_target(entry, target)
}
