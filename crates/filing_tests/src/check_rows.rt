//! Rows of `check` over cases that no words of `desk` file: one that was changed by hand, and one
//! of a casebook.
use crate::calls::{Call, assert_call, kept_after};
use digest_keeper::digested::KeptCase;
use std::test::Fail;

const FILING: &str = "file d c1 matching Z o t";

#[test]
fn a_case_that_was_changed_by_hand(rt: HostRuntime) -> Result<(), Fail> {
    let accepted = kept_after(rt.alloc(), &Call::of(FILING))?;
    let rejected = kept_after(rt.alloc(), &Call::of("file d c1 matching Z o t8"))?;
    let changed = KeptCase {
        case: rejected.case,
        digests: accepted.digests,
    };
    let check = Call::of("check d c1 o t").over(changed);
    Ok(assert_call(&rt, &check, 1, b"differs,c1,verdict\n")?)
}

#[test]
fn a_case_without_digests(rt: HostRuntime) -> Result<(), Fail> {
    let filed = kept_after(rt.alloc(), &Call::of(FILING))?;
    let kept = KeptCase {
        case: filed.case,
        digests: None,
    };
    let check = Call::of("check d c1 o t").over(kept);
    Ok(assert_call(&rt, &check, 1, b"nodigest,c1\n")?)
}
