//! Each call of shelf, opener, keeper and sink fails in turn.
use crate::calls::{Call, CallFault, assert_call, kept_after, make_call};
use audit_base::faults::NoMemory;
use std::alloc::Global;
use std::test::Fail;

const FILE: &str = "file d c1 matching Z o t";

const CHECK: &str = "check d c1 o t";

/// How many of the first calls of a shelf end a run with 4 when they fail, before one does not.
fn count_read_faults(alloc: Global, call: &Call) -> Result<u32, NoMemory> {
    for number in 1..100 {
        let failing = Call {
            shelf_fails: number,
            ..*call
        };
        let came = make_call(alloc, &failing)?;
        if came.status.number() != 4 {
            return Ok(number - 1);
        }
    }
    Ok(100)
}

#[test]
fn each_start_and_read(rt: HostRuntime) -> Result<(), Fail> {
    let filing = count_read_faults(rt.alloc(), &Call::of(FILE))?;
    let filing_all = count_read_faults(rt.alloc(), &Call::of("file-all d c1 matching o t"))?;
    assert!(rt; 4 < filing && filing < 40);
    assert_eq!(rt; filing_all, filing);
    Ok(())
}

#[test]
fn opener_and_keeper(rt: HostRuntime) -> Result<(), Fail> {
    let file = Call::of(FILE);
    let unopened = Call {
        opener_fails: 1,
        ..file
    };
    assert_call(&rt, &unopened, 8, b"keeperfault\n")?;
    for keeper_fails in 1..3 {
        let failing = Call {
            keeper_fails,
            ..file
        };
        assert_call(&rt, &failing, 8, b"keeperfault\n")?;
    }
    let check = Call::of(CHECK).over(kept_after(rt.alloc(), &file)?);
    let failing = Call {
        keeper_fails: 1,
        ..check
    };
    Ok(assert_call(&rt, &failing, 8, b"keeperfault\n")?)
}

// What was filed stays filed where its line could not be written.
#[test]
fn a_write_that_fails(rt: HostRuntime) -> Result<(), Fail> {
    let failing = Call {
        sink_fails: 1,
        ..Call::of(FILE)
    };
    assert_call(&rt, &failing, 5, b"")?;
    kept_after(rt.alloc(), &failing)?;
    Ok(())
}

// The label is looked for, and then the case is filed.
#[test]
fn each_call_of_the_keeper_files_the_case_or_none(rt: HostRuntime) -> Result<(), Fail> {
    for keeper_fails in 1..3 {
        let failing = Call {
            keeper_fails,
            ..Call::of(FILE)
        };
        assert_call(&rt, &failing, 8, b"keeperfault\n")?;
        let kept = kept_after(rt.alloc(), &failing);
        assert!(rt;
            matches!(&kept, Err(CallFault::NotOnFile)),
            "{keeper_fails}"
        );
    }
    Ok(())
}
