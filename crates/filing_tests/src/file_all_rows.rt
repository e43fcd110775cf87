//! Rows of `file-all` over a database that fails. The label of a symbol has at most 64 bytes.
use crate::calls::{Call, CallFault, assert_call, kept_under, make_call};
use std::test::Fail;

const FILING: &str = "file-all d c1 matching o2 e";

/// Words over a database that cannot be opened, with each of which the one after it would be
/// refused too; the status and the lines.
const REFUSED: [(&str, u8, &str); 6] = [
    (
        "file-all d lllllllllllllllllllllllllllllllllllllllllllllllllllllllllllllll matching none e",
        4,
        "readfault,orders\n",
    ),
    (
        "file-all d lllllllllllllllllllllllllllllllllllllllllllllllllllllllllllllll matching x lone",
        3,
        "malformed,orders,1,0,header\n",
    ),
    (
        "file-all d lllllllllllllllllllllllllllllllllllllllllllllllllllllllllllllll matching o2 x",
        3,
        "malformed,trades,1,0,header\n",
    ),
    (
        "file-all d lllllllllllllllllllllllllllllllllllllllllllllllllllllllllllllll matching o2 lone --trades-form fix",
        1,
        "rejected,unpaired,trades,1\n",
    ),
    (
        "file-all d lllllllllllllllllllllllllllllllllllllllllllllllllllllllllllllll matching o2 e",
        1,
        "longlabel,Y\n",
    ),
    (FILING, 8, "keeperfault\n"),
];

#[test]
fn refused_in_their_order(rt: HostRuntime) -> Result<(), Fail> {
    for &(line, number, lines) in &REFUSED {
        let call = Call {
            opener_fails: 1,
            ..Call::of(line)
        };
        assert_call(&rt, &call, number, lines.as_bytes())?;
        assert!(rt; make_call(rt.alloc(), &call)?.book.is_none());
    }
    Ok(())
}

// Each label is looked for, and then all are filed by one call.
#[test]
fn each_call_of_the_keeper_files_all_or_none(rt: HostRuntime) -> Result<(), Fail> {
    for keeper_fails in 1..4 {
        let failing = Call {
            keeper_fails,
            ..Call::of(FILING)
        };
        assert_call(&rt, &failing, 8, b"keeperfault\n")?;
        let first = kept_under(rt.alloc(), &failing, b"c1/Y");
        assert!(rt;
            matches!(&first, Err(CallFault::NotOnFile)),
            "{keeper_fails}"
        );
    }
    let unwritten = Call {
        sink_fails: 1,
        ..Call::of(FILING)
    };
    assert_call(&rt, &unwritten, 5, b"")?;
    kept_under(rt.alloc(), &unwritten, b"c1/Y")?;
    kept_under(rt.alloc(), &unwritten, b"c1/Z")?;
    Ok(())
}
