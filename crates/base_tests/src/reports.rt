//! Reports of bad places that no log of a test has.
use audit_base::faults::{BadPlace, Reason};
use audit_base::terms::Which;
use audit_report::reports::report_text;
use audit_report::verdicts::Verdict;

const BAD_PLACES: [(Which, u32, u64, Reason, &str); 2] = [
    (
        Which::Orders,
        1,
        0,
        Reason::Field(0),
        "malformed,orders,1,0,field:0\n",
    ),
    (
        Which::Trades,
        4_294_967_295,
        67_108_863,
        Reason::Unsupported(59),
        "malformed,trades,4294967295,67108863,unsupported:59\n",
    ),
];

#[test]
fn malformed(rt: HostRuntime) {
    for &(log, place, offset, reason, text) in &BAD_PLACES {
        let bad = BadPlace {
            place,
            offset,
            reason,
        };
        let written = report_text(rt.alloc(), &Verdict::Malformed { log, bad });
        let written = written.expect(&rt, "memory");
        assert!(rt; written.as_slice() == text.as_bytes(), "{text}");
    }
}
