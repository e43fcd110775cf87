//! Feeds of FIX messages that are made by literals.
use fix_framing::framer::Framer;
use fix_messages::feeds::{FixFeed, FixOrderFeed, FixReportFeed};
use log_source::feed::Feed;
use std::test::Fail;

const M1: &[u8] =
    b"8=FIX.4.4\x019=64\x0135=D\x0149=A\x0111=1\x0160=20240102-09:00:00\x0155=Z\x0154=1\x0138=100\x0140=2\x0144=10\x0110=145\x01";

const R1: &[u8] =
    b"8=FIX.4.4\x019=78\x0135=8\x0149=X\x0156=A\x0111=1\x01150=F\x01527=T1\x0155=Z\x0154=1\x0132=100\x0131=9.5\x0160=20240102-09:00:02\x0110=101\x01";

#[test]
fn feeds_are_their_fields(rt: HostRuntime) -> Result<(), Fail> {
    let mut orders: FixOrderFeed = FixFeed {
        alloc: rt.alloc(),
        framer: Framer::new(rt.alloc()),
        entries: Vec::new(rt.alloc()),
        bad: None,
    };
    orders.feed(M1)?;
    assert_eq!(rt; orders.finish()?.len(), 1);
    let mut reports: FixReportFeed = FixFeed {
        alloc: rt.alloc(),
        framer: Framer::new(rt.alloc()),
        entries: Vec::new(rt.alloc()),
        bad: None,
    };
    reports.feed(R1)?;
    assert_eq!(rt; reports.finish()?.len(), 1);
    Ok(())
}
