//! Texts that are written to a sink, and writes that fail.
use log_source::memory_sink::MemorySink;
use log_source::put::put_all;
use log_source::std_sink::StdSink;
use std::test::Fail;

const TEXT: &[u8] = b"accepted,matching,Z\ntotals,2,1,100\n";

// Writes of at most 10 bytes each, of which the one of this number fails.
#[test]
fn a_failed_write_leaves_the_writes_before_it(rt: HostRuntime) -> Result<(), Fail> {
    for (fails, written) in [(1, 0), (2, 10), (3, 20), (4, 30), (5, 35)] {
        let list = Vec::from_slice(rt.alloc(), &[fails])?;
        let mut sink = MemorySink::new(rt.alloc(), 35, 10, list)?;
        let result = put_all(&mut sink, TEXT);
        assert!(rt; result.is_ok() == (written == 35), "write {fails}");
        assert!(rt; Some(sink.bytes()) == TEXT.get(..written), "write {fails}");
    }
    Ok(())
}

#[test]
fn a_text_past_the_room_fails_when_the_room_is_full(rt: HostRuntime) -> Result<(), Fail> {
    let mut sink = MemorySink::new(rt.alloc(), 34, 50, Vec::new(rt.alloc()))?;
    assert!(rt; put_all(&mut sink, TEXT).is_err());
    assert!(rt; Some(sink.bytes()) == TEXT.get(..34));
    assert!(rt; put_all(&mut sink, b"").is_ok());
    Ok(())
}

// A writer that takes nothing more is a fault.
#[test]
fn a_text_reaches_its_writer(rt: HostRuntime) {
    let mut written = Vec::new(rt.alloc());
    assert!(rt; put_all(&mut StdSink::new(&mut written), TEXT).is_ok());
    assert!(rt; written.as_slice() == TEXT);
    let mut room = [0u8; 4];
    assert!(rt; put_all(&mut StdSink::new(room.as_mut_slice()), TEXT).is_err());
}
