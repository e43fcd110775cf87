//! Writing a whole text.
ghost use Rattle.std.specs.Prelude.{◌≡◌, [], IsOk};
ghost use Rattle.log_source.specs.Sinks.{Puts};

use crate::shelf::Failed;
use crate::sink::Sink;

/// Writes all the bytes, handing the whole rest to each write.
/// An empty list is written by no call. Where all is written, no fault is counted. `Failed` comes
/// only where the sink's faults rose; a front of the bytes was then written, not all.
pub fn put_all<K: Sink>(sink: &mut K, bytes: &[u8]) -> Result<(), Failed>
    ensures put { Puts (K.state sink.old) (K.state sink.new) result bytes.now }
    ensures empty { bytes.now ≡ [] → IsOk result × (sink.new ≡ sink.old) }
{
    let mut rest = bytes;
    while !rest.is_empty() {
        let count = sink.write(rest)?;
        rest = &rest[count..];
    }
    Ok(())
}
