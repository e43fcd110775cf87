//! A sink: what takes a text piece by piece.
//!
//! While fewer than `sure` bytes are written, no write fails. Without this number no caller could
//! show that a text which fits a sink in memory meets no fault.
ghost use Rattle.std.specs.Prelude.{◌<◌, length};
ghost use Rattle.log_source.specs.Sinks.{SinkState, Writes};

use crate::shelf::Failed;

/// What takes a text piece by piece. What was written to a sink may be known.
pub trait Sink {
    // The state of the sink.
    ghost state: { Self → SinkState };

    /// Writes a front of the piece, at least one byte of it, and answers how many bytes it took.
    /// A write that took some is no fault. `Failed` comes only where the sink's faults rose, and
    /// nothing was then written.
    fn write(&mut self, piece: &[u8]) -> Result<usize, Failed>
        requires { 0 < length piece.now }
        ensures { Writes (state self.old) (state self.new) result piece.now };
}
