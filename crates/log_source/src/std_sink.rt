//! The sink of the program: standard output, or any writer of the system.
ghost use Rattle.std.specs.Prelude.{◌≡◌, ◌<◌, length};
ghost use Rattle.log_source.specs.Sinks.{Writes};

use crate::output::Output;
use crate::shelf::Failed;
use crate::sink::Sink;

/// A sink over a writer. What it wrote is known where the content of its writer is.
/// A write that fails, or that takes nothing of its piece, is counted as a fault.
#[derive(Drop)]
pub struct StdSink<W> {
    writer: W,
    faults: u64,
}

impl<W: Output> StdSink<W> {
    ghost use Rattle.log_source.specs.StdSinks.{std_sink_state};

    /// A sink over this writer, with no fault counted. What the writer holds is what was written.
    pub fn new(writer: W) -> StdSink<W>
        ensures { let held = W.contents writer in
            std_sink_state W.contents result ≡ record { wrote = held; faults = 0; sure = 0 } }
    {
        StdSink { writer, faults: 0 }
    }
}

impl<W: Output> Sink for StdSink<W> {
    ghost use Rattle.log_source.specs.StdSinks.{std_sink_state};

    ghost state = { std_sink_state W.contents };

    fn write(&mut self, piece: &[u8]) -> Result<usize, Failed> {
        match self.writer.write(piece) {
            Ok(count) if count > 0 => Ok(count),
            _ => {
                self.faults = self.faults.saturating_add(1);
                Err(Failed)
            }
        }
    }
}
