//! What follows where the shelf or the sink of a call is one in memory. Each call does nothing.
ghost use Rattle.std.specs.Prelude.{◌≡◌, ◌≢◌, [], ℕ, Option};
ghost use Rattle.audit_report.specs.declared.statuses.Status.{Status as StatusSpec};
ghost use Rattle.log_source.specs.MemorySinks.{failing_writes, sink_length, memory_sink_state, sink_room};
ghost use Rattle.log_source.specs.Sinks.{SinkState, SinkStays};
ghost use Rattle.log_source.specs.declared.memory_sink.MemorySink.{MemorySink as MemorySinkSpec};
ghost use Rattle.log_source.specs.declared.quiet_shelf.QuietShelf.{QuietShelf as QuietShelfSpec};
ghost use Rattle.command_run.specs.Corollaries.{HasRoomForText};
ghost use Rattle.command_run.specs.InMemory.{AnswersInRoom};
ghost use Rattle.command_run.specs.Runs.{AnswersWithCause};
ghost use Rattle.log_verdict.specs.Steps.{Reading, reading_within};

use super::programs::Program;
use audit_report::statuses::Status;
use log_source::quiet_shelf::QuietShelf;
use log_source::shelf::Shelf;

/// Over a shelf that never fails the status is never `ReadFault`, whatever the words, the sink and
/// the length that a log may have.
pub fn a_quiet_shelf_is_read<P: Program>()
    ensures { (asked : Option P.Request) (limit : ℕ) (old new : QuietShelfSpec)
        (before after : SinkState) (the_status : StatusSpec)
        → AnswersWithCause P.command P.usage asked
        (reading_within limit ⟦<QuietShelf as Shelf>⟧ old new) before after the_status
        → the_status ≢ Status.ReadFault }
{}

/// Into a sink in memory none of whose writes is to fail, and which has room for every text that
/// the call may write, the status is never `WriteFault`, whatever the words and the shelf.
pub fn a_sink_with_room_is_written<P: Program>()
    ensures { (asked : Option P.Request) (r : Reading) (old new : MemorySinkSpec)
        (the_status : StatusSpec) → failing_writes old ≡ []
        → HasRoomForText P.command P.usage asked r (sink_length old) (sink_room old)
        → SinkStays (memory_sink_state old) (memory_sink_state new)
        → AnswersWithCause P.command P.usage asked r
        (memory_sink_state old) (memory_sink_state new) the_status
        → the_status ≢ Status.WriteFault }
{}

/// Over a shelf that never fails, and into a sink in memory none of whose writes is to fail and
/// which has room for the command's answer to the logs that the shelf holds, that answer is
/// written, or memory ran out.
pub fn a_held_answer_with_room_is_written<P: Program>()
    ensures { (asked : Option P.Request) (limit : ℕ) (old new : QuietShelfSpec)
        (sink_old sink_new : MemorySinkSpec) (the_status : StatusSpec)
        → failing_writes sink_old ≡ []
        → SinkStays (memory_sink_state sink_old) (memory_sink_state sink_new)
        → AnswersWithCause P.command P.usage asked
        (reading_within limit ⟦<QuietShelf as Shelf>⟧ old new)
        (memory_sink_state sink_old) (memory_sink_state sink_new) the_status
        → AnswersInRoom P.command asked (reading_within limit ⟦<QuietShelf as Shelf>⟧ old new)
        (sink_length sink_old) (sink_room sink_old)
        (memory_sink_state sink_old) (memory_sink_state sink_new) the_status }
{}
