//! What follows from the contract of `run` where the shelf or the sink is one in memory.
ghost use Rattle.std.specs.Prelude.{◌≡◌, ◌≢◌, [], Option};
ghost use Rattle.audit_report.specs.declared.statuses.Status.{Status};
ghost use Rattle.log_source.specs.MemorySinks.{failing_writes, sink_length, memory_sink_state, sink_room};
ghost use Rattle.log_source.specs.Sinks.{SinkState, SinkStays};
ghost use Rattle.log_source.specs.declared.memory_sink.MemorySink.{MemorySink};
ghost use Rattle.log_source.specs.declared.quiet_shelf.QuietShelf.{QuietShelf};
ghost use Rattle.command_words.specs.declared.requests.Request.{Request};
ghost use Rattle.command_run.specs.Corollaries.{HasRoomForText};
ghost use Rattle.audit_report.specs.Lines.{auditor_usage_line};
ghost use Rattle.audit_run.specs.Requests.{auditor_command_of};
ghost use Rattle.audit_run.specs.Runs.{AuditorAnswersWithCause};
ghost use Rattle.log_verdict.specs.Steps.{Reading, reading};

use super::program::Auditor;
use command_run::corollaries as of_commands;
use log_source::quiet_shelf::QuietShelf;
use log_source::shelf::Shelf;

/// Over a shelf that never fails the status is never `ReadFault`, whatever the words and the sink.
pub fn a_quiet_shelf_is_read()
    ensures { (asked : Option Request) (old new : QuietShelf) (before after : SinkState)
        (the_status : Status)
        → AuditorAnswersWithCause asked (reading ⟦<QuietShelf as Shelf>⟧ old new)
        before after the_status
        → the_status ≢ Status.ReadFault }
{
    of_commands::a_quiet_shelf_is_read::<Auditor>();
}

/// Into a sink in memory none of whose writes is to fail, and which has room for every text that
/// the call may write, the status is never `WriteFault`, whatever the words and the shelf.
pub fn a_sink_with_room_is_written()
    ensures { (asked : Option Request) (r : Reading) (old new : MemorySink) (the_status : Status)
        → failing_writes old ≡ []
        → HasRoomForText auditor_command_of auditor_usage_line asked r
        (sink_length old) (sink_room old)
        → SinkStays (memory_sink_state old) (memory_sink_state new)
        → AuditorAnswersWithCause asked r
        (memory_sink_state old) (memory_sink_state new) the_status
        → the_status ≢ Status.WriteFault }
{
    of_commands::a_sink_with_room_is_written::<Auditor>();
}
