//! A run over logs in memory, into a sink in memory.
ghost use Rattle.std.specs.Prelude.{◌≡◌, ◌≢◌, [], map};
ghost use Rattle.std.specs.String.{string_bytes};
ghost use Rattle.log_source.specs.MemorySinks.{failing_writes, sink_length, memory_sink_state, sink_room};
ghost use Rattle.command_run.specs.InMemory.{AnswersInRoom};
ghost use Rattle.audit_run.specs.Requests.{auditor_command_of};
ghost use Rattle.audit_run.specs.TopCall.{AuditorAnswers};
ghost use Rattle.log_verdict.specs.Steps.{reading};
ghost use Rattle.command_words.specs.Words.{request_of};

use super::program::Auditor;
use super::running::run;
use audit_report::statuses::Status;
use command_run::corollaries::{a_held_answer_with_room_is_written, a_quiet_shelf_is_read};
use log_source::memory_sink::MemorySink;
use log_source::quiet_shelf::QuietShelf;
use log_source::shelf::Shelf;
use std::alloc::Global;

/// Runs a command over two logs in memory, into a sink in memory: all that `run` says, and no
/// fault of the shelf.
///
/// `ReadFault` never comes. Where no write of the sink is to fail, the logs are no longer than a
/// log may be and the sink has room for the answer's text, its status is answered, with the text
/// written, or `Memory`.
pub fn run_in_memory(
    alloc: Global,
    words: &[String],
    shelf: &mut QuietShelf,
    out: &mut MemorySink,
) -> Status
    ensures run { let asked = request_of (map string_bytes words.now) in
        AuditorAnswers ⟦<QuietShelf as Shelf>⟧ asked shelf.old shelf.new
        (memory_sink_state out.old) (memory_sink_state out.new) result }
    ensures read { result ≢ Status.ReadFault }
    ensures answer { failing_writes out.old ≡ []
        → AnswersInRoom auditor_command_of (request_of (map string_bytes words.now))
        (reading ⟦<QuietShelf as Shelf>⟧ shelf.old shelf.new)
        (sink_length out.old) (sink_room out.old)
        (memory_sink_state out.old) (memory_sink_state out.new) result }
{
    // Laws that the answer rests on. They compute nothing.
    a_quiet_shelf_is_read::<Auditor>();
    a_held_answer_with_room_is_written::<Auditor>();
    run(alloc, words, shelf, out)
}
