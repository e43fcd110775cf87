//! The answer to `orders`: a generated order log, written while it is made.
ghost use Rattle.std.specs.Prelude.{◌≡◌};
ghost use Rattle.command_run.specs.Runs.{AnswersCommand};
ghost use Rattle.desk_run.specs.Requests.{desk_command_of};
ghost use Rattle.desk_words.specs.declared.requests.DeskRequest.TheVariants.{Early};
ghost use Rattle.desk_words.specs.declared.requests.EarlyRequest.TheVariants.{Orders};
ghost use Rattle.log_maker.specs.Generator.{IsCount, IsStart};
ghost use Rattle.log_source.specs.Sinks.{SinkStays};
ghost use Rattle.log_verdict.specs.Steps.{Reading};
ghost use Rattle.audit_base.specs.declared.terms.Which.{Which as WhichSpec};

use audit_base::terms::Form;
use audit_report::statuses::Status;
use log_source::sink::Sink;
use std::alloc::Global;
use written_logs::generated_faults::GenerateFault;
use written_logs::generating::write_generated;

/// Answers `orders`, which reads no log: whatever the reading, it has not touched a slot.
pub(crate) fn run_orders<K: Sink>(
    alloc: Global,
    out: &mut K,
    start: u32,
    count: u32,
    form: Form,
) -> Status
    requires start { IsStart start }
    requires count { IsCount count }
    ensures stays { SinkStays (K.state out.old) (K.state out.new) }
    ensures answers { (r : Reading) → ((log : WhichSpec) → r.after log ≡ r.before log)
        → AnswersCommand r (desk_command_of (Early (Orders start count form)))
        (K.state out.old) (K.state out.new) result }
{
    match write_generated(alloc, start, count, form, out) {
        Ok(()) => Status::Accepted,
        Err(GenerateFault::Sink) => Status::WriteFault,
        Err(GenerateFault::Memory) => Status::Memory,
    }
}
