//! Writing the text of a command.
ghost use Rattle.case_run.specs.Writing.{WritesHaltLine, WritesOrFails};
ghost use Rattle.log_source.specs.Sinks.{SinkStays};

use super::halts::Halt;
use super::lines::keeper_fault_text;
use super::statuses::CaseStatus;
use audit_report::reports::{read_fault_text, too_long_text};
use log_source::put::put_all;
use log_source::sink::Sink;

/// Writes the text and answers the status, or `WriteFault` where the sink fails.
pub fn write_text<K: Sink>(out: &mut K, text: &[u8], status: CaseStatus) -> CaseStatus
    ensures writes { WritesOrFails (K.state out.old) (K.state out.new) status text.now result }
    ensures stays { SinkStays (K.state out.old) (K.state out.new) }
{
    match put_all(out, text) {
        Ok(()) => status,
        Err(_) => CaseStatus::WriteFault,
    }
}

/// Writes the line of a halt, and answers its status. Where memory ran out nothing is written.
pub fn write_halt<K: Sink>(out: &mut K, halt: Halt) -> CaseStatus
    ensures writes { WritesHaltLine (K.state out.old) (K.state out.new) halt result }
    ensures stays { SinkStays (K.state out.old) (K.state out.new) }
{
    match halt {
        Halt::ReadFault(log) => write_text(out, read_fault_text(log), CaseStatus::ReadFault),
        Halt::TooLong(log) => write_text(out, too_long_text(log), CaseStatus::TooLong),
        Halt::KeeperFault => write_text(out, keeper_fault_text(), CaseStatus::KeeperFault),
        Halt::Memory => CaseStatus::Memory,
    }
}
