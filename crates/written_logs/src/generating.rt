//! Writing a generated log block by block.
ghost use Rattle.std.specs.Prelude.{◌≡◌, ◌≤◌, ◌+◌, ℕ};
ghost use Rattle.log_maker.specs.Generator.{IsCount, IsStart, state_at};
ghost use Rattle.log_source.specs.Sinks.{SinkStays};
ghost use Rattle.written_logs.specs.GeneratedTexts.{WritesGeneratedLog};
ghost use Rattle.written_logs.specs.GeneratedBlocks.{WritesBlock, WritesHead};

use crate::generated_faults::GenerateFault;
use crate::texts::{append_order_head, append_order_lines};
use audit_base::terms::Form;
use log_maker::generator::make_block_after;
use log_source::put::put_all;
use log_source::sink::Sink;
use std::alloc::Global;

/// The records of a block: its records take some 2 MiB, and its text about as much.
const BLOCK: u32 = 4096;

/// How many of the records that are left are in the next block.
fn next_count(left: u32) -> u32
    requires { 1 ≤ left }
    ensures some { 1 ≤ result }
    ensures most { result ≤ left }
{
    if left < BLOCK { left } else { BLOCK }
}

/// Writes what the log begins with, before its first record.
fn write_head<K: Sink>(alloc: Global, form: Form, out: &mut K) -> Result<(), GenerateFault>
    ensures stays { SinkStays (K.state out.old) (K.state out.new) }
    ensures writes { WritesHead form (K.state out.old) (K.state out.new) result }
{
    let mut text = Vec::new(alloc);
    append_order_head(alloc, form, &mut text)?;
    put_all(out, &text)?;
    Ok(())
}

/// Makes so many records behind the first ones, and writes what stands for them. `state` is the
/// generator's at the last of the first ones; that at the last of the others is answered.
fn write_block<K: Sink>(
    alloc: Global,
    form: Form,
    first: u32,
    count: u32,
    state: u32,
    out: &mut K,
) -> Result<u32, GenerateFault>
    requires { first + count ≤ 1000000 }
    ensures stays { SinkStays (K.state out.old) (K.state out.new) }
    ensures writes { (start : ℕ) → state ≡ state_at start first
        → WritesBlock form start first count (K.state out.old) (K.state out.new) result }
{
    let block = make_block_after(alloc, first, count, state)?;
    let mut text = Vec::new(alloc);
    append_order_lines(alloc, form, &block.entries, &mut text)?;
    put_all(out, &text)?;
    Ok(block.state)
}

/// Writes the generated order log of START and COUNT in this form: the records with the numbers 1
/// to `count`, from the state `start`, as `log_maker` makes them. No more than a block of records
/// and its text is held, so memory does not go by `count`.
///
/// Where a write fails or memory runs out, what was written is a beginning of the log.
pub fn write_generated<K: Sink>(
    alloc: Global,
    start: u32,
    count: u32,
    form: Form,
    out: &mut K,
) -> Result<(), GenerateFault>
    requires start { IsStart start }
    requires count { IsCount count }
    ensures stays { SinkStays (K.state out.old) (K.state out.new) }
    ensures writes { WritesGeneratedLog form start count (K.state out.old) (K.state out.new) result }
{
    write_head(alloc, form, out)?;
    let mut state = start;
    let mut written: u32 = 0;
    while written < count {
        let next = next_count(count - written);
        state = write_block(alloc, form, written, next, state, out)?;
        written += next;
    }
    Ok(())
}
