//! What a program reads from and writes to: files, with what is noted of them, and an output; and
//! what it ends with.
ghost use Rattle.std.specs.Prelude.{◌≡◌};
ghost use Rattle.std.specs.Process.{exit_status};
ghost use Rattle.audit_report.specs.Statuses.{status_number};
ghost use Rattle.program_ends.specs.FreshEnds.{IsFreshOver, fresh_sink};

use crate::noted_shelf::NotedShelf;
use audit_report::statuses::Status;
use log_source::file_shelf::FileShelf;
use log_source::file_system::FileSystem;
use log_source::output::Output;
use log_source::shelf::Shelf;
use log_source::sink::Sink;
use log_source::std_sink::StdSink;
use std::alloc::Global;
use std::process::ExitCode;

/// A shelf over these files that remembers names, with nothing started and no fault counted.
/// Takes no memory.
pub fn noted_files<S: FileSystem + Drop>(alloc: Global, files: S) -> NotedShelf<FileShelf<S>>
    ensures { let shelf = ⟦<NotedShelf<FileShelf<S>> as Shelf>⟧ in
        IsFreshOver shelf (S.tells files) (S.file_at files) result }
{
    NotedShelf::new(alloc, FileShelf::new(files))
}

/// A sink over this output, with no fault counted. Takes no memory.
pub fn fresh_output<W: Output>(output: W) -> StdSink<W>
    ensures { ⟦<StdSink<W> as Sink>⟧.state result ≡ fresh_sink (W.contents output) }
{
    StdSink::new(output)
}

/// What a program hands back after its run: the files that it read, with the names that were noted,
/// and the output that it wrote.
#[derive(Drop)]
pub struct UsedEnds<S: FileSystem, W> {
    pub shelf: NotedShelf<FileShelf<S>>,
    pub out: StdSink<W>,
}

/// How a program ended: the exit code of its process, and what it hands back.
#[derive(Drop)]
pub struct ProgramEnd<S: FileSystem, W> {
    pub code: ExitCode,
    pub ends: UsedEnds<S, W>,
}

/// The exit code of a status: its number.
pub fn exit_code(status: Status) -> ExitCode
    ensures { exit_status result ≡ status_number status }
{
    ExitCode::from(status.number())
}
