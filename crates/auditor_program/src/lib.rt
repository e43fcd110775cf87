//! What the program `auditor` does with what its machine gives it: the arguments, files,
//! standard output and a random seed are handed to `run_seeded`, and the number of the status
//! is what the process ends with. Where it is above 1, one line on standard error says why
//! (`program_ends`).
//!
//! All of it is `answer_command_line`, over any command line, files, output and notes. The program
//! is one call of it with the runtime's.
#![tactic(auto)]

ghost use Rattle.auditor_program.specs.Answers.{AuditorAnswersWords};
ghost use Rattle.audit_report.specs.Statuses.{status_number};
ghost use Rattle.audit_report.specs.declared.statuses.Status.TheVariants as status;
ghost use Rattle.program_ends.specs.CommandLines.{words_of_arguments};
ghost use Rattle.program_ends.specs.FreshEnds.{BeginsOver, BeginsOverUnknown};
ghost use Rattle.program_ends.specs.ProgramAnswers.{AnswersCommandLine, EndsAsAnswer, EndsAsSomeAnswer};
ghost use Rattle.std.specs.Prelude.{map};
ghost use Rattle.std.specs.String.{string_bytes};

use audit_report::statuses::Status;
use audit_run::running::run_seeded;
use command_words::arguments::seed_of;
use log_source::file_shelf::FileShelf;
use log_source::file_system::FileSystem;
use log_source::output::Output;
use log_source::shelf::Shelf;
use log_source::sink::Sink;
use log_source::std_sink::StdSink;
use log_verdict::stops::NoRecords;
use program_ends::asked::{Asked, ProgramName};
use program_ends::command_line::{CommandLine, words_of};
use program_ends::ends::{ProgramEnd, UsedEnds, exit_code, fresh_output, noted_files};
use program_ends::log_notes::{print_end, print_memory, prints_pipe_read_twice};
use program_ends::noted_shelf::NotedShelf;
use program_ends::notes::Notes;
use program_ends::usage_notes::print_usage;
use std::io;
use std::process::ExitCode;
use std::random::RandomSource;

/// Says on standard error why a run of these words ended above 1.
fn tell<N: Notes, F: Shelf>(
    notes: &N,
    status: Status,
    words: &[String],
    shelf: &NotedShelf<F>,
    stop: &Option<NoRecords>,
) {
    let asked = Asked {
        program: ProgramName::Auditor,
        words,
    };
    if status == Status::Usage {
        print_usage(notes, &asked);
    } else if status != Status::Malformed || !prints_pipe_read_twice(notes, &asked, shelf) {
        print_end(notes, &asked, status, shelf, stop);
    }
}

/// Runs the command that these words ask for, with hashes of a random seed.
fn run_words<R: AllocGlobal + RandomSource, F: Shelf, K: Sink, N: Notes>(
    machine: &R,
    words: &[String],
    shelf: &mut NotedShelf<F>,
    out: &mut K,
    notes: &N,
) -> Status
    ensures { let shelves = ⟦<NotedShelf<F> as Shelf>⟧ in
        AuditorAnswersWords shelves (map string_bytes words.now)
        (record { shelf = shelf.old; sink = K.state out.old })
        (record { shelf = shelf.new; sink = K.state out.new }) result }
{
    let ran = run_seeded(machine.alloc(), seed_of(machine), words, shelf, out);
    tell(notes, ran.status, words, shelf, &ran.stop);
    ran.status
}

/// Runs the command that the words of the command line ask for.
fn answer_words<R: CommandLine + AllocGlobal + RandomSource, F: Shelf, K: Sink, N: Notes>(
    machine: &R,
    shelf: &mut NotedShelf<F>,
    out: &mut K,
    notes: &N,
) -> Status
    ensures { let shelves = ⟦<NotedShelf<F> as Shelf>⟧ in
        AnswersCommandLine (AuditorAnswersWords shelves) status.Memory
        (words_of_arguments (R.known_arguments machine.now))
        (record { shelf = shelf.old; sink = K.state out.old })
        (record { shelf = shelf.new; sink = K.state out.new }) result }
{
    match words_of(machine) {
        Ok(words) => run_words(machine, &words, shelf, out, notes),
        Err(_) => {
            print_memory(notes, ProgramName::Auditor);
            Status::Memory
        }
    }
}

/// Answers the command line over these files and this output, and says on `notes` why, where the
/// status is above 1.
///
/// Nothing is known of the words, files and output of the runtime. So the call of the program says
/// less than this one: that its process ends as some answer does. What it is handed is seen in the
/// code: the runtime itself as command line and files, and its standard output.
pub fn answer_command_line<
    R: CommandLine + AllocGlobal + RandomSource,
    S: FileSystem + Drop,
    W: Output + Drop,
    N: Notes,
>(machine: &R, files: S, output: W, notes: &N) -> ProgramEnd<S, W>
    ensures { let shelf = ⟦<NotedShelf<FileShelf<S>> as Shelf>⟧ in
        let state = ⟦<StdSink<W> as Sink>⟧.state in
        EndsAsAnswer (AuditorAnswersWords shelf) status.Memory status_number
        (words_of_arguments (R.known_arguments machine.now))
        (BeginsOver shelf (S.tells files) (S.file_at files) (W.contents output))
        (record { shelf = result.ends.shelf; sink = state result.ends.out }) result.code }
{
    let mut shelf = noted_files(machine.alloc(), files);
    let mut out = fresh_output(output);
    let status = answer_words(machine, &mut shelf, &mut out, notes);
    ProgramEnd {
        code: exit_code(status),
        ends: UsedEnds { shelf, out },
    }
}

/// Runs the program, and gives the exit code of its process.
pub fn run_auditor(rt: HostRuntime) -> ExitCode
    ensures { let shelf = ⟦<NotedShelf<FileShelf<HostRuntime>> as Shelf>⟧ in
        EndsAsSomeAnswer (AuditorAnswersWords shelf) status.Memory status_number
        (BeginsOverUnknown shelf) result }
{
    answer_command_line(&rt, rt, io::writer(&rt), &rt).code
}
