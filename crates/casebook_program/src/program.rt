//! What the program `casebook` does with what its machine gives it: the arguments, files,
//! standard output, an opener over files and a random seed are handed to `run_and_close`, and
//! the number of the status is what the process ends with. Where it is above 1, where a
//! database was made, and where a list may not be the one that was meant, a line on standard
//! error says so (`program_ends`).
//!
//! All of it is `answer_command_line`, over any command line, files, output, opener and notes. The
//! program is one call of it with the runtime's.
ghost use Rattle.std.specs.Prelude.{◌≡◌, map};
ghost use Rattle.std.specs.Process.{exit_status};
ghost use Rattle.std.specs.String.{string_bytes};
ghost use Rattle.casebook_program.specs.ClosedRuns.{CasebookAnswers, CasebookBegins, CasebookBeginsOverUnknown, RunsThenCloses};
ghost use Rattle.casebook_program.specs.FileOpeners.{file_opener_state};
ghost use Rattle.case_run.specs.Statuses.{case_status_number};
ghost use Rattle.case_run.specs.declared.statuses.CaseStatus.TheVariants as status;
ghost use Rattle.program_ends.specs.CommandLines.{words_of_arguments};
ghost use Rattle.program_ends.specs.ProgramAnswers.{AnswersCommandLine, EndsAsAnswer, EndsAsSomeAnswer};

use crate::closing::{Closing, run_and_close};
use crate::file_opener::FileOpener;
use audit_report::statuses::Status;
use case_run::statuses::CaseStatus;
use command_words::arguments::seed_of;
use log_source::file_shelf::FileShelf;
use log_source::file_system::FileSystem;
use log_source::output::Output;
use log_source::shelf::Shelf;
use log_source::sink::Sink;
use log_source::std_sink::StdSink;
use log_verdict::stops::NoRecords;
use program_ends::asked::{Asked, ProgramName};
use program_ends::command_line::{CommandLine, words_of};
use program_ends::database_notes::{
    is_database_missing, print_database_fault, print_listed_symbols, print_made_database,
};
use program_ends::ends::{ProgramEnd, UsedEnds, fresh_output, noted_files};
use program_ends::log_notes::{print_end, print_memory, prints_pipe_read_twice};
use program_ends::noted_shelf::NotedShelf;
use program_ends::notes::Notes;
use program_ends::usage_notes::print_usage;
use std::io;
use std::process::ExitCode;
use std::random::RandomSource;

/// The status that tells of logs, memory and output, where a run ended with one.
fn status_of_logs(status: CaseStatus) -> Option<Status> {
    match status {
        CaseStatus::Malformed => Some(Status::Malformed),
        CaseStatus::ReadFault => Some(Status::ReadFault),
        CaseStatus::WriteFault => Some(Status::WriteFault),
        CaseStatus::TooLong => Some(Status::TooLong),
        CaseStatus::Memory => Some(Status::Memory),
        CaseStatus::Done | CaseStatus::Refused | CaseStatus::Usage | CaseStatus::KeeperFault =>
            None,
    }
}

/// Says why a run ended with a status that tells of logs, memory or output, if it did.
fn tell_of_logs<N: Notes, F: Shelf>(
    notes: &N,
    asked: &Asked<'_>,
    status: CaseStatus,
    shelf: &NotedShelf<F>,
    stop: &Option<NoRecords>,
) {
    match status_of_logs(status) {
        Some(Status::Malformed) if prints_pipe_read_twice(notes, asked, shelf) => {}
        Some(status) => print_end(notes, asked, status, shelf, stop),
        None => {}
    }
}

/// Says on standard error why a run ended above 1, or of which symbol a list is that may be
/// meant otherwise.
fn tell<N: Notes, F: Shelf>(
    notes: &N,
    status: CaseStatus,
    words: &[String],
    shelf: &NotedShelf<F>,
    stop: &Option<NoRecords>,
) {
    let asked = Asked {
        program: ProgramName::Casebook,
        words,
    };
    match status {
        CaseStatus::Usage => print_usage(notes, &asked),
        CaseStatus::KeeperFault => {
            if let Some(path) = words.first() {
                print_database_fault(notes, "casebook", path.as_str(), true);
            }
        }
        CaseStatus::Done | CaseStatus::Refused => print_listed_symbols(notes, words),
        _ => tell_of_logs(notes, &asked, status, shelf, stop),
    }
}

/// Whether the words name a database that is not there.
fn names_missing_database<N: Notes>(notes: &N, words: &[String]) -> bool {
    match words.first() {
        Some(path) => is_database_missing(notes, path.as_str()),
        None => false,
    }
}

/// Says that a database was made, where it was missing before the run and is there.
fn tell_made_database<N: Notes>(notes: &N, words: &[String], was_missing: bool) {
    if let Some(path) = words.first() {
        print_made_database(notes, "casebook", path.as_str(), was_missing);
    }
}

/// Runs the commands that these words ask for, with hashes of a random seed, and closes the
/// casebook.
fn run_words<R: AllocGlobal + RandomSource, F: Shelf, K: Sink, O: Closing, N: Notes>(
    machine: &R,
    words: &[String],
    shelf: &mut NotedShelf<F>,
    out: &mut K,
    opener: &mut O,
    notes: &N,
) -> CaseStatus
    ensures { let shelves = ⟦<NotedShelf<F> as Shelf>⟧ in
        RunsThenCloses shelves O.state O.closes shelf.old shelf.new opener.old opener.new
        (map string_bytes words.now) (K.state out.old) (K.state out.new) result }
{
    let was_missing = names_missing_database(notes, words);
    let ran = run_and_close(machine.alloc(), seed_of(machine), words, shelf, out, opener);
    tell_made_database(notes, words, was_missing);
    tell(notes, ran.status, words, shelf, &ran.stop);
    ran.status
}

/// Runs the commands that the words of the command line ask for, and closes the casebook.
fn answer_words<
    R: CommandLine + AllocGlobal + RandomSource,
    F: Shelf,
    K: Sink,
    O: Closing,
    N: Notes,
>(machine: &R, shelf: &mut NotedShelf<F>, out: &mut K, opener: &mut O, notes: &N) -> CaseStatus
    ensures { let shelves = ⟦<NotedShelf<F> as Shelf>⟧ in
        AnswersCommandLine (CasebookAnswers shelves O.state O.closes) status.Memory
        (words_of_arguments (R.known_arguments machine.now))
        (record { shelf = shelf.old; opener = opener.old; sink = K.state out.old })
        (record { shelf = shelf.new; opener = opener.new; sink = K.state out.new }) result }
{
    match words_of(machine) {
        Ok(words) => run_words(machine, &words, shelf, out, opener, notes),
        Err(_) => {
            print_memory(notes, ProgramName::Casebook);
            CaseStatus::Memory
        }
    }
}

/// The exit code of a status: its number.
fn exit_code(status: CaseStatus) -> ExitCode
    ensures { exit_status result ≡ case_status_number status }
{
    ExitCode::from(status.number())
}

/// Answers the command line over these files, this output and this opener, whose casebook is then
/// closed, and says on `notes` why, where the status is above 1.
///
/// Nothing is known of the words, files, output and databases of the runtime. So the call of the
/// program says less than this one: that its process ends as some answer does. What it is handed is
/// seen in the code: the runtime itself as command line and files, its standard output, and an
/// opener of its databases.
pub fn answer_command_line<
    R: CommandLine + AllocGlobal + RandomSource,
    S: FileSystem + Drop,
    W: Output + Drop,
    O: Closing,
    N: Notes,
>(machine: &R, files: S, output: W, opener: &mut O, notes: &N) -> ProgramEnd<S, W>
    ensures { let shelf = ⟦<NotedShelf<FileShelf<S>> as Shelf>⟧ in
        let state = ⟦<StdSink<W> as Sink>⟧.state in
        EndsAsAnswer (CasebookAnswers shelf O.state O.closes) status.Memory case_status_number
        (words_of_arguments (R.known_arguments machine.now))
        (CasebookBegins shelf (S.tells files) (S.file_at files) (W.contents output) opener.old)
        (record {
          shelf = result.ends.shelf;
          opener = opener.new;
          sink = state result.ends.out;
        }) result.code }
{
    let mut shelf = noted_files(machine.alloc(), files);
    let mut out = fresh_output(output);
    let status = answer_words(machine, &mut shelf, &mut out, opener, notes);
    ProgramEnd {
        code: exit_code(status),
        ends: UsedEnds { shelf, out },
    }
}

/// Runs the program, and gives the exit code of its process.
pub fn run_casebook(rt: HostRuntime) -> ExitCode
    ensures { let shelf = ⟦<NotedShelf<FileShelf<HostRuntime>> as Shelf>⟧ in
        let closes = ⟦<FileOpener<HostRuntime> as Closing>⟧.closes in
        EndsAsSomeAnswer (CasebookAnswers shelf file_opener_state closes) status.Memory
        case_status_number (CasebookBeginsOverUnknown shelf file_opener_state) result }
{
    let mut opener = FileOpener::new(rt);
    answer_command_line(&rt, rt, io::writer(&rt), &mut opener, &rt).code
}
