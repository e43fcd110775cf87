//! What the program `desk` does with what its machine gives it: the arguments, files, standard
//! output, an opener of databases over files and a random seed are handed to the call that the
//! first word is for (`calls`), and the number of its status is what the process ends with
//! (`ends`). Where it is above 1, and where a database was made, one line on standard error says so
//! (`notes`, `program_ends`).
//!
//! All of it is `answer_command_line`, over any command line, files, output, opener and notes. The
//! program is one call of it with the runtime's.
#![tactic(auto)]

ghost use Rattle.std.specs.Prelude.{map};
ghost use Rattle.std.specs.String.{string_bytes};
ghost use Rattle.audit_report.specs.declared.statuses.Status.TheVariants as status;
ghost use Rattle.desk_program.specs.Answers.{DeskAnswersWords, DeskBegins, DeskBeginsOverUnknown, desk_end_number};
ghost use Rattle.desk_program.specs.declared.ends.DeskEnd.TheVariants as ended;
ghost use Rattle.digest_database_files.specs.FileDigestOpeners.{digest_file_opener_state};
ghost use Rattle.program_ends.specs.CommandLines.{words_of_arguments};
ghost use Rattle.program_ends.specs.ProgramAnswers.{AnswersCommandLine, EndsAsAnswer, EndsAsSomeAnswer};

mod calls;
pub mod ends;
mod notes;
pub mod pictures;

use crate::calls::ask_call;
use crate::ends::{DeskEnd, exit_code};
use crate::notes::{names_missing_database, tell, tell_made_database, tell_no_memory};
use audit_report::statuses::Status;
use command_words::arguments::seed_of;
use digest_database_files::closing::ClosingDigests;
use digest_database_files::file_opener::FileDigestOpener;
use log_source::file_shelf::FileShelf;
use log_source::file_system::FileSystem;
use log_source::output::Output;
use log_source::shelf::Shelf;
use log_source::sink::Sink;
use log_source::std_sink::StdSink;
use program_ends::command_line::{CommandLine, words_of};
use program_ends::ends::{ProgramEnd, UsedEnds, fresh_output, noted_files};
use program_ends::noted_shelf::NotedShelf;
use program_ends::notes::Notes;
use std::io;
use std::process::ExitCode;
use std::random::RandomSource;

/// How a run ended, and the shelf that its logs were read from.
#[derive(Drop)]
struct DeskRunEnd<F> {
    end: DeskEnd,
    shelf: NotedShelf<F>,
}

/// Runs the command that these words ask for, with hashes of a random seed.
fn run_words<R: AllocGlobal + RandomSource, F: Shelf, K: Sink, O: ClosingDigests, N: Notes>(
    machine: &R,
    words: &[String],
    shelf: NotedShelf<F>,
    out: &mut K,
    opener: &mut O,
    notes: &N,
) -> DeskRunEnd<F>
    ensures { let shelves = ⟦<NotedShelf<F> as Shelf>⟧ in
        DeskAnswersWords shelves O.state O.closes (map string_bytes words.now)
        (record { shelf = shelf; opener = opener.old; sink = K.state out.old })
        (record { shelf = result.shelf; opener = opener.new; sink = K.state out.new }) result.end }
{
    let was_missing = names_missing_database(notes, words);
    let ran = ask_call(machine.alloc(), seed_of(machine), words, shelf, out, opener);
    tell_made_database(notes, words, was_missing);
    tell(notes, ran.status, words, &ran.back, &ran.stop);
    DeskRunEnd {
        end: ran.status,
        shelf: ran.back,
    }
}

/// Runs the command that the words of the command line ask for.
fn answer_words<
    R: CommandLine + AllocGlobal + RandomSource,
    F: Shelf,
    K: Sink,
    O: ClosingDigests,
    N: Notes,
>(machine: &R, shelf: NotedShelf<F>, out: &mut K, opener: &mut O, notes: &N) -> DeskRunEnd<F>
    ensures { let shelves = ⟦<NotedShelf<F> as Shelf>⟧ in
        AnswersCommandLine (DeskAnswersWords shelves O.state O.closes) (ended.Run status.Memory)
        (words_of_arguments (R.known_arguments machine.now))
        (record { shelf = shelf; opener = opener.old; sink = K.state out.old })
        (record { shelf = result.shelf; opener = opener.new; sink = K.state out.new }) result.end }
{
    match words_of(machine) {
        Ok(words) => run_words(machine, &words, shelf, out, opener, notes),
        Err(_) => {
            tell_no_memory(notes);
            DeskRunEnd {
                end: DeskEnd::Run(Status::Memory),
                shelf,
            }
        }
    }
}

/// Answers the command line over these files, this output and this opener, whose database is then
/// closed, and says on `notes` why, where the status is above 1.
///
/// Nothing is known of the words, files, output and databases of the runtime. So the call of the
/// program says less than this one: that its process ends as some answer does. What it is handed is
/// seen in the code: the runtime itself as command line and files, its standard output, and an
/// opener of its databases.
pub fn answer_command_line<
    R: CommandLine + AllocGlobal + RandomSource,
    S: FileSystem + Drop,
    W: Output + Drop,
    O: ClosingDigests,
    N: Notes,
>(machine: &R, files: S, output: W, opener: &mut O, notes: &N) -> ProgramEnd<S, W>
    ensures { let shelf = ⟦<NotedShelf<FileShelf<S>> as Shelf>⟧ in
        let state = ⟦<StdSink<W> as Sink>⟧.state in
        EndsAsAnswer (DeskAnswersWords shelf O.state O.closes) (ended.Run status.Memory)
        desk_end_number (words_of_arguments (R.known_arguments machine.now))
        (DeskBegins shelf (S.tells files) (S.file_at files) (W.contents output) opener.old)
        (record {
          shelf = result.ends.shelf;
          opener = opener.new;
          sink = state result.ends.out;
        }) result.code }
{
    let shelf = noted_files(machine.alloc(), files);
    let mut out = fresh_output(output);
    let answered = answer_words(machine, shelf, &mut out, opener, notes);
    ProgramEnd {
        code: exit_code(answered.end),
        ends: UsedEnds {
            shelf: answered.shelf,
            out,
        },
    }
}

/// Runs the program, and gives the exit code of its process.
pub fn run_desk_program(rt: HostRuntime) -> ExitCode
    ensures { let shelf = ⟦<NotedShelf<FileShelf<HostRuntime>> as Shelf>⟧ in
        let closes = ⟦<FileDigestOpener<HostRuntime> as ClosingDigests>⟧.closes in
        EndsAsSomeAnswer (DeskAnswersWords shelf digest_file_opener_state closes)
        (ended.Run status.Memory) desk_end_number
        (DeskBeginsOverUnknown shelf digest_file_opener_state) result }
{
    let mut opener = FileDigestOpener::new(rt);
    answer_command_line(&rt, rt, io::writer(&rt), &mut opener, &rt).code
}
