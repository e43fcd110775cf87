//! The command `page`, as `command_run` speaks of programs and of what two logs give.
ghost use Rattle.desk_page.specs.PageLogs.{ShelfLogs};

use crate::drawings::Drawing;
use crate::requests::PageRequest;
use command_run::answers::Answer;
use command_run::given_logs::GivenByLogs;
use command_run::programs::Program;
use desk_words::texts::desk_usage_text;
use std::marker::{Brand, PhantomData};

/// Which logs a shelf has, for proofs alone: what a page answers depends on them by its digests.
/// Whoever asks for a page picks them, at `Brand`.
pub trait PageLogsGhost {
    ghost shelf: { ShelfLogs };
}

impl PageLogsGhost for Brand {
    ghost use Rattle.std.specs.Prelude.{false, None};

    ghost shelf = { record { tells = false; log_of = λ log name. None } };
}

/// The program whose one command is `page`, with pictures of this maker, over a shelf of these
/// logs.
pub struct Pages<D, W> {
    drawing: PhantomData<D>,
    logs: PhantomData<W>,
}

impl<D: Drawing, W: PageLogsGhost> Program for Pages<D, W> {
    ghost use Rattle.desk_words.specs.Texts.{desk_usage_line};
    ghost use Rattle.desk_page.specs.Requests.{page_command};

    type Request = PageRequest;

    ghost command = { page_command D.is_picture W.shelf };

    ghost usage = { desk_usage_line };

    fn usage_line() -> &'static [u8] {
        desk_usage_text()
    }
}

/// Two logs of a shelf give the answer about a symbol: the page of its verdict, or that it is
/// absent.
pub struct GivenPage<D, W> {
    drawing: PhantomData<D>,
    logs: PhantomData<W>,
}

impl<D: Drawing, W: PageLogsGhost> GivenByLogs for GivenPage<D, W> {
    ghost use Rattle.audit_report.specs.declared.verdicts.Verdict.TheVariants.{Malformed};
    ghost use Rattle.command_run.specs.Deciding.{IsAnswerOfKind};
    ghost use Rattle.command_run.specs.VerdictAnswers.{IsVerdictAnswer};
    ghost use Rattle.desk_page.specs.PageAnswers.{IsAnswerToRecords};

    type Given = (PageRequest, Answer);

    ghost of_records = { λ given entries paired.
        IsAnswerOfKind (IsAnswerToRecords D.is_picture W.shelf given.0 entries paired) given.1 };

    ghost of_bad = { λ given log bad.
        IsAnswerOfKind (IsVerdictAnswer (Malformed log bad)) given.1 };
}
