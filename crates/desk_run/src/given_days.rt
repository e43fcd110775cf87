//! What two logs of a day give the commands that judge it, or a symbol of it, as `command_run`
//! speaks of it.
use command_run::answers::Answer;
use command_run::given_logs::GivenByLogs;
use day_logs::answers::{DayAnswer, DayQuestion};
use day_symbols::shares::DayShare;
use further_checks::findings::FurtherChecks;
use session_audit::phases::PhaseList;
use symbol_offences::questions::OffenceQuestion;

/// Two logs give the answer to a day by a rule.
pub struct GivenVerdicts;

impl GivenByLogs for GivenVerdicts {
    ghost use Rattle.std.specs.Prelude.{◌≡◌};
    ghost use Rattle.day_logs.specs.declared.answers.DayAnswer.TheVariants.{Malformed};
    ghost use Rattle.day_logs.specs.DayAnswers.{IsAnswerToRecords, AreVerdictsOfDay};

    type Given = (DayQuestion, DayAnswer);

    ghost of_records = { λ given entries paired.
        IsAnswerToRecords (AreVerdictsOfDay given.0) entries paired given.1 };

    ghost of_bad = { λ given log bad. given.1 ≡ Malformed log bad };
}

/// Two logs give the answer to a day of phases, of the symbols of a share, with tables or without,
/// and behind the phases the further checks that are asked for.
pub struct GivenSessions;

impl GivenByLogs for GivenSessions {
    ghost use Rattle.std.specs.Prelude.{◌≡◌};
    ghost use Rattle.day_logs.specs.declared.answers.DayAnswer.TheVariants.{Malformed};
    ghost use Rattle.day_logs.specs.DayAnswers.{IsAnswerToRecords};
    ghost use Rattle.day_sessions.specs.JudgedSessions.{AreSessionsOfDay};

    type Given = (PhaseList, bool, FurtherChecks, DayShare, DayAnswer);

    ghost of_records = { λ given entries paired. IsAnswerToRecords
        (AreSessionsOfDay given.0 given.1 given.2 given.3) entries paired given.4 };

    ghost of_bad = { λ given log bad. given.4 ≡ Malformed log bad };
}

/// Two logs give the answer about the offences of a symbol.
pub struct GivenOffences;

impl GivenByLogs for GivenOffences {
    ghost use Rattle.audit_report.specs.declared.verdicts.Verdict.TheVariants.{Malformed};
    ghost use Rattle.command_run.specs.Deciding.{IsAnswerOfKind};
    ghost use Rattle.command_run.specs.VerdictAnswers.{IsVerdictAnswer};
    ghost use Rattle.symbol_offences.specs.OffenceAnswers.{IsOffencesOfRecords};

    type Given = (OffenceQuestion, Answer);

    ghost of_records = { λ given entries paired.
        IsAnswerOfKind (IsOffencesOfRecords given.0 entries paired) given.1 };

    ghost of_bad = { λ given log bad.
        IsAnswerOfKind (IsVerdictAnswer (Malformed log bad)) given.1 };
}
