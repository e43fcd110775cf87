//! The verdicts on the symbols of two logs of a shelf.
ghost use Rattle.std.specs.Prelude.{◌≡◌, IfOk};
ghost use Rattle.log_verdict.specs.BothLogs.{HaveOneLimit, StaysWithin};
ghost use Rattle.log_verdict.specs.Steps.{reading_by, KeepsShelfLogs, FaultsNeverFall};
ghost use Rattle.record_verdict.specs.Scopes.{admission_of};
ghost use Rattle.day_logs.specs.DayAnswers.{GivesDayAnswerOrStop};
ghost use Rattle.day_logs.specs.DayAnswers.{day_without, IsAnswerUpToRule, AreVerdictsOfDay};
ghost use Rattle.day_logs.specs.DayBeforeRule.{IsDayWithFewTrades};

use crate::before_rule::DayBeforeRule;
use crate::reading::read_day;
use audit_base::faults::{BadPlace, NoMemory};
use audit_base::findings::Finding;
use audit_base::terms::{Rule, Which};
use day_symbols::shares::DayShare;
use day_verdicts::judging::{JudgedSymbols, judge_day};
use further_checks::findings::FurtherChecks;
use log_source::shelf::Shelf;
use log_verdict::sources::Source;
use log_verdict::stops::{NoRecords, Stop};
use record_verdict::scopes::Admission;
use std::alloc::Global;

/// What is asked of a day: the verdicts of a rule on the symbols of a share, and of those that it
/// accepts whether they pass the further checks.
#[derive(Clone, Copy, Debug)]
pub struct DayQuestion {
    pub rule: Rule,
    /// Whether the tables of accepted symbols are asked for.
    pub table: bool,
    /// Which of the further checks are asked for.
    pub checks: FurtherChecks,
    pub share: DayShare,
}

/// The answer to two logs of a day.
#[derive(Drop)]
pub enum DayAnswer {
    /// A log is not in its grammar, and this is its first bad place.
    Malformed { log: Which, bad: BadPlace },
    /// A report of the trade log has no partner (`unpaired`), which is of the log and of no
    /// symbol.
    Unpaired(Finding),
    /// What is told of the symbols of the share: how many there are, and their lines.
    Judged(JudgedSymbols),
}

/// The answer to two logs that were not read into records: their first bad place, or there is none.
pub fn day_without(why: NoRecords) -> Result<DayAnswer, Stop>
    ensures { result ≡ day_without why }
{
    match why {
        NoRecords::Malformed { log, bad } => Ok(DayAnswer::Malformed { log, bad }),
        NoRecords::Stopped(stop) => Err(stop),
    }
}

/// The answer to what the records of two logs give before the rule is looked at.
fn answer_after(
    alloc: Global,
    question: &DayQuestion,
    given: DayBeforeRule,
) -> Result<DayAnswer, NoMemory>
    requires { IsDayWithFewTrades question.now.share (admission_of question.now.rule) given }
    ensures { let admission = admission_of question.now.rule in IfOk result
        (IsAnswerUpToRule question.now.share admission (AreVerdictsOfDay question.now) given) }
{
    match given {
        DayBeforeRule::Unpaired(finding) => Ok(DayAnswer::Unpaired(finding)),
        DayBeforeRule::Read(ended) => {
            let judged = judge_day(
                alloc,
                question.rule,
                question.table,
                question.checks,
                question.share,
                ended,
            )?;
            Ok(DayAnswer::Judged(judged))
        }
    }
}

/// The verdicts on the symbols of a share of two logs, or why there are none. The order log is read
/// first, piece by piece, and the trade log only where that is in its grammar; each is read once.
/// What is kept is what a single audit keeps, of each symbol of the share, and of the others the
/// name alone; the memory of a symbol is freed before the next is judged. A symbol that the rule
/// accepts is rejected by the first finding of the checks that are asked for.
///
/// Both logs have one limit, the greatest number of bytes that each may have. Where that is
/// `LONGEST_READ`, each place fits in 32 bits, since a record has at least nine bytes of its log.
/// `ReadFault` comes only where a log could not be read, `TooLong` only where one has more bytes
/// than the limit, and `Memory` where memory ran out: so where the shelf has both logs within the
/// limit and no fault rises, the answer is the one to these logs, or memory ran out.
pub fn verdicts_on<F: Shelf>(
    alloc: Global,
    shelf: &mut F,
    question: &DayQuestion,
    orders: &Source<'_>,
    trades: &Source<'_>,
) -> Result<DayAnswer, Stop>
    requires limit { HaveOneLimit orders.now trades.now }
    ensures logs { KeepsShelfLogs F.Shelf shelf.old shelf.new }
    ensures later { FaultsNeverFall (reading_by orders.now F.Shelf shelf.old shelf.new) }
    ensures decides { GivesDayAnswerOrStop (reading_by orders.now F.Shelf shelf.old shelf.new)
        (AreVerdictsOfDay question.now) orders.now trades.now result }
    ensures within { StaysWithin (reading_by orders.now F.Shelf shelf.old shelf.new) result }
{
    let admission = Admission::of(question.rule);
    match read_day(alloc, shelf, question.share, admission, orders, trades) {
        Ok(given) => Ok(answer_after(alloc, question, given)?),
        Err(why) => day_without(why),
    }
}
