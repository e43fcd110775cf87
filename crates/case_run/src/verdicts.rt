//! The verdict on the two logs that a command names.
ghost use Rattle.std.specs.Prelude.{◌≡◌, IfOk};
ghost use Rattle.audit_report.specs.Texts.{IsVerdictInRange};
ghost use Rattle.log_source.specs.Sources.{longest_log};
ghost use Rattle.log_verdict.specs.Steps.{reading, KeepsShelfLogs, FaultsNeverFall};
ghost use Rattle.case_run.specs.Turns.{EndsWithinOrHalts, GivesFilingVerdictOrHalt};

use super::commands::Filing;
use super::halts::Halt;
use audit_base::terms::Form;
use audit_report::verdicts::Verdict;
use command_words::paths::PathText;
use log_source::shelf::Shelf;
use log_verdict::sources::Source;
use log_verdict::verdicts::verdict_on;
use record_verdict::questions::Question;
use seeded_hash::seed::HashSeed;
use std::alloc::Global;

/// The log of this path, in this form, of at most 64 MiB, read with hashes of this seed.
fn source_of(path: &PathText, form: Form, seed: HashSeed) -> Source<'_>
    ensures name { result.name.now ≡ path.now }
    ensures form { result.form ≡ form }
    ensures limit { result.limit ≡ longest_log }
{
    Source::of(path.as_str(), form, seed)
}

/// The verdict on the two logs of a filing, or why there is none: that of `audit` without a table.
pub(crate) fn verdict_of<F: Shelf>(
    alloc: Global,
    seed: HashSeed,
    filing: &Filing,
    shelf: &mut F,
) -> Result<Verdict, Halt>
    ensures logs { KeepsShelfLogs F.Shelf shelf.old shelf.new }
    ensures later { FaultsNeverFall (reading F.Shelf shelf.old shelf.new) }
    ensures decides { GivesFilingVerdictOrHalt (reading F.Shelf shelf.old shelf.new) filing.now
        result }
    ensures within { EndsWithinOrHalts (reading F.Shelf shelf.old shelf.new) result }
    ensures in_range { IfOk result IsVerdictInRange }
{
    let question = Question {
        rule: filing.rule,
        symbol: filing.symbol,
        table: false,
    };
    let orders = source_of(&filing.orders, filing.form, seed);
    let trades = source_of(&filing.trades, filing.form, seed);
    match verdict_on(alloc, shelf, &question, &orders, &trades) {
        Ok(verdict) => Ok(verdict),
        Err(stop) => Err(Halt::from(stop)),
    }
}
