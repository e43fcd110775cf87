//! The laws of a day of two logs, apart from what computes them. Each call does nothing: it only
//! has its contract.
ghost use Rattle.day_logs.specs.Laws.{OneDayAnswer, SharesHaveTheVerdicts};

use day_verdicts::laws::one_day;
use record_verdict::laws::record_verdict_is_one;

/// A symbol has the same verdict in every share of a day that has it, the whole day among them: so
/// its lines are there those that it has without a share.
pub fn shares_have_the_verdicts()
    ensures { SharesHaveTheVerdicts }
{
    record_verdict_is_one();
}

/// Two answers to a question about two logs, by a rule, have one text and one status, whatever
/// forms the logs are in.
pub fn one_day_answer()
    ensures { OneDayAnswer }
{
    one_day();
}
