//! That the records of two logs always have a verdict, apart from every call: so this holds where
//! a call would run out of memory.
ghost use Rattle.record_verdict.specs.Existence.{RecordVerdictExists};

use call_laws::existence::extremes_exist;
use call_laws::laws::only_quantities;
use call_laws::optimum::{maximum_trades_are_expected, uniform_trades_are_expected};
use continuous_laws::laws::continuous_uniqueness;
use verdict_laws::existence::{verdict_exists, verdict_is_the_only_one};

/// Under each of the five rules the records of two logs, with numbers in range, have a verdict.
/// An accepted log has a bound where its rule asks for one, and its quantities are the only ones.
pub fn a_record_verdict_exists()
    ensures { RecordVerdictExists }
{
    verdict_exists();
    verdict_is_the_only_one();
    extremes_exist();
    maximum_trades_are_expected();
    uniform_trades_are_expected();
    only_quantities();
    continuous_uniqueness();
}
