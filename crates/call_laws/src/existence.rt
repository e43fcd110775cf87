//! That a call always has an answer. These laws ask for no memory, so they hold where a computation
//! of the same would run out of it.
ghost use Rattle.call_laws.specs.Existence.{LeastCutExists, GreatestExecutableVolumeExists, CallConformingListExists, ExpectedTradesExist, DuesExist, CallVerdictExists};

/// Each order list has a least cut, and a greatest executable volume,
/// over the prices from 0 to 10^18, each with the least price that reaches it.
pub fn extremes_exist()
    ensures cut { LeastCutExists }
    ensures executable { GreatestExecutableVolumeExists }
{}

/// Under each of the four rules of a call some list of deals conforms.
pub fn conforming_list_exists()
    ensures { CallConformingListExists }
{}

/// Under `uniform` and `maximum` there are Expected trades, and each order has a due:
/// the quantity that it trades in every list of deals that conforms.
pub fn expected_trades_and_dues_exist()
    ensures expected { ExpectedTradesExist }
    ensures dues { DuesExist }
{}

/// Under each of the four rules of a call every list of deals conforms or has a first offence.
pub fn rule_verdict_exists()
    ensures { CallVerdictExists }
{}
