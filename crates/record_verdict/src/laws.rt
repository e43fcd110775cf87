//! What follows of the verdict on records, each as a contract with no body.
ghost use Rattle.record_verdict.specs.Laws.{RecordVerdictIsOne, SoundTradesHaveVerdict};

/// Two verdicts on one question about the records of two logs are the same verdict.
pub fn record_verdict_is_one()
    ensures { RecordVerdictIsOne }
{}

/// Where nothing is found before the rule, the verdict on the deals of the trades
/// is that on the records.
pub fn sound_trades_have_verdict()
    ensures { SoundTradesHaveVerdict }
{}
