//! What the records of two logs of a day give before a rule is looked at.
use audit_base::findings::Finding;
use day_records::day_trades::DayRecords;

/// What the records of two logs of a day give before a rule is looked at.
#[derive(Drop)]
pub enum DayBeforeRule {
    /// A report of the trade log has no partner (`unpaired`), which is of the log and of no
    /// symbol.
    Unpaired(Finding),
    /// What is known of each symbol of the share.
    Read(DayRecords),
}
