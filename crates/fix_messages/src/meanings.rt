//! What one message means.
use audit_base::records::OrderRecord;
use thiserror::Error;
pub use trade_reports::reports::Report;

/// What a message of an order log means.
#[derive(Clone, Copy, Debug, PartialEq, Eq)]
pub enum OrderMeaning {
    /// Nothing: the message is passed over.
    Skip,
    Entry(OrderRecord),
}

/// What a message of a trade log means.
#[derive(Clone, Copy, Debug, PartialEq, Eq)]
pub enum ReportMeaning {
    /// Nothing: the message is passed over.
    Skip,
    Entry(Report),
}

/// The first test that a message fails, by the tag that is tested.
#[derive(Clone, Copy, Debug, PartialEq, Eq, Error)]
pub enum MessageFault {
    #[error("tag {0} is missing")]
    Missing(u32),
    #[error("tag {0} occurs more than once")]
    Repeated(u32),
    #[error("the value of tag {0} is not in its form")]
    Value(u32),
    #[error("the value of tag {0} is not supported")]
    Unsupported(u32),
}
