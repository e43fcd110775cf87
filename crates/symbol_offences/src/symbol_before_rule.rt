//! What the records of two logs give of one symbol.
use audit_base::stamps::Stamp;
use day_records::kept_orders::KeptOrders;
use day_records::kept_trades::KeptTrades;
use record_verdict::before_rule::BeforeRule;

/// The records of a symbol that a letter may quote; none where none are to be quoted.
#[derive(Drop)]
pub struct QuotedRecords {
    pub orders: KeptOrders,
    pub trades: KeptTrades,
}

/// What the records of two logs give of one symbol: what its verdict is judged by, the times of its trades where
/// they are asked for, and its records where they are quoted.
#[derive(Drop)]
pub struct SymbolBeforeRule {
    pub given: BeforeRule,
    pub times: Vec<Stamp>,
    pub quoted: QuotedRecords,
}
