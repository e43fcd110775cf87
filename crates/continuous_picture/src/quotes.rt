//! The best limits of both sides after a record.
use audit_base::numbers::Price;

/// The limit of the best active order of each side, if there is one.
#[derive(Clone, Copy, Debug, PartialEq, Eq)]
pub struct Quote {
    pub bid: Option<Price>,
    pub ask: Option<Price>,
}
