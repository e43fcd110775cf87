//! The words of logs and sides.
ghost use Rattle.std.specs.Prelude.{◌≡◌};
ghost use Rattle.audit_report.specs.Lines as text;

use audit_base::terms::{Side, Which};

/// The word of a log.
pub fn log_word(log: Which) -> &'static [u8]
    ensures { result.now ≡ text.log_word log }
{
    match log {
        Which::Orders => b"orders",
        Which::Trades => b"trades",
    }
}

/// The word of a side.
pub fn side_word(side: Side) -> &'static [u8]
    ensures { result.now ≡ text.side_word side }
{
    match side {
        Side::Buy => b"buy",
        Side::Sell => b"sell",
    }
}
