//! The tables of accepted logs.
ghost use Rattle.std.specs.Prelude.{◌≡◌};

use audit_base::findings::OrderLine;
use std::marker::Model;

/// A line of a table.
#[derive(Clone, Copy, Debug, PartialEq, Eq)]
pub enum Line {
    /// Of a call: an order with what it has traded.
    Order(OrderLine),
    /// Of continuous trading: the places of a bid and an ask,
    /// and what they traded with one another.
    Pair { bid: u32, ask: u32, quantity: u128 },
}

/// A table of an accepted log. Contracts see the list of its lines. A log that is audited without a
/// table has an empty one.
#[derive(Debug, Drop)]
pub struct Table {
    lines: Vec<Line>,
}

impl Model for Table {
    ghost use Rattle.std.specs.Prelude.{List};
    ghost use Rattle.audit_report.specs.declared.tables.Line.{Line};

    ghost Value = { List Line };

    ghost view = { λ t. t.lines.items };
}

impl Table {
    /// The table of these lines.
    pub fn of(lines: Vec<Line>) -> Table
        ensures { result ≡ lines.items }
    {
        Table { lines }
    }

    /// The lines of the table.
    pub fn as_slice(&self) -> &[Line]
        ensures { result.now ≡ self.now }
    {
        self.lines.as_slice()
    }
}
