//! An order as it is in a message.
ghost use Rattle.std.specs.Prelude.{◌≡◌};
ghost use Rattle.audit_base.specs.Histories.{symbol_of};

use crate::heads::{HeadText, MessageHead};
use crate::name_text::NameText;
use audit_base::numbers::{Price, Quantity};
use audit_base::records::OrderRecord;
use audit_base::terms::{Life, Side};
use std::marker::Model;

/// What only one kind of order says.
#[derive(Drop)]
pub(crate) enum InstructionParts<'m> {
    New {
        side: Side,
        quantity: Quantity,
        price: Price,
        life: Life,
    },
    Cancel {
        target: NameText<'m>,
    },
    Replace {
        target: NameText<'m>,
        side: Side,
        quantity: Quantity,
        price: Price,
    },
}

/// A record of an order log whose names are in a message: it is made only where it is looked at.
/// Contracts see the record.
#[derive(Drop)]
pub(crate) struct OrderText<'m> {
    pub(crate) head: HeadText<'m>,
    pub(crate) parts: InstructionParts<'m>,
}

impl<'m> Model for OrderText<'m> {
    ghost use Rattle.audit_base.specs.declared.records.OrderRecord.{OrderRecord};
    ghost use Rattle.fix_messages.specs.OrderTexts.{order_of_text};

    ghost Value = { OrderRecord };

    ghost view = { λ order. order_of_text order.head order.parts };
}

impl<'m> OrderText<'m> {
    /// The symbol that it trades.
    pub(crate) fn symbol(&self) -> &[u8]
        ensures { result.now ≡ symbol_of self.now }
    {
        self.head.symbol()
    }

    /// The record.
    pub(crate) fn record(&self) -> OrderRecord
        ensures { result ≡ self.now }
    {
        let MessageHead { key, time, symbol } = self.head.head();
        match &self.parts {
            InstructionParts::New {
                side,
                quantity,
                price,
                life,
            } => OrderRecord::New {
                key,
                time,
                symbol,
                side: *side,
                quantity: *quantity,
                price: *price,
                life: *life,
            },
            InstructionParts::Cancel { target } => OrderRecord::Cancel {
                key,
                time,
                symbol,
                target: target.name(),
            },
            InstructionParts::Replace {
                target,
                side,
                quantity,
                price,
            } => OrderRecord::Replace {
                key,
                time,
                symbol,
                target: target.name(),
                side: *side,
                quantity: *quantity,
                price: *price,
            },
        }
    }
}
