//! What the messages of orders and of trades have in common.
ghost use Rattle.std.specs.Prelude.{◌≡◌};

use crate::name_text::NameText;
use audit_base::names::{Key, Name};
use audit_base::stamps::Stamp;
use std::marker::Model;

/// Which order a message speaks of, when, and of which symbol.
#[derive(Clone, Copy)]
pub(crate) struct MessageHead {
    pub(crate) key: Key,
    pub(crate) time: Stamp,
    pub(crate) symbol: Name,
}

/// A head whose names are in a message. Contracts see the head.
#[derive(Drop)]
pub(crate) struct HeadText<'m> {
    pub(crate) firm: NameText<'m>,
    pub(crate) id: NameText<'m>,
    pub(crate) time: Stamp,
    pub(crate) symbol: NameText<'m>,
}

impl<'m> Model for HeadText<'m> {
    ghost use Rattle.fix_messages.specs.declared.heads.MessageHead.{MessageHead};

    ghost Value = { MessageHead };

    ghost view = { λ text. record {
      key = record { firm = text.firm; id = text.id };
      time = text.time;
      symbol = text.symbol;
    } };
}

impl<'m> HeadText<'m> {
    /// The symbol that is traded.
    pub(crate) fn symbol(&self) -> &[u8]
        ensures { result.now ≡ self.now.symbol }
    {
        self.symbol.bytes()
    }

    /// The head.
    pub(crate) fn head(&self) -> MessageHead
        ensures { result ≡ self.now }
    {
        MessageHead {
            key: Key {
                firm: self.firm.name(),
                id: self.id.name(),
            },
            time: self.time,
            symbol: self.symbol.name(),
        }
    }
}
