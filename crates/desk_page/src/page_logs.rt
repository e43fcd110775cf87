//! The names of two logs and their digests, as a page tells them.
ghost use Rattle.std.specs.Prelude.{◌≡◌};
ghost use Rattle.hex.specs.Hex.{encode_lower};
ghost use Rattle.desk_page.specs.PageLogs.{NamesLogs};

use desk_words::requests::NamedLogs;
use log_digests::digests::LogDigests;
use page_parts::repeats::PageLogs;

/// The digits of the digests of the two logs of a page, 64 in lower case each: those that
/// `sha256sum` writes.
#[derive(Clone, Copy, Debug)]
pub(crate) struct PageDigits {
    pub(crate) orders: [u8; 64],
    pub(crate) trades: [u8; 64],
}

/// The digits of both.
pub(crate) fn digits_of(digests: &LogDigests) -> PageDigits
    ensures orders { result.orders ≡ encode_lower digests.now.orders }
    ensures trades { result.trades ≡ encode_lower digests.now.trades }
{
    PageDigits {
        orders: digests.orders.digits(),
        trades: digests.trades.digits(),
    }
}

/// The logs of a page, with the digits of these digests.
pub(crate) fn named_logs<'a>(
    logs: &'a NamedLogs,
    digests: &LogDigests,
    digits: &'a PageDigits,
) -> PageLogs<'a>
    requires orders { digits.now.orders ≡ encode_lower digests.now.orders }
    requires trades { digits.now.trades ≡ encode_lower digests.now.trades }
    ensures { NamesLogs logs.now digests.now result }
{
    PageLogs {
        orders: logs.orders.as_str().as_bytes(),
        trades: logs.trades.as_str().as_bytes(),
        orders_form: logs.orders_form,
        trades_form: logs.trades_form,
        orders_digest: &digits.orders,
        trades_digest: &digits.trades,
    }
}
