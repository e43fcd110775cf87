//! The messages of a trade log: execution reports of a trade.
ghost use Rattle.std.specs.Prelude.{◌≡◌};
ghost use Rattle.fix_fields.specs.Ranges.{AreFieldsOf, tag_values_of};
ghost use Rattle.fix_messages.specs.ReportTable.{trade_report, is_other, is_skipped_message, report_of_message, report_meaning};

use crate::heads::{HeadText, MessageHead};
use crate::meanings::{MessageFault, Report, ReportMeaning};
use crate::message::Message;
use crate::name_text::NameText;
use crate::rows::{
    head_at, is_copy, is_word, name_at, price_at, quantity_at, side_at, type_at, word_at,
};
use audit_base::numbers::{Price, Quantity};
use audit_base::stamp_reader::StampReader;
use audit_base::terms::Side;
use fix_fields::field::Field;
use fix_fields::notes::TagNotes;
use std::marker::Model;

/// A report of a trade whose names are in a message: its record is made only where it is looked
/// at. Contracts see the record.
#[derive(Drop)]
pub(crate) struct ReportText<'m> {
    trade: NameText<'m>,
    head: HeadText<'m>,
    side: Side,
    quantity: Quantity,
    price: Price,
}

impl<'m> Model for ReportText<'m> {
    ghost use Rattle.trade_reports.specs.declared.reports.Report.{Report};

    ghost Value = { Report };

    ghost view = { λ text. record {
      trade = text.trade;
      key = text.head.key;
      time = text.head.time;
      symbol = text.head.symbol;
      side = text.side;
      quantity = text.quantity;
      price = text.price;
    } };
}

impl<'m> ReportText<'m> {
    /// The symbol that was traded.
    pub(crate) fn symbol(&self) -> &[u8]
        ensures { result.now ≡ self.now.symbol }
    {
        self.head.symbol()
    }

    /// The record.
    pub(crate) fn record(&self) -> Report
        ensures { result ≡ self.now }
    {
        let MessageHead { key, time, symbol } = self.head.head();
        Report {
            trade: self.trade.name(),
            key,
            time,
            symbol,
            side: self.side,
            quantity: self.quantity,
            price: self.price,
        }
    }
}

/// Type 8 with execution type F, a report of a trade.
#[tactic(auto, unfolding(crate::specs::ReportTable::trade_report))]
fn trade_report<'m>(
    message: &'m Message<'_>,
    stamps: &mut StampReader,
) -> Result<ReportText<'m>, MessageFault>
    ensures { result ≡ trade_report message.now }
{
    type_at(b"8", message)?;
    word_at(b"F", 150, message)?;
    let trade = name_at(527, message)?;
    let head = head_at(56, message, stamps)?;
    let side = side_at(54, message)?;
    let quantity = quantity_at(32, message)?;
    let price = price_at(31, message)?;
    Ok(ReportText {
        trade,
        head,
        side,
        quantity,
        price,
    })
}

/// Whether the message reports something else than a trade.
fn is_other(message: &Message<'_>) -> bool
    ensures { result ≡ is_other message.now }
{
    // Most reports are of a trade: for them one look at the value is enough.
    !is_word(b"F", message.first(150)) && message.has(150)
}

/// Whether the message is of another type, a copy, or a report of something else than a trade.
fn is_passed_over(message: &Message<'_>) -> bool
    ensures { result ≡ is_skipped_message message.now }
{
    !is_word(b"8", message.kind()) || is_copy(message) || is_other(message)
}

/// The report that a message means, as it is in the message, or
/// nothing, or the first test that fails.
#[tactic(auto, unfolding(crate::specs::ReportTable::report_of_message))]
pub(crate) fn report_text<'m>(
    message: &'m Message<'_>,
    stamps: &mut StampReader,
) -> Result<Option<ReportText<'m>>, MessageFault>
    ensures { result ≡ report_of_message message.now }
{
    if is_passed_over(message) {
        Ok(None)
    } else {
        Ok(Some(trade_report(message, stamps)?))
    }
}

/// What a message of a trade log means, by its body and the fields that the body has: nothing, a
/// report of a trade, or the first test that fails of the table of a report. It takes no memory.
pub fn report_of(body: &[u8], fields: &[Field]) -> Result<ReportMeaning, MessageFault>
    requires { AreFieldsOf body.now fields.now }
    ensures { result ≡ report_meaning (tag_values_of body.now fields.now) }
{
    let mut notes = TagNotes::new();
    let message = Message::with_fields(body, fields, &mut notes);
    match report_text(&message, &mut StampReader::new())? {
        Some(report) => Ok(ReportMeaning::Entry(report.record())),
        None => Ok(ReportMeaning::Skip),
    }
}
