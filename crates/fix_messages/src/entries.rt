//! What a kind of log has of its own, what the fields of a message
//! mean, and what a body says by that.
ghost use Rattle.std.specs.Prelude.{◌≡◌, ◌≤◌, ◌-◌, ◌∷◌, [], IfOk, IfSome, List, OnOk, Option, Result, length};
ghost use Rattle.std.specs.List.{slice_range};
ghost use Rattle.audit_base.specs.Sizes.{longest_body};
ghost use Rattle.fix_fields.specs.Grammar.{TagValue};
ghost use Rattle.fix_fields.specs.TagNotes.{HasNotes};
ghost use Rattle.fix_messages.specs.declared.meanings.MessageFault.{MessageFault};
ghost use Rattle.fix_messages.specs.Bodies.{body_says, fault_reason, with_reason};
ghost use Rattle.fix_messages.specs.BodyFields.{fields_of};
ghost use Rattle.fix_messages.specs.Steps.{TakesSaid};
ghost use Rattle.log_source.specs.Collectors.{HasPlace};
ghost use Rattle.log_source.specs.Handing.{HandsOnMore};

use crate::meanings::{MessageFault, Report};
use crate::message::Message;
use crate::order_texts::OrderText;
use crate::orders::order_text;
use crate::reports::{ReportText, report_text};
use audit_base::faults::{NoMemory, Reason};
use audit_base::records::{LogRecord, OrderRecord};
use audit_base::stamp_reader::StampReader;
use fix_fields::field::FieldFault;
use fix_fields::notes::TagNotes;
use fix_fields::split::note_front_fields;
use log_source::collector::Collector;

/// A record of a FIX log: an order, or a report of a trade.
pub trait FixRecord: LogRecord {
    // What the fields of a message mean: a record, or nothing.
    ghost meaning: { List TagValue → Result (Option Self) MessageFault };

    // What holds of every record that fields mean.
    ghost sound: { Self → Type 0 };

    /// Hands the record that the fields of a body mean to a collector, if they mean one, and
    /// gives the first test that they fail. The places of their values have been noted, and this
    /// reader reads their point in time.
    fn take_fields<K: Collector<Entry = Self>>(
        entries: &mut K,
        body: &[u8],
        notes: &TagNotes,
        stamps: &mut StampReader,
    ) -> Result<Result<(), Reason>, NoMemory>
        requires notes { HasNotes body.now notes.now }
        requires place { HasPlace K.has_taken entries.old }
        ensures { IfOk result (TakesSaid (with_reason (meaning (fields_of body.now)))
            (K.has_taken entries.old) (K.has_taken entries.new)) };

    /// Every record that fields mean is sound. This call does nothing: it only has its contract.
    fn means_sound_records()
        ensures { (fields : List TagValue) → IfOk (meaning fields) (λ found. IfSome found sound) };
}

impl FixRecord for OrderRecord {
    ghost use Rattle.fix_messages.specs.OrderTables.{order_of_message};
    ghost use Rattle.audit_base.specs.Histories.{HasMarketPrice};

    ghost meaning = { order_of_message };

    ghost sound = { HasMarketPrice };

    fn take_fields<K: Collector<Entry = OrderRecord>>(
        entries: &mut K,
        body: &[u8],
        notes: &TagNotes,
        stamps: &mut StampReader,
    ) -> Result<Result<(), Reason>, NoMemory> {
        let message = Message::of(body, notes);
        take_order(entries, order_text(&message, stamps))
    }

    fn means_sound_records() {}
}

impl FixRecord for Report {
    ghost use Rattle.std.specs.Prelude.{⊤};
    ghost use Rattle.fix_messages.specs.ReportTable.{report_of_message};

    ghost meaning = { report_of_message };

    ghost sound = { λ _. ⊤ };

    fn take_fields<K: Collector<Entry = Report>>(
        entries: &mut K,
        body: &[u8],
        notes: &TagNotes,
        stamps: &mut StampReader,
    ) -> Result<Result<(), Reason>, NoMemory> {
        let message = Message::of(body, notes);
        take_report(entries, report_text(&message, stamps))
    }

    fn means_sound_records() {}
}

/// A fault of a message as the reason of a bad place.
fn reason_of(fault: MessageFault) -> Reason
    ensures { result ≡ fault_reason fault }
{
    match fault {
        MessageFault::Missing(tag) => Reason::Missing(tag),
        MessageFault::Repeated(tag) => Reason::Repeated(tag),
        MessageFault::Value(tag) => Reason::Value(tag),
        MessageFault::Unsupported(tag) => Reason::Unsupported(tag),
    }
}

/// Makes the record of an order and hands it on. Room for a record is made ready where this is
/// called, so it is apart from the test whether the collector looks at the order.
fn keep_order<K: Collector<Entry = OrderRecord>>(
    entries: &mut K,
    order: &OrderText<'_>,
) -> Result<(), NoMemory>
    requires { HasPlace K.has_taken entries.old }
    ensures { OnOk result
        (HandsOnMore (K.has_taken entries.old) (K.has_taken entries.new) (order.now ∷ [])) }
{
    entries.take(order.record())
}

/// Hands on an order whose names are in a message. Its record is made
/// only where the collector looks at it.
fn hand_on_order<K: Collector<Entry = OrderRecord>>(
    entries: &mut K,
    order: &OrderText<'_>,
) -> Result<(), NoMemory>
    requires { HasPlace K.has_taken entries.old }
    ensures { OnOk result
        (HandsOnMore (K.has_taken entries.old) (K.has_taken entries.new) (order.now ∷ [])) }
{
    if entries.wants(order.symbol()) {
        keep_order(entries, order)
    } else {
        entries.pass_over();
        Ok(())
    }
}

/// The same of a report.
fn hand_on_report<K: Collector<Entry = Report>>(
    entries: &mut K,
    report: &ReportText<'_>,
) -> Result<(), NoMemory>
    requires { HasPlace K.has_taken entries.old }
    ensures { OnOk result
        (HandsOnMore (K.has_taken entries.old) (K.has_taken entries.new) (report.now ∷ [])) }
{
    if entries.wants(report.symbol()) {
        entries.take(report.record())
    } else {
        entries.pass_over();
        Ok(())
    }
}

/// Hands on the order that a message means, if it means one, and
/// gives the first test that it fails.
fn take_order<K: Collector<Entry = OrderRecord>>(
    entries: &mut K,
    meaning: Result<Option<OrderText<'_>>, MessageFault>,
) -> Result<Result<(), Reason>, NoMemory>
    requires { HasPlace K.has_taken entries.old }
    ensures { IfOk result (TakesSaid (with_reason meaning.entry) (K.has_taken entries.old)
        (K.has_taken entries.new)) }
{
    match meaning {
        Ok(Some(order)) => {
            hand_on_order(entries, &order)?;
            Ok(Ok(()))
        }
        Ok(None) => Ok(Ok(())),
        Err(fault) => Ok(Err(reason_of(fault))),
    }
}

/// The same of a report.
fn take_report<K: Collector<Entry = Report>>(
    entries: &mut K,
    meaning: Result<Option<ReportText<'_>>, MessageFault>,
) -> Result<Result<(), Reason>, NoMemory>
    requires { HasPlace K.has_taken entries.old }
    ensures { IfOk result (TakesSaid (with_reason meaning.entry) (K.has_taken entries.old)
        (K.has_taken entries.new)) }
{
    match meaning {
        Ok(report) => {
            if let Some(report) = report {
                hand_on_report(entries, &report)?;
            }
            Ok(Ok(()))
        }
        Err(fault) => Ok(Err(reason_of(fault))),
    }
}

/// Hands on the record that the body of a message means, if it means one, and gives the first
/// test that the body fails. The body is in a text from one byte on and up to another. Notes are
/// taken of its fields in place of what was noted before.
pub(crate) fn take_body<R: FixRecord, K: Collector<Entry = R>>(
    entries: &mut K,
    text: &[u8],
    from: usize,
    to: usize,
    notes: &mut TagNotes,
    stamps: &mut StampReader,
) -> Result<Result<(), Reason>, NoMemory>
    requires place { HasPlace K.has_taken entries.old }
    requires ordered { from ≤ to }
    requires inside { to ≤ length text.now }
    requires short { to - from ≤ longest_body }
    ensures { IfOk result (TakesSaid (body_says R.meaning (slice_range text.now from to))
        (K.has_taken entries.old) (K.has_taken entries.new)) }
{
    let body = &text[from..to];
    match note_front_fields(&text[from..], to - from, notes) {
        Ok(()) => R::take_fields(entries, body, notes, stamps),
        Err(FieldFault::Field(at)) => Ok(Err(Reason::Field(at))),
        Err(FieldFault::MsgType) => Ok(Err(Reason::MsgType)),
        Err(FieldFault::Memory) => Err(NoMemory),
    }
}
