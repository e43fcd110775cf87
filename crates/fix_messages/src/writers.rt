//! Writing logs: one message for an order, two for a trade. A value of a field is always the
//! canonical text of what it says.
ghost use Rattle.std.specs.Prelude.{◌≡◌, ◌∷◌, ◌++◌, [], IfOk, IsTrue, Ok, OnErr, OnOk, map};
ghost use Rattle.audit_base.specs.Names.{is_name};
ghost use Rattle.audit_base.specs.Numbers.{IsPrice, IsQuantity};
ghost use Rattle.fix_fields.specs.Grammar.{bytes_of};
ghost use Rattle.fix_messages.specs.Logs.{fix_order_records, fix_report_records};
ghost use Rattle.trade_reports.specs.Pairings.{pairing};
ghost use Rattle.fix_messages.specs.Steps.{are_short_fields, fix_cancel_order, fix_new_order, fix_replace_order, field_written};
ghost use Rattle.audit_base.specs.Histories.{HasMarketPrice};
ghost use Rattle.trade_reports.specs.Reports.{reports_of};
ghost use Rattle.fix_messages.specs.Written.{IsHead, IsOrderInForm, IsReportInForm, IsTradeInForm, field, head_fields, limit_fields, order_fields, order_message, report_fields, report_message, message_side_text, size_fields, trade_message_pair};

use crate::heads::MessageHead;
use crate::meanings::Report;
use audit_base::faults::NoMemory;
use audit_base::field_texts::{price_text, quantity_text, stamp_text};
use audit_base::names::Name;
use audit_base::numbers::{Price, Quantity};
use audit_base::records::{LogRecord, OrderRecord, TradeRecord};
use audit_base::terms::{Life, Side};
use fix_fields::write::write_field;
use fix_framing::writing::write_frame;
use std::alloc::Global;
use trade_reports::laws::reports_are_paired_again;
use trade_reports::reports::report_to;

/// Who an order goes to (tag 56), and who a report comes from (tag 49).
const EXCHANGE: &[u8] = b"EXCHANGE";

/// The values of tag 40, OrdType.
const MARKET: &[u8] = b"1";

const LIMIT: &[u8] = b"2";

/// Immediate or cancel, of tag 59, TimeInForce.
const IMMEDIATE: &[u8] = b"3";

/// Appends fields. Each value that is written is 1 to 64 bytes of those that a name may hold.
fn write_fields(alloc: Global, fields: &[(u32, &[u8])], body: &mut Vec<u8>) -> Result<(), NoMemory>
    requires { IsTrue (are_short_fields (map field_written fields.now)) }
    ensures { OnOk result (body.new.items
        ≡ body.old.items ++ bytes_of (map field_written fields.now)) }
{
    for (tag, value) in fields {
        write_field(alloc, *tag, value, body)?;
    }
    Ok(())
}

/// The value of tag 54, Side: `1` for a bid, `2` for an ask.
fn side_bytes(side: Side) -> &'static [u8]
    ensures text { result.now ≡ message_side_text side }
    ensures short { IsTrue (is_name result.now) }
{
    match side {
        Side::Buy => b"1",
        Side::Sell => b"2",
    }
}

/// What an order asks for.
#[derive(Clone, Copy)]
struct MessageTerms {
    side: Side,
    quantity: Quantity,
    price: Price,
}

/// The fields that the messages of an order log begin with.
fn write_head(
    alloc: Global,
    kind: &[u8],
    head: &MessageHead,
    body: &mut Vec<u8>,
) -> Result<(), NoMemory>
    requires { IsTrue (is_name kind.now) }
    ensures appended { let entry = head.now in
        let fields = head_fields kind.now entry.key entry.time entry.symbol in
        OnOk result (body.new.items ≡ body.old.items ++ bytes_of fields) }
    ensures in_form { OnOk result (IsHead head.now.key head.now.time head.now.symbol) }
{
    let time = stamp_text(alloc, head.time)?;
    let fields: [(u32, &[u8]); 6] = [
        (35, kind),
        (49, head.key.firm.bytes()),
        (56, EXCHANGE),
        (11, head.key.id.bytes()),
        (60, &time),
        (55, head.symbol.bytes()),
    ];
    write_fields(alloc, &fields, body)
}

/// The fields of a side and a quantity.
fn write_size(alloc: Global, terms: &MessageTerms, body: &mut Vec<u8>) -> Result<(), NoMemory>
    ensures appended { let fields = size_fields terms.now.side terms.now.quantity in
        OnOk result (body.new.items ≡ body.old.items ++ bytes_of fields) }
    ensures in_range { OnOk result (IsQuantity terms.now.quantity) }
{
    let quantity = quantity_text(alloc, terms.quantity)?;
    let fields: [(u32, &[u8]); 2] = [(54, side_bytes(terms.side)), (38, &quantity)];
    write_fields(alloc, &fields, body)
}

/// The fields of an order type, a price and a life.
fn write_limit(alloc: Global, life: Life, price: Price, body: &mut Vec<u8>) -> Result<(), NoMemory>
    ensures appended { let fields = limit_fields life price in
        OnOk result (body.new.items ≡ body.old.items ++ bytes_of fields) }
    ensures in_range { OnOk result (IsPrice price) }
{
    let text = price_text(alloc, price)?;
    match life {
        Life::Rests => {
            let fields: [(u32, &[u8]); 2] = [(40, LIMIT), (44, &text)];
            write_fields(alloc, &fields, body)
        }
        Life::Immediate => {
            let fields: [(u32, &[u8]); 3] = [(40, LIMIT), (44, &text), (59, IMMEDIATE)];
            write_fields(alloc, &fields, body)
        }
        Life::Market => {
            let fields: [(u32, &[u8]); 1] = [(40, MARKET)];
            write_fields(alloc, &fields, body)
        }
    }
}

/// The field of the order that is cancelled or replaced: OrigClOrdID (tag 41).
fn write_target(alloc: Global, target: &Name, body: &mut Vec<u8>) -> Result<(), NoMemory>
    ensures appended { let fields = field 41 target.now ∷ [] in
        OnOk result (body.new.items ≡ body.old.items ++ bytes_of fields) }
    ensures in_form { OnOk result (IsTrue (is_name target.now)) }
{
    let fields: [(u32, &[u8]); 1] = [(41, target.bytes())];
    write_fields(alloc, &fields, body)
}

/// The fields of a new order, type D.
fn write_new(
    alloc: Global,
    head: &MessageHead,
    terms: &MessageTerms,
    life: Life,
    body: &mut Vec<u8>,
) -> Result<(), NoMemory>
    ensures appended { let fields = order_fields (fix_new_order head.now terms.now life) in
        OnOk result (body.new.items ≡ body.old.items ++ bytes_of fields) }
    ensures in_form { OnOk result (IsOrderInForm (fix_new_order head.now terms.now life)) }
{
    write_head(alloc, b"D", head, body)?;
    write_size(alloc, terms, body)?;
    write_limit(alloc, life, terms.price, body)
}

/// The fields of a cancel, type F.
fn write_cancel(
    alloc: Global,
    head: &MessageHead,
    target: &Name,
    body: &mut Vec<u8>,
) -> Result<(), NoMemory>
    ensures appended { let fields = order_fields (fix_cancel_order head.now target.now) in
        OnOk result (body.new.items ≡ body.old.items ++ bytes_of fields) }
    ensures in_form { OnOk result (IsOrderInForm (fix_cancel_order head.now target.now)) }
{
    write_head(alloc, b"F", head, body)?;
    write_target(alloc, target, body)
}

/// The fields of a replacement, type G, which always has a limit and rests.
fn write_replace(
    alloc: Global,
    head: &MessageHead,
    target: &Name,
    terms: &MessageTerms,
    body: &mut Vec<u8>,
) -> Result<(), NoMemory>
    ensures appended { let fields = order_fields
        (fix_replace_order head.now terms.now target.now) in
        OnOk result (body.new.items ≡ body.old.items ++ bytes_of fields) }
    ensures in_form { OnOk result
        (IsOrderInForm (fix_replace_order head.now terms.now target.now)) }
{
    write_head(alloc, b"G", head, body)?;
    write_target(alloc, target, body)?;
    write_size(alloc, terms, body)?;
    write_limit(alloc, Life::Rests, terms.price, body)
}

/// The fields of an order's message.
fn write_order_fields(
    alloc: Global,
    entry: &OrderRecord,
    body: &mut Vec<u8>,
) -> Result<(), NoMemory>
    ensures appended { let fields = order_fields entry.now in
        OnOk result (body.new.items ≡ body.old.items ++ bytes_of fields) }
    ensures in_form { OnOk result (IsOrderInForm entry.now) }
{
    let head = MessageHead {
        key: *entry.key(),
        time: entry.time(),
        symbol: *entry.symbol(),
    };
    match *entry {
        OrderRecord::New {
            side,
            quantity,
            price,
            life,
            ..
        } => {
            let terms = MessageTerms {
                side,
                quantity,
                price,
            };
            write_new(alloc, &head, &terms, life, body)
        }
        OrderRecord::Cancel { target, .. } => write_cancel(alloc, &head, &target, body),
        OrderRecord::Replace {
            target,
            side,
            quantity,
            price,
            ..
        } => {
            let terms = MessageTerms {
                side,
                quantity,
                price,
            };
            write_replace(alloc, &head, &target, &terms, body)
        }
    }
}

/// Appends the message of an order, in canonical texts: type D of a new order, F of a cancel, G
/// of a replacement, with `EXCHANGE` as TargetCompID. A market order is written with no price.
/// The message means the order again, where a market order has the market price of its side. Out
/// of memory leaves `out` as before.
pub fn write_order(alloc: Global, entry: &OrderRecord, out: &mut Vec<u8>) -> Result<(), NoMemory>
    ensures appended { OnOk result (out.new.items ≡ out.old.items ++ order_message entry.now) }
    ensures unchanged { OnErr result (out.new.items ≡ out.old.items) }
    ensures in_form { OnOk result (IsOrderInForm entry.now) }
    ensures again { OnOk result (HasMarketPrice entry.now
        → fix_order_records (order_message entry.now) ≡ Ok (entry.now ∷ [])) }
{
    let mut body = Vec::new(alloc);
    write_order_fields(alloc, entry, &mut body)?;
    write_frame(alloc, &body, out)
}

/// The fields of a report's message.
fn write_report_fields(alloc: Global, report: &Report, body: &mut Vec<u8>) -> Result<(), NoMemory>
    ensures appended { let fields = report_fields report.now in
        OnOk result (body.new.items ≡ body.old.items ++ bytes_of fields) }
    ensures in_form { OnOk result (IsReportInForm report.now) }
{
    let time = stamp_text(alloc, report.time)?;
    let quantity = quantity_text(alloc, report.quantity)?;
    let price = price_text(alloc, report.price)?;
    let fields: [(u32, &[u8]); 11] = [
        (35, b"8"),
        (49, EXCHANGE),
        (56, report.key.firm.bytes()),
        (11, report.key.id.bytes()),
        (150, b"F"),
        (527, report.trade.bytes()),
        (60, &time),
        (55, report.symbol.bytes()),
        (54, side_bytes(report.side)),
        (32, &quantity),
        (31, &price),
    ];
    write_fields(alloc, &fields, body)
}

/// Appends the message of a report.
fn write_report(alloc: Global, report: &Report, out: &mut Vec<u8>) -> Result<(), NoMemory>
    ensures appended { OnOk result (out.new.items ≡ out.old.items ++ report_message report.now) }
    ensures in_form { OnOk result (IsReportInForm report.now) }
{
    let mut body = Vec::new(alloc);
    write_report_fields(alloc, report, &mut body)?;
    write_frame(alloc, &body, out)
}

/// Both messages of a trade.
fn trade_messages(alloc: Global, trade: &TradeRecord) -> Result<Vec<u8>, NoMemory>
    ensures text { IfOk result (λ text. text.items ≡ trade_message_pair trade.now) }
    ensures in_form { OnOk result (IsTradeInForm trade.now) }
{
    let mut text = Vec::new(alloc);
    write_report(alloc, &report_to(Side::Buy, trade), &mut text)?;
    write_report(alloc, &report_to(Side::Sell, trade), &mut text)?;
    Ok(text)
}

/// Appends the two messages of a trade, in canonical texts: execution reports of execution type F
/// with `EXCHANGE` as SenderCompID, the buyer's and then the seller's. The two pair into the
/// trade again. Out of memory leaves `out` as before.
pub fn write_trade(alloc: Global, trade: &TradeRecord, out: &mut Vec<u8>) -> Result<(), NoMemory>
    ensures appended { OnOk result (out.new.items ≡ out.old.items ++ trade_message_pair trade.now) }
    ensures unchanged { OnErr result (out.new.items ≡ out.old.items) }
    ensures in_form { OnOk result (IsTradeInForm trade.now) }
    ensures again { OnOk result
        (fix_report_records (trade_message_pair trade.now) ≡ Ok (reports_of trade.now)) }
    ensures paired { OnOk result (pairing (reports_of trade.now) ≡ Ok (trade.now ∷ [])) }
{
    reports_are_paired_again();
    let text = trade_messages(alloc, trade)?;
    out.extend_from_slice(&text)?;
    Ok(())
}
