//! The messages of an order log: new orders, cancels and replacements, by the table of each.
ghost use Rattle.std.specs.Prelude.{◌≡◌};
ghost use Rattle.fix_fields.specs.Ranges.{AreFieldsOf, tag_values_of};
ghost use Rattle.fix_fields.specs.TagNotes.{IsNotedTag};
ghost use Rattle.fix_messages.specs.OrderTables.{order_type_form, message_order_type, price_of_order_type, life_form, message_life, life_of_order_type, limit_type_form, message_limit_type, resting_form, message_resting_life, no_quantity_condition, message_new_order, message_cancel, message_replacement, order_by_type, order_of_message, order_meaning};

use crate::meanings::{MessageFault, OrderMeaning};
use crate::message::Message;
use crate::order_texts::{InstructionParts, OrderText};
use crate::rows::{
    absent_at, head_at, is_copy, is_word, name_at, price_at, quantity_at, required, side_at,
    supported, type_at,
};
use audit_base::numbers::{Price, market_price};
use audit_base::stamp_reader::StampReader;
use audit_base::terms::{Life, Side};
use fix_fields::field::Field;
use fix_fields::notes::TagNotes;

/// The order type (tag 40): a market order, or an order with a limit.
#[derive(Clone, Copy)]
pub(crate) enum OrderType {
    Market,
    Limit,
}

/// `1`, a market order, or `2`, an order with a limit.
fn read_order_type(text: &[u8]) -> Option<OrderType>
    ensures { result ≡ order_type_form text.now }
{
    if is_word(b"1", text) {
        Some(OrderType::Market)
    } else if is_word(b"2", text) {
        Some(OrderType::Limit)
    } else {
        None
    }
}

/// OrdType (tag 40) of a new order.
#[inline(always)]
fn message_order_type(tag: u32, message: &Message<'_>) -> Result<OrderType, MessageFault>
    requires { IsNotedTag tag }
    ensures { result ≡ message_order_type tag message.now }
{
    supported(tag, read_order_type(required(tag, message)?))
}

/// The price (tag 44); of a market order it is not read, and is the market price of its side.
#[inline(always)]
fn price_by(
    limits: OrderType,
    side: Side,
    tag: u32,
    message: &Message<'_>,
) -> Result<Price, MessageFault>
    requires { IsNotedTag tag }
    ensures { result ≡ price_of_order_type limits side tag message.now }
{
    match limits {
        OrderType::Limit => price_at(tag, message),
        OrderType::Market => {
            message.only(tag)?;
            Ok(market_price(side))
        }
    }
}

/// `0`, a day order, or `1`, good till cancel, or `3`, immediate or cancel.
fn read_life(text: &[u8]) -> Option<Life>
    ensures { result ≡ life_form text.now }
{
    if is_word(b"0", text) || is_word(b"1", text) {
        Some(Life::Rests)
    } else if is_word(b"3", text) {
        Some(Life::Immediate)
    } else {
        None
    }
}

/// TimeInForce (tag 59) of a new order, which is a day order where the tag is absent.
#[inline(always)]
fn life_at(tag: u32, message: &Message<'_>) -> Result<Life, MessageFault>
    requires { IsNotedTag tag }
    ensures { result ≡ message_life tag message.now }
{
    match message.only(tag)? {
        Some(text) => supported(tag, read_life(text)),
        None => Ok(Life::Rests),
    }
}

/// A market order has life Market, whatever its time in force.
fn life_by(limits: OrderType, life: Life) -> Life
    ensures { result ≡ life_of_order_type limits life }
{
    match limits {
        OrderType::Limit => life,
        OrderType::Market => Life::Market,
    }
}

/// `2`, an order with a limit.
fn read_limit(text: &[u8]) -> Option<()>
    ensures { result ≡ limit_type_form text.now }
{
    if is_word(b"2", text) { Some(()) } else { None }
}

/// OrdType (tag 40) of a replacement, which must have a limit.
#[inline(always)]
fn limit_at(tag: u32, message: &Message<'_>) -> Result<(), MessageFault>
    requires { IsNotedTag tag }
    ensures { result ≡ message_limit_type tag message.now }
{
    supported(tag, read_limit(required(tag, message)?))
}

/// `0`, a day order, or `1`, good till cancel.
fn read_resting(text: &[u8]) -> Option<()>
    ensures { result ≡ resting_form text.now }
{
    if is_word(b"0", text) || is_word(b"1", text) {
        Some(())
    } else {
        None
    }
}

/// TimeInForce (tag 59) of a replacement, which must rest; a day order where the tag is absent.
#[inline(always)]
fn resting_at(tag: u32, message: &Message<'_>) -> Result<(), MessageFault>
    requires { IsNotedTag tag }
    ensures { result ≡ message_resting_life tag message.now }
{
    match message.only(tag)? {
        Some(text) => supported(tag, read_resting(text)),
        None => Ok(()),
    }
}

/// No condition on the quantity: neither a least one (MinQty) nor a shown one (MaxFloor).
#[inline(always)]
fn unconditional(message: &Message<'_>) -> Result<(), MessageFault>
    ensures { result ≡ no_quantity_condition message.now }
{
    absent_at(110, message)?;
    absent_at(111, message)
}

/// Type D, a new order.
#[tactic(auto, unfolding(crate::specs::OrderTables::message_new_order))]
fn new_order<'m>(
    message: &'m Message<'_>,
    stamps: &mut StampReader,
) -> Result<OrderText<'m>, MessageFault>
    ensures { result ≡ message_new_order message.now }
{
    type_at(b"D", message)?;
    let head = head_at(49, message, stamps)?;
    let side = side_at(54, message)?;
    let quantity = quantity_at(38, message)?;
    let limits = message_order_type(40, message)?;
    let price = price_by(limits, side, 44, message)?;
    let life = life_by(limits, life_at(59, message)?);
    unconditional(message)?;
    let parts = InstructionParts::New {
        side,
        quantity,
        price,
        life,
    };
    Ok(OrderText { head, parts })
}

/// Type F, a cancel.
#[tactic(auto, unfolding(crate::specs::OrderTables::message_cancel))]
fn cancel<'m>(
    message: &'m Message<'_>,
    stamps: &mut StampReader,
) -> Result<OrderText<'m>, MessageFault>
    ensures { result ≡ message_cancel message.now }
{
    type_at(b"F", message)?;
    let head = head_at(49, message, stamps)?;
    let target = name_at(41, message)?;
    let parts = InstructionParts::Cancel { target };
    Ok(OrderText { head, parts })
}

/// Type G, a replacement.
#[tactic(auto, unfolding(crate::specs::OrderTables::message_replacement))]
fn replacement<'m>(
    message: &'m Message<'_>,
    stamps: &mut StampReader,
) -> Result<OrderText<'m>, MessageFault>
    ensures { result ≡ message_replacement message.now }
{
    type_at(b"G", message)?;
    let head = head_at(49, message, stamps)?;
    let target = name_at(41, message)?;
    let side = side_at(54, message)?;
    let quantity = quantity_at(38, message)?;
    limit_at(40, message)?;
    let price = price_at(44, message)?;
    resting_at(59, message)?;
    unconditional(message)?;
    let parts = InstructionParts::Replace {
        target,
        side,
        quantity,
        price,
    };
    Ok(OrderText { head, parts })
}

/// The order that a message of this type means, copies aside; nothing for any other type.
fn order_by<'m>(
    kind: &[u8],
    message: &'m Message<'_>,
    stamps: &mut StampReader,
) -> Result<Option<OrderText<'m>>, MessageFault>
    ensures { result ≡ order_by_type kind.now message.now }
{
    if is_word(b"D", kind) {
        Ok(Some(new_order(message, stamps)?))
    } else if is_word(b"F", kind) {
        Ok(Some(cancel(message, stamps)?))
    } else if is_word(b"G", kind) {
        Ok(Some(replacement(message, stamps)?))
    } else {
        Ok(None)
    }
}

/// The order that a message means, as it is in the message, or
/// nothing, or the first test that fails.
#[tactic(auto, unfolding(crate::specs::OrderTables::order_of_message))]
pub(crate) fn order_text<'m>(
    message: &'m Message<'_>,
    stamps: &mut StampReader,
) -> Result<Option<OrderText<'m>>, MessageFault>
    ensures { result ≡ order_of_message message.now }
{
    if is_copy(message) {
        Ok(None)
    } else {
        order_by(message.kind(), message, stamps)
    }
}

/// What a message of an order log means, by its body and the fields that the body has: nothing, a
/// record, or the first test that fails of the table of its type. It takes no memory.
pub fn order_of(body: &[u8], fields: &[Field]) -> Result<OrderMeaning, MessageFault>
    requires { AreFieldsOf body.now fields.now }
    ensures { result ≡ order_meaning (tag_values_of body.now fields.now) }
{
    let mut notes = TagNotes::new();
    let message = Message::with_fields(body, fields, &mut notes);
    match order_text(&message, &mut StampReader::new())? {
        Some(order) => Ok(OrderMeaning::Entry(order.record())),
        None => Ok(OrderMeaning::Skip),
    }
}
