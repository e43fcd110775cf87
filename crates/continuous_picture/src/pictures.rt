//! The numbers of the picture of continuous trading.
ghost use Rattle.std.specs.Prelude.{◌<◌, ◌^◌, IfOk};
ghost use Rattle.audit_base.specs.Deals.{IsDealList};
ghost use Rattle.audit_base.specs.Orders.{IsOrderList};
ghost use Rattle.continuous_picture.specs.Pictures.{IsBookBefore, IsBookIfAsked, IsContinuousPicture};
ghost use Rattle.continuous_picture.specs.Sizes.{AreSizesOf};
ghost use Rattle.order_arrivals.specs.DealtOrders.{IsMarket};

use crate::books_at::book_at;
use crate::columns::{PlaceColumn, columns_of};
use audit_base::faults::NoMemory;
use audit_base::orders::Deal;
use audit_base::terms::Side;
use continuous_audit::incoming_deals::sort_incoming_deals;
use order_arrivals::arrivals::arrivals_of;
use order_arrivals::dealt_orders::DealtOrders;
use order_book::books::Resting;
use order_list::lists::OrderList;
use std::alloc::Global;

/// The book right before the record at a place: the ten best orders of each side that rest there.
#[derive(Debug, Drop)]
pub struct BookBefore {
    pub place: u64,
    pub bids: Vec<Resting>,
    pub asks: Vec<Resting>,
}

/// The columns of the picture, and the book where one is asked for.
#[derive(Debug, Drop)]
pub struct ContinuousPicture {
    pub columns: Vec<PlaceColumn>,
    pub book: Option<BookBefore>,
}

/// The book right before the record at a place.
fn book_before(
    alloc: Global,
    market: &DealtOrders<'_>,
    sizes: &[u64],
    place: u64,
) -> Result<BookBefore, NoMemory>
    requires market { IsMarket market.now }
    requires sizes { AreSizesOf market.now.orders.now market.now.deals.now sizes.now }
    ensures { IfOk result (IsBookBefore market.now.orders.now market.now.deals.now place) }
{
    Ok(BookBefore {
        place,
        bids: book_at(alloc, market, sizes, Side::Buy, place)?,
        asks: book_at(alloc, market, sizes, Side::Sell, place)?,
    })
}

/// The same, where a place is given.
fn book_if_asked(
    alloc: Global,
    market: &DealtOrders<'_>,
    sizes: &[u64],
    place: Option<u64>,
) -> Result<Option<BookBefore>, NoMemory>
    requires market { IsMarket market.now }
    requires sizes { AreSizesOf market.now.orders.now market.now.deals.now sizes.now }
    ensures { IfOk result (IsBookIfAsked market.now.orders.now market.now.deals.now place) }
{
    match place {
        Some(place) => {
            let book = book_before(alloc, market, sizes, place)?;
            Ok(Some(book))
        }
        None => Ok(None),
    }
}

/// The numbers of the picture of continuous trading: the columns of the places from that of the
/// first order to before `end`, and the book right before the record at a place, where one is
/// given. In n log n steps for n orders, deals and places, whatever these are. Err only out of
/// memory.
pub fn continuous_picture(
    alloc: Global,
    orders: &OrderList<'_>,
    deals: &[Deal],
    end: u64,
    place: Option<u64>,
) -> Result<ContinuousPicture, NoMemory>
    requires order_list { IsOrderList orders.now }
    requires deal_list { IsDealList orders.now deals.now }
    requires fits { end < 2 ^ 33 }
    ensures { IfOk result (IsContinuousPicture orders.now deals.now end place) }
{
    let incoming_deals = sort_incoming_deals(alloc, orders, deals)?;
    let market = DealtOrders {
        orders,
        deals,
        incoming_deals: &incoming_deals,
    };
    let arrivals = arrivals_of(alloc, &market)?;
    let columns = columns_of(alloc, &market, &arrivals.sizes, end)?;
    let book = book_if_asked(alloc, &market, &arrivals.sizes, place)?;
    Ok(ContinuousPicture { columns, book })
}
