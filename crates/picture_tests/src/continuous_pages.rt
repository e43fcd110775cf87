//! The picture of the small log, as it is written.
use crate::continuous_rows::{small_deals, small_history};
use crate::records::{deals_of, history_of, order};
use audit_base::findings::Property;
use audit_base::terms::Side;
use continuous_drawing::offending::OffendingPlace;
use continuous_drawing::sections::{MarkedTrading, continuous_sections};
use page_plots::marks::MarkedOrders;
use std::process::Abort;

/// What is written of the paper and the legend of the plot, of the trade, of the best limits after
/// records 1 and 4, of the offending place, and of the paper and the lines of the book.
const WRITTEN: [&str; 12] = [
    "viewBox=\"0 0 500 346\"",
    ">best ask</text>",
    "<title>1,3,11</title><circle class=\"trade\"",
    "<title>1,2,buy,10,10</title>",
    "<title>4,5,buy,10,10</title>",
    "<title>4,5,sell,11,11</title>",
    ">record 4: buy-priority</text>",
    "viewBox=\"0 0 500 82\"",
    "<title>3,buy,A,b2,3,11,3</title>",
    "<title>1,buy,A,b1,5,10,5</title>",
    "<title>2,sell,A,s1,5,12,5</title>",
    ">3 of 3</text>",
];

/// What is written of the paper of the plot and of the book, where prices are long.
const WIDE: [&str; 2] = ["viewBox=\"-76 0 576 346\"", "viewBox=\"-76 0 576 54\""];

/// An offence at the fourth record.
const MARKED: MarkedTrading = MarkedTrading {
    offence: Some(OffendingPlace {
        place: 4,
        property: Property::BuyPriority,
    }),
    orders: MarkedOrders {
        first: None,
        second: None,
    },
};

/// Whether a text has these words.
fn has(text: &[u8], words: &[u8]) -> bool {
    for from in 0..text.len() {
        if text[from..].starts_with(words) {
            return true;
        }
    }
    false
}

fn check_text(rt: &impl Abort, text: &[u8], written: &[&str]) {
    for words in written {
        assert!(rt; has(text, words.as_bytes()), "{words}");
    }
}

#[test]
fn each_number_is_in_a_title(rt: HostRuntime) {
    let history = small_history(&rt);
    let deals = small_deals(&rt, &history);
    let made = continuous_sections(rt.alloc(), &history.orders(), &deals, 6, &MARKED);
    let Ok(sections) = made else {
        panic!(rt; "out of memory");
    };
    check_text(&rt, sections.text(), &WRITTEN);
}

#[test]
fn long_prices_have_more_paper(rt: HostRuntime) {
    let history = history_of(&rt, &[order(&rt, b"b1", Side::Buy, 5, 4_000_000_000)]);
    let deals = deals_of(&rt, &history, &[]);
    let made = continuous_sections(rt.alloc(), &history.orders(), &deals, 6, &MARKED);
    let Ok(sections) = made else {
        panic!(rt; "out of memory");
    };
    check_text(&rt, sections.text(), &WIDE);
}
