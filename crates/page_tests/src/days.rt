//! Pages of days, as they are written.
use crate::checks::assert_page;
use day_page::day_pages::page_of_day_text;
use std::test::Fail;

/// The text of a day of four symbols by phases, of which three are rejected.
const TEXT: &str = "day,4,1,3,uniform@1,continuous@5\n\
&amp;,session,&amp;,uniform@1,continuous@5\n&amp;,totals,2,1,5\n\
<b>',rejected,buy-quantity,trades,2\n<b>',order,1,buy,totals,rejected,5,10,7\n\
a b,rejected,volume,trades,1\na b,volume,5,7\na b,order,1,buy,F,1,7,10,5\n\
totals,rejected,trade-time,trades,4\ntotals,order,3,sell,F,2,5,10,5\n";

const HEAD: &str = "<!DOCTYPE html>\n<html lang=\"en\"><head><meta charset=\"utf-8\">\
<meta name=\"viewport\" content=\"width=device-width, initial-scale=1\">\
<title>Every symbol of the day by uniform@1,continuous@5</title><style>";

const BODY: &str =
    "</style></head><body><main><h1>Every symbol of the day by uniform@1,continuous@5</h1>\
<p>Symbols: 4. Accepted: 1. Rejected: 3.</p>\
<table><caption>The symbols, in the order of their numbers</caption><thead><tr>\
<th scope=\"col\" class=\"text\">Symbol</th><th scope=\"col\" class=\"text\">Answer</th>\
<th scope=\"col\" class=\"text\">Log</th><th scope=\"col\" class=\"number\">Record</th>\
<th scope=\"col\" class=\"number\">Orders</th><th scope=\"col\" class=\"number\">Trades</th>\
<th scope=\"col\" class=\"number\">Volume</th></tr></thead><tbody>\
<tr><th scope=\"row\" class=\"name\">&amp;amp;</th><td>accepted</td><td></td><td></td>\
<td class=\"number\">2</td><td class=\"number\">1</td><td class=\"number\">5</td></tr>\
<tr><th scope=\"row\" class=\"name\">&lt;b&gt;&#39;</th>\
<td>rejected: a record lets its bid trade more than its quantity (buy-quantity)</td>\
<td>trades</td><td class=\"number\">2</td></tr>\
<tr><th scope=\"row\" class=\"name\">a b</th>\
<td>rejected: the volume is not the greatest (volume)</td></tr>\
<tr><th scope=\"row\" class=\"name\">totals</th>\
<td>rejected: a record has an earlier time than the record of its bid or of its ask (trade-time)</td>\
<td>trades</td><td class=\"number\">4</td></tr>\
</tbody></table></main></body></html>\n";

/// The text of a day of four symbols by a rule: it rejects three, and a further check the fourth.
const TEXT_OF_RULE: &str = "day,4,0,4,fair\n<b>',rejected,buy-quantity,trades,2\n\
a b,rejected,volume,trades,1\n-x,rejected,duplicate-id,orders,3\n\
totals,rejected,trade-time,trades,4\n";

const HEAD_OF_RULE: &str = "<!DOCTYPE html>\n<html lang=\"en\"><head><meta charset=\"utf-8\">\
<meta name=\"viewport\" content=\"width=device-width, initial-scale=1\">\
<title>Every symbol of the day by fair</title><style>";

const BODY_OF_RULE: &str = "</style></head><body><main><h1>Every symbol of the day by fair</h1>\
<p>Symbols: 4. Accepted: 0. Rejected: 4.</p>\
<table><caption>The symbols, in the order of their numbers</caption><thead><tr>\
<th scope=\"col\" class=\"text\">Symbol</th><th scope=\"col\" class=\"text\">Answer</th>\
<th scope=\"col\" class=\"text\">Log</th><th scope=\"col\" class=\"number\">Record</th>\
<th scope=\"col\" class=\"number\">Orders</th><th scope=\"col\" class=\"number\">Trades</th>\
<th scope=\"col\" class=\"number\">Volume</th></tr></thead><tbody>\
<tr><th scope=\"row\" class=\"name\"><a href=\"%253Cb%253E%2527.html\">&lt;b&gt;&#39;</a></th>\
<td>rejected: a record lets its bid trade more than its quantity (buy-quantity)</td>\
<td>trades</td><td class=\"number\">2</td></tr>\
<tr><th scope=\"row\" class=\"name\"><a href=\"a%2520b.html\">a b</a></th>\
<td>rejected: the volume is not the greatest (volume)</td></tr>\
<tr><th scope=\"row\" class=\"name\">-x</th>\
<td>rejected: a record has the firm and id of an earlier record of the symbol (duplicate-id)</td>\
<td>orders</td><td class=\"number\">3</td></tr>\
<tr><th scope=\"row\" class=\"name\">totals</th>\
<td>rejected: a record has an earlier time than the record of its bid or of its ask (trade-time)</td>\
<td>trades</td><td class=\"number\">4</td></tr>\
</tbody></table></main></body></html>\n";

const UNPAIRED_HEAD: &str = "<!DOCTYPE html>\n<html lang=\"en\"><head><meta charset=\"utf-8\">\
<meta name=\"viewport\" content=\"width=device-width, initial-scale=1\">\
<title>Every symbol of the day</title><style>";

const UNPAIRED_BODY: &str = "</style></head><body><main><h1>Every symbol of the day</h1>\
<p>The reports of the trade log do not pair: record 3 of the trade log is one that does not agree \
with the first of its trade, or one that has no second (unpaired).</p></main></body></html>\n";

#[test]
fn a_day_is_a_page(rt: HostRuntime) -> Result<(), Fail> {
    let page = page_of_day_text(rt.alloc(), TEXT.as_bytes())?;
    assert_page(&rt, &page, HEAD, BODY);
    Ok(())
}

#[test]
fn links_lead_to_pages_of_the_same_question(rt: HostRuntime) -> Result<(), Fail> {
    let page = page_of_day_text(rt.alloc(), TEXT_OF_RULE.as_bytes())?;
    assert_page(&rt, &page, HEAD_OF_RULE, BODY_OF_RULE);
    Ok(())
}

#[test]
fn reports_that_do_not_pair_are_a_page(rt: HostRuntime) -> Result<(), Fail> {
    let page = page_of_day_text(rt.alloc(), b"rejected,unpaired,trades,3\n")?;
    assert_page(&rt, &page, UNPAIRED_HEAD, UNPAIRED_BODY);
    Ok(())
}
