//! Pages of verdicts as they are written: an accepted one, and a rejected one with hostile names.
use crate::checks::{assert_page, name};
use audit_base::findings::{Finding, OrderLine, Property, Shown};
use audit_base::names::Key;
use audit_base::numbers::{Price, Quantity};
use audit_base::terms::{Form, Rule, Side, Which};
use page_markup::markup::Markup;
use page_parts::repeats::PageLogs;
use page_parts::sentences::{SymbolTotals, VerdictInWords};
use page_parts::verdict_pages::verdict_page;
use std::process::Abort;
use std::test::Fail;

/// The digests of `abc` and of no bytes.
const OF_ABC: &[u8] = b"ba7816bf8f01cfea414140de5dae2223b00361a396177a9cb410ff61f20015ad";

const OF_NONE: &[u8] = b"e3b0c44298fc1c149afbf4c8996fb92427ae41e4649b934ca495991b7852b855";

const ACCEPTED_HEAD: &str = "<!DOCTYPE html>\n<html lang=\"en\"><head><meta charset=\"utf-8\">\
<meta name=\"viewport\" content=\"width=device-width, initial-scale=1\">\
<title>Symbol Z under the rule uniform: accepted</title><style>";

const ACCEPTED_BODY: &str = "</style></head><body><main>\
<h1>Symbol Z under the rule uniform: accepted</h1><p>The trades conform to the rule.</p>\
<p>Orders: 2. Trades: 1. Volume: 5.</p><section><h2>How to see it again</h2>\
<code>desk offences uniform Z day/orders.csv day/trades.csv</code>\
<p>SHA-256 of the order log</p>\
<code>ba7816bf8f01cfea414140de5dae2223b00361a396177a9cb410ff61f20015ad</code>\
<p>SHA-256 of the trade log</p>\
<code>e3b0c44298fc1c149afbf4c8996fb92427ae41e4649b934ca495991b7852b855</code>\
</section></main></body></html>\n";

#[test]
fn an_accepted_verdict_is_a_page(rt: HostRuntime) -> Result<(), Fail> {
    let alloc = rt.alloc();
    let said = VerdictInWords {
        rule: Rule::Uniform,
        symbol: name(&rt, "Z"),
        finding: None,
        totals: Some(SymbolTotals {
            orders: 2,
            trades: 1,
            volume: 5,
        }),
    };
    let logs = PageLogs {
        orders: b"day/orders.csv",
        trades: b"day/trades.csv",
        orders_form: Form::Csv,
        trades_form: Form::Csv,
        orders_digest: OF_ABC,
        trades_digest: OF_NONE,
    };
    let page = verdict_page(alloc, &said, &Markup::new(alloc), &logs)?;
    assert_page(&rt, &page, ACCEPTED_HEAD, ACCEPTED_BODY);
    Ok(())
}

const HOSTILE_HEAD: &str = "<!DOCTYPE html>\n<html lang=\"en\"><head><meta charset=\"utf-8\">\
<meta name=\"viewport\" content=\"width=device-width, initial-scale=1\">\
<title>Symbol &lt;b&gt; under the rule fair: rejected</title><style>";

const HOSTILE_BODY: &str = "</style></head><body><main>\
<h1>Symbol &lt;b&gt; under the rule fair: rejected</h1>\
<p>Record 1 of the trade log trades a bid while a better one is not fully traded (buy-priority).</p>\
<section><h2>What shows it</h2><table><caption>Records of the two logs</caption><thead><tr>\
<th scope=\"col\" class=\"text\">Role</th><th scope=\"col\" class=\"text\">Mark</th>\
<th scope=\"col\" class=\"text\">Log</th><th scope=\"col\" class=\"number\">Record</th>\
<th scope=\"col\" class=\"text\">Side</th><th scope=\"col\" class=\"text\">Firm</th>\
<th scope=\"col\" class=\"text\">Id</th><th scope=\"col\" class=\"number\">Quantity</th>\
<th scope=\"col\" class=\"number\">Limit</th><th scope=\"col\" class=\"number\">Traded</th>\
</tr></thead><tbody>\
<tr><th scope=\"row\">the offending record</th><td></td><td>trades</td>\
<td class=\"number\">1</td></tr>\
<tr><th scope=\"row\">the better order that is not fully traded</th><td>1</td><td>orders</td>\
<td class=\"number\">1</td><td>buy</td>\
<td class=\"name\">&lt;script&gt;alert(1)&lt;/script&gt;</td><td class=\"name\">a&amp;b</td>\
<td class=\"number\">5</td><td class=\"number\">10.5</td><td class=\"number\">0</td></tr>\
<tr><th scope=\"row\">its bid</th><td>2</td><td>orders</td>\
<td class=\"number\">2</td><td>buy</td>\
<td class=\"name\">&lt;/style&gt;</td><td class=\"name\"> ]]&gt;&amp;amp;&#39; </td>\
<td class=\"number\">5</td><td class=\"number\">10</td><td class=\"number\">5</td></tr>\
</tbody></table></section><section><h2>How to see it again</h2>\
<code>desk offences fair &#39;&lt;b&gt;&#39; a_b/o-1@9.csv \
&#39;it&#39;\\&#39;&#39;s &quot;$HOME&quot;&#39; --trades-form fix</code>\
<p>SHA-256 of the order log</p>\
<code>e3b0c44298fc1c149afbf4c8996fb92427ae41e4649b934ca495991b7852b855</code>\
<p>SHA-256 of the trade log</p>\
<code>ba7816bf8f01cfea414140de5dae2223b00361a396177a9cb410ff61f20015ad</code>\
</section></main></body></html>\n";

/// A bid of five, whose limit is in units of which 100,000,000 are one.
fn bid(rt: &impl Abort, place: u32, firm: &str, id: &str, limit: u64, traded: u128) -> OrderLine {
    OrderLine {
        place,
        side: Side::Buy,
        key: Key {
            firm: name(rt, firm),
            id: name(rt, id),
        },
        quantity: Quantity::of(5).expect(rt, "a quantity"),
        limit: Price::of(limit).expect(rt, "a price"),
        traded,
    }
}

/// A trade on the second bid, while the first and better one is not traded.
fn outranked(rt: &impl Abort) -> Finding {
    let better = bid(rt, 1, "<script>alert(1)</script>", "a&b", 1_050_000_000, 0);
    let own = bid(rt, 2, "</style>", " ]]>&amp;' ", 1_000_000_000, 5);
    Finding {
        property: Property::BuyPriority,
        log: Which::Trades,
        place: 1,
        first: Some(Shown::Order(better)),
        second: Some(Shown::Order(own)),
        short: None,
    }
}

#[test]
fn hostile_names_are_no_markup(rt: HostRuntime) -> Result<(), Fail> {
    let alloc = rt.alloc();
    let said = VerdictInWords {
        rule: Rule::Fair,
        symbol: name(&rt, "<b>"),
        finding: Some(outranked(&rt)),
        totals: None,
    };
    let logs = PageLogs {
        orders: b"a_b/o-1@9.csv",
        trades: b"it's \"$HOME\"",
        orders_form: Form::Csv,
        trades_form: Form::Fix,
        orders_digest: OF_NONE,
        trades_digest: OF_ABC,
    };
    let page = verdict_page(alloc, &said, &Markup::new(alloc), &logs)?;
    assert_page(&rt, &page, HOSTILE_HEAD, HOSTILE_BODY);
    Ok(())
}
