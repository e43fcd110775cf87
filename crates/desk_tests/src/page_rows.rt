//! Calls of `page` over logs in memory, without a picture.
ghost use Rattle.std.specs.Prelude.{◌≡◌, false, IfOk};
ghost use Rattle.audit_base.specs.declared.terms.Which.{Which};
ghost use Rattle.log_source.specs.MemoryShelves.{memory_slot};

use crate::checks::inputs::words_of;
use audit_base::faults::NoMemory;
use audit_base::findings::Finding;
use audit_base::orders::Deal;
use audit_base::terms::Rule;
use audit_report::statuses::Status;
use desk_page::drawings::Drawing;
use desk_page::running::run_page;
use desk_words::texts::desk_usage_text;
use log_source::memory_shelf::MemoryShelf;
use log_source::memory_sink::MemorySink;
use order_list::lists::OrderList;
use page_markup::markup::Markup;
use std::alloc::Global;
use std::test::Fail;

/// No picture.
struct NoPicture;

impl Drawing for NoPicture {
    ghost use Rattle.std.specs.Prelude.{◌≡◌, []};

    ghost is_picture = { λ rule orders deals found text. text ≡ [] };

    fn picture(
        alloc: Global,
        _rule: Rule,
        _orders: &OrderList<'_>,
        _deals: &[Deal],
        _finding: &Option<Finding>,
    ) -> Result<Markup, NoMemory> {
        Ok(Markup::new(alloc))
    }
}

/// Logs by their names: orders of one trade, the trade, one of another price, and no log.
const LOGS: [(&str, &str); 4] = [
    (
        "o",
        "kind,firm,id,time,symbol,side,quantity,price,target
N,A,b1,20240102-09:00:00,Z,B,100,10,
N,B,s1,20240102-09:00:00,Z,S,100,9,
",
    ),
    (
        "t",
        "trade,time,symbol,buy_firm,buy_id,sell_firm,sell_id,quantity,price
T1,20240102-09:00:01,Z,A,b1,B,s1,100,9.5
",
    ),
    (
        "t8",
        "trade,time,symbol,buy_firm,buy_id,sell_firm,sell_id,quantity,price
T1,20240102-09:00:01,Z,A,b1,B,s1,100,8
",
    ),
    ("x", "no header\n"),
];

/// A shelf that has the logs.
fn shelf_of(alloc: Global) -> Result<MemoryShelf, NoMemory>
    ensures fresh { IfOk result (λ shelf.
        (which : Which) → (memory_slot shelf which).started ≡ false) }
{
    let mut shelf = MemoryShelf::new(alloc, 64, Vec::new(alloc));
    'logs: for &(name, log) in &LOGS {
        shelf.put(
            String::from_str(alloc, name)?,
            Vec::from_slice(alloc, log.as_bytes())?,
        )?;
    }
    Ok(shelf)
}

/// What a call comes to.
fn make_call(alloc: Global, line: &str) -> Result<(Status, MemorySink), NoMemory> {
    let words = words_of(alloc, line)?;
    let mut out = MemorySink::new(alloc, 65536, 4096, Vec::new(alloc))?;
    let shelf = shelf_of(alloc)?;
    let ran = run_page::<NoPicture, MemoryShelf, MemorySink>(alloc, &words, shelf, &mut out);
    Ok((ran.status, out))
}

/// How the page of a verdict ends, from its heading to the digests, which `sha256sum` gave.
const ACCEPTED: &str = "</style></head><body><main>\
<h1>Symbol Z under the rule matching: accepted</h1><p>The trades conform to the rule.</p>\
<p>Orders: 2. Trades: 1. Volume: 100.</p><section><h2>How to see it again</h2>\
<code>desk offences matching Z o t</code><p>SHA-256 of the order log</p>\
<code>f43063e018bb736ffc55c13c5bcc6d8123e3275ba730d7fad717ddad0586efdc</code>\
<p>SHA-256 of the trade log</p>\
<code>f544c800b95c6335be7ac53ba9a24b09ae0ef08fd8c1b0fc6fb07d6071dfbdfa</code>\
</section></main></body></html>\n";

const REJECTED: &str = "<section><h2>How to see it again</h2>\
<code>desk offences fair Z o t8</code><p>SHA-256 of the order log</p>\
<code>f43063e018bb736ffc55c13c5bcc6d8123e3275ba730d7fad717ddad0586efdc</code>\
<p>SHA-256 of the trade log</p>\
<code>92319e0302ae4f928744e16a62311c50ff25eee6156695839363457c04033035</code>\
</section></main></body></html>\n";

/// Words, the status that is answered, and how the page ends.
const PAGES: [(&str, u8, &str); 2] = [
    ("page matching Z o t", 0, ACCEPTED),
    ("page fair Z o t8 --trades-form csv", 1, REJECTED),
];

/// Words, the status that is answered, and the line that is written in the place of a page.
const LINES: [(&str, u8, &str); 4] = [
    ("page fair z o t", 1, "absent,z\n"),
    ("page fair Z x t", 3, "malformed,orders,1,0,header\n"),
    ("page fair Z o x", 3, "malformed,trades,1,0,header\n"),
    ("page fair Z y t", 4, "readfault,orders\n"),
];

#[test]
fn pages_are_written(rt: HostRuntime) -> Result<(), Fail> {
    for &(words, status, end) in &PAGES {
        let (answered, out) = make_call(rt.alloc(), words)?;
        assert_eq!(rt; answered.number(), status);
        let text = out.bytes();
        assert!(rt; text.starts_with(b"<!DOCTYPE html>\n") && text.ends_with(end.as_bytes()));
    }
    Ok(())
}

#[test]
fn lines_are_written(rt: HostRuntime) -> Result<(), Fail> {
    for &(words, status, line) in &LINES {
        let (answered, out) = make_call(rt.alloc(), words)?;
        assert_eq!(rt; answered.number(), status);
        assert_eq!(rt; out.bytes(), line.as_bytes());
    }
    Ok(())
}

#[test]
fn other_words_are_refused(rt: HostRuntime) -> Result<(), Fail> {
    let (answered, out) = make_call(rt.alloc(), "page fair Z o t --table")?;
    assert_eq!(rt; answered.number(), 2);
    assert_eq!(rt; out.bytes(), desk_usage_text());
    Ok(())
}
