//! A whole call, and what it comes to.
ghost use Rattle.std.specs.Prelude.{◌≡◌, false, IfOk};
ghost use Rattle.audit_base.specs.declared.terms.Which.{Which};
ghost use Rattle.log_source.specs.MemoryShelves.{memory_slot};

use audit_base::faults::NoMemory;
use audit_base::names::read_name;
use case_run::statuses::CaseStatus;
use desk_filing::map_digest_opener::MapDigestOpener;
use desk_filing::running::run_filing;
use digest_keeper::digested::KeptCase;
use digest_keeper::keeper::DigestKeeper;
use digest_keeper::map_digest_keeper::MapDigestKeeper;
use log_source::memory_shelf::MemoryShelf;
use log_source::memory_sink::MemorySink;
use std::alloc::Global;
use std::process::Abort;

/// The logs of the tests by their names: the orders of one trade, and those of two symbols; the trade
/// log, one of another price, and one with a lone report; a trade log without records, and a log in
/// no grammar.
const LOGS: [(&str, &str); 7] = [
    (
        "o",
        "kind,firm,id,time,symbol,side,quantity,price,target
N,A,b1,20240102-09:00:00,Z,B,100,10,
N,B,s1,20240102-09:00:00,Z,S,100,9,
",
    ),
    (
        "o2",
        "kind,firm,id,time,symbol,side,quantity,price,target
N,A,b1,20240102-09:00:00,Y,B,100,10,
N,A,b2,20240102-09:00:00,Z,B,100,10,
N,B,s1,20240102-09:00:00,Y,S,100,9,
N,B,s2,20240102-09:00:00,Z,S,100,9,
",
    ),
    (
        "t",
        "trade,time,symbol,buy_firm,buy_id,sell_firm,sell_id,quantity,price
T1,20240102-09:00:01,Z,A,b1,B,s1,100,9.5
",
    ),
    (
        "t8",
        "trade,time,symbol,buy_firm,buy_id,sell_firm,sell_id,quantity,price
T1,20240102-09:00:01,Z,A,b1,B,s1,100,8
",
    ),
    (
        "lone",
        "8=FIX.4.4\x019=78\x0135=8\x0149=X\x0156=A\x0111=1\x01150=F\x01527=T1\x0155=Z\x0154=1\x0132=100\x0131=9.5\x01\
60=20240102-09:00:02\x0110=101\x01",
    ),
    (
        "e",
        "trade,time,symbol,buy_firm,buy_id,sell_firm,sell_id,quantity,price
",
    ),
    ("x", "no header\n"),
];

/// A call, what is on file before it, and the numbers of the calls that fail.
#[derive(Clone, Copy)]
pub(crate) struct Call {
    pub(crate) line: &'static str,
    pub(crate) kept: Option<KeptCase>,
    pub(crate) shelf_fails: u32,
    pub(crate) sink_fails: u32,
    pub(crate) opener_fails: u32,
    pub(crate) keeper_fails: u32,
}

impl Call {
    /// A call with these words, over no database, in which nothing fails.
    pub(crate) fn of(line: &'static str) -> Call {
        Call {
            line,
            kept: None,
            shelf_fails: 0,
            sink_fails: 0,
            opener_fails: 0,
            keeper_fails: 0,
        }
    }

    /// The same over a database that has this case.
    pub(crate) fn over(&self, kept: KeptCase) -> Call {
        Call {
            line: self.line,
            kept: Some(kept),
            shelf_fails: self.shelf_fails,
            sink_fails: self.sink_fails,
            opener_fails: self.opener_fails,
            keeper_fails: self.keeper_fails,
        }
    }
}

/// What a call came to.
#[derive(Drop)]
pub(crate) struct CallEnd {
    pub(crate) status: CaseStatus,
    pub(crate) out: MemorySink,
    pub(crate) book: Option<MapDigestKeeper>,
}

/// Why a call does not come to what is asked of it.
#[derive(Debug, Drop)]
pub(crate) enum CallFault {
    /// No case is on file under the label.
    NotOnFile,
    /// The keeper failed when it was asked for the case.
    KeeperFault,
    /// There was not enough memory to try the call.
    Memory,
}

impl From<NoMemory> for CallFault {
    fn from(_fault: NoMemory) -> CallFault {
        CallFault::Memory
    }
}

/// The words of a command line, split at spaces.
pub(crate) fn split_words(alloc: Global, line: &str) -> Result<Vec<String>, NoMemory> {
    let mut words = Vec::new(alloc);
    for word in line.split(' ') {
        if !word.is_empty() {
            words.push(String::from_str(alloc, word)?)?;
        }
    }
    Ok(words)
}

/// A shelf that has the logs, and whose call of this number fails.
pub(crate) fn shelf_of(alloc: Global, fails: u32) -> Result<MemoryShelf, NoMemory>
    ensures fresh { IfOk result (λ shelf.
        (which : Which) → (memory_slot shelf which).started ≡ false) }
{
    let mut shelf = MemoryShelf::new(alloc, 64, Vec::from_slice(alloc, &[fails])?);
    'logs: for &(name, log) in &LOGS {
        shelf.put(
            String::from_str(alloc, name)?,
            Vec::from_slice(alloc, log.as_bytes())?,
        )?;
    }
    Ok(shelf)
}

/// Makes a call.
pub(crate) fn make_call(alloc: Global, call: &Call) -> Result<CallEnd, NoMemory> {
    let words = split_words(alloc, call.line)?;
    let shelf = shelf_of(alloc, call.shelf_fails)?;
    let sink_fails = Vec::from_slice(alloc, &[call.sink_fails])?;
    let mut out = MemorySink::new(alloc, 4096, 4096, sink_fails)?;
    let opener_fails = Vec::from_slice(alloc, &[call.opener_fails])?;
    let keeper_fails = Vec::from_slice(alloc, &[call.keeper_fails])?;
    let mut opener = MapDigestOpener::new(alloc, call.kept, opener_fails, keeper_fails);
    let ran = run_filing(alloc, &words, shelf, &mut out, &mut opener);
    let (status, book) = (ran.status, ran.back.keeper);
    Ok(CallEnd { status, out, book })
}

/// The case that a call leaves on file under the label `c1`.
pub(crate) fn kept_after(alloc: Global, call: &Call) -> Result<KeptCase, CallFault> {
    kept_under(alloc, call, b"c1")
}

/// The case that a call leaves on file under a label.
pub(crate) fn kept_under(alloc: Global, call: &Call, label: &[u8]) -> Result<KeptCase, CallFault> {
    let came = make_call(alloc, call)?;
    let (Some(mut book), Some(label)) = (came.book, read_name(label)) else {
        return Err(CallFault::NotOnFile);
    };
    match book.find(&label) {
        Ok(Some(kept)) => Ok(kept),
        Ok(None) => Err(CallFault::NotOnFile),
        Err(_) => Err(CallFault::KeeperFault),
    }
}

/// Asserts that a call answers this status with these lines.
pub(crate) fn assert_call<R: AllocGlobal + Abort>(
    rt: &R,
    call: &Call,
    number: u8,
    lines: &[u8],
) -> Result<(), NoMemory> {
    let came = make_call(rt.alloc(), call)?;
    assert_eq!(rt; came.status.number(), number, "{}", call.line);
    assert_eq!(rt; came.out.bytes(), lines, "{}", call.line);
    Ok(())
}
