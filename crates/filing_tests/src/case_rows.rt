//! Runs of commands of `casebook` over a casebook in memory, whose keeper, sink or shelf fails: the
//! words, and the status and the lines.
use crate::calls::{shelf_of, split_words};
use audit_base::names::read_name;
use case_keeper::casebook::Casebook;
use case_keeper::keeper::Keeper;
use case_keeper::map_keeper::MapKeeper;
use case_run::books::run_book;
use case_run::map_opener::MapOpener;
use case_run::running::run_case;
use case_run::statuses::CaseStatus;
use log_source::memory_sink::MemorySink;
use std::alloc::Global;
use std::process::Abort;
use std::test::Fail;

const USAGE: &str =
    "usage: DATABASE file LABEL RULE SYMBOL FORM ORDERS TRADES | list [SYMBOL [RESULT]] | show LABEL, joined by then
";

/// A casebook in memory of no cases, whose keeper's call of this number fails.
fn casebook_over(alloc: Global, fails: u32) -> Result<Casebook<MapKeeper>, Fail> {
    let list = Vec::from_slice(alloc, &[fails])?;
    Ok(Casebook::new(MapKeeper::new(alloc, list)))
}

/// What the words give over a casebook: the status and the lines.
fn run_line<B: Keeper>(
    alloc: Global,
    line: &str,
    book: &mut Casebook<B>,
) -> Result<(CaseStatus, MemorySink), Fail> {
    let words = split_words(alloc, line)?;
    let mut shelf = shelf_of(alloc, 0)?;
    let mut out = MemorySink::new(alloc, 4096, 4096, Vec::new(alloc))?;
    let status = run_case(alloc, &words, &mut shelf, &mut out, book);
    Ok((status, out))
}

/// A row: the words, the status, and the lines.
type Row = (&'static str, u8, &'static str);

fn assert_row<R: AllocGlobal + Abort, B: Keeper>(
    rt: &R,
    row: Row,
    book: &mut Casebook<B>,
) -> Result<(), Fail> {
    let (line, number, lines) = row;
    let (status, out) = run_line(rt.alloc(), line, book)?;
    assert_eq!(rt; status.number(), number, "{line}");
    assert_eq!(rt; out.bytes(), lines.as_bytes(), "{line}");
    Ok(())
}

// Filing makes two calls of the keeper: it finds the label, and adds the case.
#[test]
fn a_keeper_that_fails_keeps_its_cases(rt: HostRuntime) -> Result<(), Fail> {
    for fails in [1, 2] {
        let mut book = casebook_over(rt.alloc(), fails)?;
        let row = ("file c1 matching Z csv o t", 8, "keeperfault\n");
        assert_row(&rt, row, &mut book)?;
        assert_row(&rt, ("list", 0, ""), &mut book)?;
    }
    Ok(())
}

// Into a sink of this much room: the case stays filed, also where its line is cut.
#[test]
fn a_case_whose_line_is_cut_stays_filed(rt: HostRuntime) -> Result<(), Fail> {
    let words = split_words(rt.alloc(), "file c1 matching Z csv o t then list")?;
    let label = read_name(b"c1").expect(&rt, "a name");
    for room in [0, 10, 27, 28, 40] {
        let mut book = casebook_over(rt.alloc(), 0)?;
        let mut shelf = shelf_of(rt.alloc(), 0)?;
        let mut out = MemorySink::new(rt.alloc(), room, 4096, Vec::new(rt.alloc()))?;
        let status = run_case(rt.alloc(), &words, &mut shelf, &mut out, &mut book);
        assert_eq!(rt; status, CaseStatus::WriteFault, "room {room}");
        assert_eq!(rt; out.bytes().len(), room, "room {room}");
        assert!(rt; book.show(&label)?.is_some(), "room {room}");
    }
    Ok(())
}

// Into a sink of this much room, which the line of the first case fills or not: the second
// command is done only where the first line was written whole.
#[test]
fn a_command_after_a_cut_line_files_nothing(rt: HostRuntime) -> Result<(), Fail> {
    let line = "file c1 matching Z csv o t then file c2 matching Z csv o t";
    let words = split_words(rt.alloc(), line)?;
    let second = read_name(b"c2").expect(&rt, "a name");
    for (room, filed) in [(0, false), (1, false), (28, true)] {
        let mut book = casebook_over(rt.alloc(), 0)?;
        let mut shelf = shelf_of(rt.alloc(), 0)?;
        let mut out = MemorySink::new(rt.alloc(), room, 4096, Vec::new(rt.alloc()))?;
        let status = run_case(rt.alloc(), &words, &mut shelf, &mut out, &mut book);
        assert_eq!(rt; status, CaseStatus::WriteFault, "room {room}");
        assert_eq!(rt; out.bytes().len(), room, "room {room}");
        assert_eq!(rt; book.show(&second)?.is_some(), filed, "room {room}");
    }
    Ok(())
}

// A keeper whose first call fails: it is asked only after two logs that are read and in their
// grammar.
#[test]
fn a_log_is_told_before_a_keeper_that_fails(rt: HostRuntime) -> Result<(), Fail> {
    for row in [
        ("file c1 matching Z csv n t", 4, "readfault,orders\n"),
        (
            "file c1 matching Z csv x t",
            3,
            "malformed,orders,1,0,header\n",
        ),
        (
            "file c1 matching Z csv o x",
            3,
            "malformed,trades,1,0,header\n",
        ),
        ("file c1 matching Z csv o t", 8, "keeperfault\n"),
    ] {
        let mut book = casebook_over(rt.alloc(), 1)?;
        assert_row(&rt, row, &mut book)?;
    }
    Ok(())
}

// The order log takes a start and three reads, the trade log a start and three.
#[test]
fn a_read_that_fails_files_nothing(rt: HostRuntime) -> Result<(), Fail> {
    let words = split_words(rt.alloc(), "file c1 matching Z csv o t")?;
    for (fails, line) in [
        (1, "readfault,orders\n"),
        (4, "readfault,orders\n"),
        (6, "readfault,trades\n"),
    ] {
        let mut book = casebook_over(rt.alloc(), 0)?;
        let mut shelf = shelf_of(rt.alloc(), fails)?;
        let mut out = MemorySink::new(rt.alloc(), 4096, 4096, Vec::new(rt.alloc()))?;
        let status = run_case(rt.alloc(), &words, &mut shelf, &mut out, &mut book);
        assert_eq!(rt; status, CaseStatus::ReadFault, "call {fails}");
        assert_eq!(rt; out.bytes(), line.as_bytes(), "call {fails}");
        assert_row(&rt, ("list", 0, ""), &mut book)?;
    }
    Ok(())
}

// Words over an opener whose first call fails, or none; the status, the lines, and whether
// there is a casebook.
const OPENINGS: [(&str, u32, u8, &str, bool); 4] = [
    ("db list", 1, 8, "keeperfault\n", false),
    ("", 1, 2, USAGE, false),
    ("db list", 0, 0, "", true),
    ("db lists", 0, 2, USAGE, true),
];

#[test]
fn a_refused_opening_leaves_no_casebook(rt: HostRuntime) -> Result<(), Fail> {
    for &(line, fails, number, lines, opened) in &OPENINGS {
        let words = split_words(rt.alloc(), line)?;
        let mut shelf = shelf_of(rt.alloc(), 0)?;
        let mut out = MemorySink::new(rt.alloc(), 4096, 4096, Vec::new(rt.alloc()))?;
        let list = Vec::from_slice(rt.alloc(), &[fails])?;
        let mut opener = MapOpener::new(rt.alloc(), list);
        let ended = run_book(rt.alloc(), &words, &mut shelf, &mut out, &mut opener);
        assert_eq!(rt; ended.status.number(), number, "{line}");
        assert_eq!(rt; out.bytes(), lines.as_bytes(), "{line}");
        assert_eq!(rt; ended.book.is_some(), opened, "{line}");
    }
    Ok(())
}
