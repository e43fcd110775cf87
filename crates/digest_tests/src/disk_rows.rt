//! Commands over one database on a disk that does not stop, each of which opens and closes it.
use crate::commands::Command;
use crate::disks::{CommandEnd, come, empty_files};
use crate::keepers::files_together;
use audit_base::faults::NoMemory;
use digest_keeper::map_digest_keeper::MapDigestKeeper;
use std::process::Abort;
use std::test::Fail;

/// A command, its status and its lines.
type CommandRow = (Command, u8, &'static str);

/// Does the commands one after another over a new database, and asserts what each says.
fn assert_rows<R: AllocGlobal + Abort>(rt: &R, rows: &[CommandRow]) -> Result<(), NoMemory> {
    let mut files = empty_files(rt.alloc(), u64::MAX, u64::MAX);
    for &(command, number, lines) in rows {
        let CommandEnd {
            said,
            files: left,
            closed,
        } = come(rt, command, files);
        files = left;
        let said = said?;
        assert!(rt; closed && said.is(number, lines), "{lines}");
    }
    Ok(())
}

/// Cases that are filed together in a new database.
const ALONE: [CommandRow; 2] = [
    (Command::Together, 0, ""),
    (
        Command::Show,
        0,
        "case,d/Y,fair,Y,accepted
case,d/Z,fair,Z,accepted
d/Y,ba7816bf8f01cfea414140de5dae2223b00361a396177a9cb410ff61f20015ad,\
e3b0c44298fc1c149afbf4c8996fb92427ae41e4649b934ca495991b7852b855
d/Z,ba7816bf8f01cfea414140de5dae2223b00361a396177a9cb410ff61f20015ad,\
e3b0c44298fc1c149afbf4c8996fb92427ae41e4649b934ca495991b7852b855
",
    ),
];

/// Cases that are filed together beside one of `casebook`, which has no digests.
const BESIDE: [CommandRow; 5] = [
    (
        Command::Casebook("file c1 fair Z csv o3 e"),
        0,
        "case,c1,fair,Z,accepted\n",
    ),
    (Command::Show, 0, "case,c1,fair,Z,accepted\n"),
    (Command::Desk("check d c1 o3 e"), 1, "nodigest,c1\n"),
    (Command::Together, 0, ""),
    (
        Command::Show,
        0,
        "case,c1,fair,Z,accepted
case,d/Y,fair,Y,accepted
case,d/Z,fair,Z,accepted
d/Y,ba7816bf8f01cfea414140de5dae2223b00361a396177a9cb410ff61f20015ad,\
e3b0c44298fc1c149afbf4c8996fb92427ae41e4649b934ca495991b7852b855
d/Z,ba7816bf8f01cfea414140de5dae2223b00361a396177a9cb410ff61f20015ad,\
e3b0c44298fc1c149afbf4c8996fb92427ae41e4649b934ca495991b7852b855
",
    ),
];

/// Columns of rows that something else has put into the table of cases, each with whether it is the
/// row of a case. The columns are label, rule, symbol, property, log and place.
const ROWS: [(&str, bool); 19] = [
    ("'c1', 1, 'Z', 0, 0, 0", true),
    ("'c1', 5, 'Z', 16, 1, 1", true),
    ("'c1', 5, 'Z', 1, 2, 4294967295", true),
    ("'c1', 0, 'Z', 0, 0, 0", false),
    ("'c1', 9, 'Z', 0, 0, 0", false),
    ("'c1', 'matching', 'Z', 0, 0, 0", false),
    ("'c1', 1.5, 'Z', 0, 0, 0", false),
    ("'c1', -1, 'Z', 0, 0, 0", false),
    ("'c1', 4294967297, 'Z', 0, 0, 0", false),
    ("'', 1, 'Z', 0, 0, 0", false),
    ("'c,1', 1, 'Z', 0, 0, 0", false),
    ("x'6331', 1, 'Z', 0, 0, 0", false),
    ("'c1', 1, '\"', 0, 0, 0", false),
    ("'c1', 1, 'Z', 17, 1, 1", false),
    ("'c1', 1, 'Z', 14, 3, 1", false),
    ("'c1', 1, 'Z', 14, 2, 0", false),
    ("'c1', 1, 'Z', 14, 2, 4294967296", false),
    ("'c1', 1, 'Z', 0, 0, 1", false),
    ("'c1', 1, 'Z', 0, 1, 0", false),
];

/// Whether the cases are listed once something else has put a row into a new table of them. The case
/// of the label `c1` is shown exactly where they are.
fn lists_row<R: AllocGlobal + Abort>(rt: &R, columns: &'static str) -> Result<bool, NoMemory> {
    let files = empty_files(rt.alloc(), u64::MAX, u64::MAX);
    let made = come(rt, Command::Casebook("list"), files);
    let put = come(rt, Command::Put(columns), made.files);
    let listed = come(rt, Command::Casebook("list"), put.files);
    let shown = come(rt, Command::Casebook("show c1"), listed.files);
    let (made, put, listed) = (made.said?, put.said?, listed.said?);
    let shown = shown.said?;
    assert!(rt; made.is(0, "") && put.is(0, ""), "{columns}");
    assert!(rt;
        listed.number == 0 || listed.is(8, "keeperfault\n"),
        "{columns}"
    );
    assert!(rt; (shown.number == 0) == (listed.number == 0), "{columns}");
    Ok(listed.number == 0)
}

// Each test of a database costs the proof of all that it runs, so these are one.
#[test]
fn filed_and_listed_on_a_disk(rt: HostRuntime) -> Result<(), Fail> {
    assert_rows(&rt, &ALONE)?;
    assert_rows(&rt, &BESIDE)?;
    for &(columns, is_case) in &ROWS {
        assert!(rt; lists_row(&rt, columns)? == is_case, "{columns}");
    }
    Ok(())
}

#[test]
fn all_of_a_list_or_none_in_memory(rt: HostRuntime) -> Result<(), Fail> {
    let alloc = rt.alloc();
    let mut keeper = MapDigestKeeper::holding(alloc, Vec::new(alloc), Vec::new(alloc));
    assert!(rt; files_together(&mut keeper));
    Ok(())
}
