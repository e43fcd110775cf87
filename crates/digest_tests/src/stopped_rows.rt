//! Filings over files whose machine stops at each of its calls in turn, and which are opened again.
use crate::calls::CommandAnswer;
use crate::commands::Command;
use crate::disks::{CommandEnd, Disks, after_crash, come, empty_files};
use audit_base::faults::NoMemory;
use std::alloc::Global;
use std::process::Abort;
use std::test::Fail;

/// A filing of `desk`, and what is on file behind it, beside the case that `casebook` filed: the
/// cases as `casebook` lists them, and the rows of digests.
#[derive(Clone, Copy)]
struct Filing {
    line: &'static str,
    whole: &'static str,
}

/// What is on file before it.
const ALONE: &str = "case,c1,fair,Z,accepted\n";

// The digits are those that `sha256sum` writes of `o3` and of `e`.
const FILE: Filing = Filing {
    line: "file d d/X fair X o3 e",
    whole: "case,c1,fair,Z,accepted
case,d/X,fair,X,accepted
d/X,9ba927cdc36dc9bf941b6314b22e4a262b2e7100c1ed44ec3aab5b355535af27,\
51f03048151d8dcc702189a8a41b20a142ed824eaa8693ad30737813857f9b8b
",
};

const FILE_ALL: Filing = Filing {
    line: "file-all d d fair o3 e",
    whole: "case,c1,fair,Z,accepted
case,d/X,fair,X,accepted
case,d/Y,fair,Y,accepted
case,d/Z,fair,Z,accepted
d/X,9ba927cdc36dc9bf941b6314b22e4a262b2e7100c1ed44ec3aab5b355535af27,\
51f03048151d8dcc702189a8a41b20a142ed824eaa8693ad30737813857f9b8b
d/Y,9ba927cdc36dc9bf941b6314b22e4a262b2e7100c1ed44ec3aab5b355535af27,\
51f03048151d8dcc702189a8a41b20a142ed824eaa8693ad30737813857f9b8b
d/Z,9ba927cdc36dc9bf941b6314b22e4a262b2e7100c1ed44ec3aab5b355535af27,\
51f03048151d8dcc702189a8a41b20a142ed824eaa8693ad30737813857f9b8b
",
};

/// Which file stops: the log, or the database file.
#[derive(Clone, Copy)]
enum StoppedFile {
    Log,
    Database,
}

fn stopping_files(alloc: Global, stopped: StoppedFile, calls: u64) -> Disks {
    match stopped {
        StoppedFile::Log => empty_files(alloc, calls, u64::MAX),
        StoppedFile::Database => empty_files(alloc, u64::MAX, calls),
    }
}

/// What a run over files that stop comes to: whether the first command was done, and both, whether
/// the database was closed with no fault behind them too, and what is on file after a crash.
#[derive(Drop)]
struct Run {
    begun: bool,
    done: bool,
    closed: bool,
    left: CommandAnswer,
}

fn is_done(said: &CommandAnswer) -> bool {
    said.number == 0
}

/// What is on file in files as a crash leaves them.
fn show_after_crash<R: AllocGlobal + Abort>(
    rt: &R,
    files: Disks,
) -> Result<CommandAnswer, NoMemory> {
    let CommandEnd {
        said,
        closed: _,
        files: _files,
    } = come(rt, Command::Show, after_crash(files));
    said
}

/// Files a case as `casebook` does, then what the line says, over files that stop, and opens them
/// again.
fn run_stopping<R: AllocGlobal + Abort>(
    rt: &R,
    files: Disks,
    line: &'static str,
) -> Result<Run, NoMemory> {
    let CommandEnd {
        said: first,
        closed: first_closed,
        files,
    } = come(rt, Command::Casebook("file c1 fair Z csv o3 e"), files);
    let CommandEnd {
        said: second,
        closed: second_closed,
        files,
    } = come(rt, Command::Desk(line), files);
    let left = show_after_crash(rt, files)?;
    let (first, second) = (first?, second?);
    Ok(Run {
        begun: is_done(&first),
        done: is_done(&first) && is_done(&second),
        closed: first_closed && second_closed,
        left,
    })
}

/// How many stops left nothing, the case of `casebook` alone, and all.
#[derive(Clone, Copy)]
struct Stops {
    nothing: u64,
    alone: u64,
    whole: u64,
}

impl Stops {
    /// Counts a stop that left this: whether it is one of the three.
    fn count(&mut self, left: &CommandAnswer, whole: &str) -> bool {
        if left.is(0, "") {
            self.nothing = self.nothing.saturating_add(1);
            return true;
        }
        if left.is(0, ALONE) {
            self.alone = self.alone.saturating_add(1);
            return true;
        }
        self.whole = self.whole.saturating_add(1);
        left.is(0, whole)
    }
}

/// More calls than one run makes of a file, from the first open to the last close.
const MOST_CALLS: u64 = 250;

/// Stops a file at each of its calls in turn, up to a run that is not stopped. Fails where a stop
/// leaves a part of the filing, not all of it though it was done, or no case of `casebook` though
/// that was filed.
fn count_stops<R: AllocGlobal + Abort>(
    rt: &R,
    stopped: StoppedFile,
    filing: &Filing,
) -> Result<Stops, Fail> {
    let mut stops = Stops {
        nothing: 0,
        alone: 0,
        whole: 0,
    };
    for calls in 0..MOST_CALLS {
        let files = stopping_files(rt.alloc(), stopped, calls);
        let run = run_stopping(rt, files, filing.line)?;
        let counted = stops.count(&run.left, filing.whole);
        assert!(rt; counted && (!run.begun || !run.left.is(0, "")), "{calls}");
        assert!(rt; !run.done || run.left.is(0, filing.whole), "{calls}");
        if run.done && run.closed {
            return Ok(stops);
        }
    }
    Err(Fail::new("stopped each time"))
}

/// Asserts that so many stops at least leave nothing, the case of `casebook` alone, and all.
fn assert_stops<R: AllocGlobal + Abort>(
    rt: &R,
    stopped: StoppedFile,
    filing: &Filing,
    least: (u64, u64, u64),
) -> Result<(), Fail> {
    let stops = count_stops(rt, stopped, filing)?;
    let (nothing, alone, whole) = least;
    assert!(rt;
        stops.nothing >= nothing && stops.alone >= alone && stops.whole >= whole,
        "{} {} {}",
        stops.nothing,
        stops.alone,
        stops.whole
    );
    Ok(())
}

#[test]
fn file_is_whole_or_not_at_all(rt: HostRuntime) -> Result<(), Fail> {
    assert_stops(&rt, StoppedFile::Database, &FILE, (10, 10, 5))?;
    assert_stops(&rt, StoppedFile::Log, &FILE, (10, 10, 2))
}

#[test]
fn file_all_is_whole_or_not_at_all(rt: HostRuntime) -> Result<(), Fail> {
    assert_stops(&rt, StoppedFile::Database, &FILE_ALL, (10, 20, 5))?;
    assert_stops(&rt, StoppedFile::Log, &FILE_ALL, (10, 10, 2))
}
