//! Runs every example: `examples FOLDER`. An example is a folder with the words of a command line,
//! the logs that they name, and the report; each is run as the program would, in its folder. Where
//! `words` has several lines, each of them is answered by the report.
//!
//! The folder `rows` has more of them, in groups: they are the tests of the program whose words,
//! logs and text are given, and no page shows them. Those of a group may share logs of its folder.
//!
//! The folder `canaries` has examples whose reports are wrong. Each of them must differ, in the
//! way that its file `difference` says, so that a comparison which finds no difference is
//! noticed.
#![tactic(auto)]

mod comparison;
mod example;

use example::{run_example, wanted_difference};
use std::process::ExitCode;
use std::rt::Files;
use std::{env, fs, io};

/// The folder of the canaries.
const CANARIES: &str = "canaries";

/// The folder of the groups of rows.
const ROWS: &str = "rows";

/// What a folder is: an example, which holds, or a canary, which differs.
#[derive(Clone, Copy)]
enum Kind {
    Example,
    Canary,
}

/// How many folders came out as they must, of how many.
#[derive(Clone, Copy)]
struct Tally {
    right: usize,
    all: usize,
}

impl Tally {
    /// Whether all came out as they must.
    fn is_whole(&self) -> bool {
        self.right == self.all
    }

    /// Both together.
    fn plus(&self, other: Tally) -> Tally {
        let right = self.right.saturating_add(other.right);
        let all = self.all.saturating_add(other.all);
        Tally { right, all }
    }
}

/// Writes a line for each folder that does not come out as it must, and the numbers of those
/// that do. Ends with 1 where one does not.
fn main(rt: HostRuntime) -> io::Result<ExitCode> {
    enter_folder(&rt)?;
    let examples = run_folders(&rt, Kind::Example)?;
    let rows = run_groups(&rt)?;
    env::set_current_dir(&rt, CANARIES)?;
    let canaries = run_folders(&rt, Kind::Canary)?;
    println!(rt; "{} examples hold", examples.right)?;
    println!(rt; "{} rows hold", rows.right)?;
    println!(rt; "{} canaries differ as they must", canaries.right)?;
    if examples.is_whole() && rows.is_whole() && canaries.is_whole() {
        return Ok(ExitCode::SUCCESS);
    }
    Ok(ExitCode::FAILURE)
}

/// Goes to the folder that the command line names. Where it names none, the examples are here.
fn enter_folder(rt: &HostRuntime) -> io::Result<()> {
    for word in env::args(rt)?.skip(1) {
        env::set_current_dir(rt, word.as_str())?;
    }
    Ok(())
}

/// Whether a folder of this name has folders of another kind.
fn is_apart(name: &str) -> bool {
    name == CANARIES || name == ROWS
}

/// The names of the folders here that are not apart, in order.
fn names_here<R: Files + AllocGlobal + Clone + Drop>(rt: &R) -> io::Result<Vec<String>> {
    let mut names = Vec::new(rt.alloc());
    for entry in fs::read_dir(rt, ".")? {
        let entry = entry?;
        if entry.file_type()?.is_dir() && !is_apart(entry.file_name()) {
            names.push(String::from_str(rt.alloc(), entry.file_name())?)?;
        }
    }
    names.sort()?;
    Ok(names)
}

/// Runs the folders here, which are all of this kind.
fn run_folders(rt: &HostRuntime, kind: Kind) -> io::Result<Tally> {
    let names = names_here(rt)?;
    let mut right = 0usize;
    for name in &names {
        if comes_out_right(rt, kind, name.as_str())? {
            right = right.saturating_add(1);
        }
    }
    let all = names.len();
    Ok(Tally { right, all })
}

/// Runs the rows of every group, and tells of each group that has one which does not hold.
fn run_groups(rt: &HostRuntime) -> io::Result<Tally> {
    let mut rows = Tally { right: 0, all: 0 };
    env::set_current_dir(rt, ROWS)?;
    for group in &names_here(rt)? {
        env::set_current_dir(rt, group.as_str())?;
        let here = run_folders(rt, Kind::Example)?;
        env::set_current_dir(rt, "..")?;
        if !here.is_whole() {
            println!(rt; "these are rows of {group}")?;
        }
        rows = rows.plus(here);
    }
    env::set_current_dir(rt, "..")?;
    Ok(rows)
}

/// Whether the folder of this name comes out as one of its kind must.
fn comes_out_right(rt: &HostRuntime, kind: Kind, name: &str) -> io::Result<bool> {
    match kind {
        Kind::Example => holds(rt, name),
        Kind::Canary => differs_as_it_must(rt, name),
    }
}

/// Whether the example of this name holds. Where it does not, a line says how it differs.
fn holds(rt: &HostRuntime, name: &str) -> io::Result<bool> {
    env::set_current_dir(rt, name)?;
    let answer = run_example(rt);
    env::set_current_dir(rt, "..")?;
    match answer {
        Ok(None) => return Ok(true),
        Ok(Some((line, difference))) => println!(rt; "{name}: {line}: {difference}")?,
        Err(error) => println!(rt; "{name}: {error}")?,
    }
    Ok(false)
}

/// Whether the canary of this name differs, in the way that its folder says. Where it does not,
/// a line says what came instead.
fn differs_as_it_must(rt: &HostRuntime, name: &str) -> io::Result<bool> {
    env::set_current_dir(rt, name)?;
    let answer = run_example(rt);
    let wanted = wanted_difference(rt);
    env::set_current_dir(rt, "..")?;
    match (answer, wanted) {
        (Ok(Some((_, difference))), Ok(wanted)) => {
            let shown = difference.to_string(rt.alloc())?;
            if shown.as_str() == wanted.as_str().trim_end() {
                return Ok(true);
            }
            println!(rt; "{name}: {difference}")?;
        }
        (Ok(None), _) => println!(rt; "{name}: it does not differ")?,
        (Err(error), _) | (_, Err(error)) => println!(rt; "{name}: {error}")?,
    }
    Ok(false)
}
