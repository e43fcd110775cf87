//! Runs every example of `desk`: `desk_examples FOLDER`. The folder has groups, and a group has
//! examples. An example is a folder with lines of words, the logs that they name, and the text and
//! the status that each of the lines is answered by (`example`). The call is the program's
//! (`calls`), over the files themselves and over their bytes in pieces of every size from 1 to 8.
//!
//! The group `canaries` has examples whose text or status is wrong. Each of them must differ, in
//! the way that its file `difference` says, so that a comparison which finds no difference is
//! noticed.
#![tactic(auto)]

mod calls;
mod difference;
mod example;
mod running;

use difference::Difference;
use running::run_example;
use std::process::ExitCode;
use std::rt::Files;
use std::{env, fs, io};

/// The group of the canaries.
const CANARIES: &str = "canaries";

/// How many examples hold, how many canaries differ as they must, and how many of both do not.
#[derive(Clone, Copy)]
struct Tally {
    examples: usize,
    canaries: usize,
    wrong: usize,
}

/// Writes a line for each example that does not hold and each canary that does not differ as it
/// must, and the numbers of the others. Ends with 1 where there is one of those.
fn main(rt: HostRuntime) -> io::Result<ExitCode> {
    for word in env::args(&rt)?.skip(1) {
        env::set_current_dir(&rt, word.as_str())?;
    }
    let mut tally = Tally {
        examples: 0,
        canaries: 0,
        wrong: 0,
    };
    for group in &folders_here(&rt)? {
        run_group(&rt, group.as_str(), &mut tally)?;
    }
    println!(rt; "{} examples hold", tally.examples)?;
    println!(rt; "{} canaries differ as they must", tally.canaries)?;
    if tally.wrong == 0 {
        return Ok(ExitCode::SUCCESS);
    }
    Ok(ExitCode::FAILURE)
}

/// The names of the folders here, in order.
fn folders_here<R: Files + AllocGlobal + Clone + Drop>(rt: &R) -> io::Result<Vec<String>> {
    let mut names = Vec::new(rt.alloc());
    for entry in fs::read_dir(rt, ".")? {
        let entry = entry?;
        if entry.file_type()?.is_dir() {
            names.push(String::from_str(rt.alloc(), entry.file_name())?)?;
        }
    }
    names.sort()?;
    Ok(names)
}

/// Runs the examples of a group, which is a folder here.
fn run_group(rt: &HostRuntime, group: &str, tally: &mut Tally) -> io::Result<()> {
    env::set_current_dir(rt, group)?;
    for name in &folders_here(rt)? {
        env::set_current_dir(rt, name.as_str())?;
        let answer = run_example(rt);
        let is_right = is_as_it_must(rt, group, name.as_str(), answer)?;
        tally.count(group, is_right);
        env::set_current_dir(rt, "..")?;
    }
    env::set_current_dir(rt, "..")
}

impl Tally {
    /// Counts an example of a group.
    fn count(&mut self, group: &str, is_right: bool) {
        let number = match (is_right, group == CANARIES) {
            (false, _) => &mut self.wrong,
            (true, true) => &mut self.canaries,
            (true, false) => &mut self.examples,
        };
        *number = number.saturating_add(1);
    }
}

/// Whether the example in whose folder the process is holds, or, in the group of the canaries,
/// differs as it must. Where it does not, a line says what came.
fn is_as_it_must(
    rt: &HostRuntime,
    group: &str,
    name: &str,
    answer: io::Result<Option<Difference>>,
) -> io::Result<bool> {
    match answer {
        Ok(None) if group != CANARIES => return Ok(true),
        Ok(None) => println!(rt; "{group}/{name}: it does not differ")?,
        Ok(Some(difference)) => {
            if group == CANARIES && is_wanted(rt, &difference)? {
                return Ok(true);
            }
            println!(rt; "{group}/{name}: {difference}")?;
        }
        Err(error) => println!(rt; "{group}/{name}: {error}")?,
    }
    Ok(false)
}

/// Whether this is the difference that the canary in whose folder the process is must show.
fn is_wanted<R: Files + AllocGlobal>(rt: &R, difference: &Difference) -> io::Result<bool> {
    let wanted = fs::read_to_string(rt, "difference")?;
    let shown = difference.to_string(rt.alloc())?;
    Ok(shown.as_str() == wanted.as_str().trim_end())
}
