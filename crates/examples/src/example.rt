//! The runs of one folder, over its files.
use super::comparison::{Difference, compare};
use audit_run::running::run;
use log_source::file_shelf::FileShelf;
use log_source::memory_sink::MemorySink;
use std::alloc::Global;
use std::io::ErrorKind;
use std::rt::Files;
use std::{fs, io};

/// More bytes than an example's report has.
const ROOM: usize = 65_536;

/// The words of a line, with one space between two of them; an empty line has none.
fn words_of(alloc: Global, line: &str) -> io::Result<Vec<String>> {
    let mut words = Vec::new(alloc);
    if line.is_empty() {
        return Ok(words);
    }
    for word in line.split(' ') {
        words.push(String::from_str(alloc, word)?)?;
    }
    Ok(words)
}

/// A sink that holds any example's report.
fn sink(alloc: Global) -> io::Result<MemorySink> {
    let made = MemorySink::new(alloc, ROOM, ROOM, Vec::new(alloc));
    made.map_err(|_| io::Error::from(ErrorKind::OutOfMemory))
}

/// How the run of one line of words differs from the report.
fn run_line<R: Files + AllocGlobal + Clone + Drop>(
    rt: &R,
    line: &str,
    report: &[u8],
) -> io::Result<Option<Difference>> {
    let words = words_of(rt.alloc(), line)?;
    let mut shelf = FileShelf::new(rt.clone()?);
    let mut out = sink(rt.alloc())?;
    let status = run(rt.alloc(), &words, &mut shelf, &mut out);
    Ok(compare(report, status, out.bytes()))
}

/// Runs each line of the words of the example in whose folder the process is, and gives the first
/// that differs from the report, and how. An error comes where there is no line, the words or the
/// report cannot be read, or memory runs out.
pub(crate) fn run_example<R: Files + AllocGlobal + Clone + Drop>(
    rt: &R,
) -> io::Result<Option<(String, Difference)>> {
    let text = fs::read_to_string(rt, "words")?;
    let report = fs::read(rt, "report")?;
    if text.as_str().is_empty() {
        return Err(io::Error::from(ErrorKind::InvalidData));
    }
    for line in text.as_str().lines() {
        if let Some(difference) = run_line(rt, line, report.as_slice())? {
            return Ok(Some((String::from_str(rt.alloc(), line)?, difference)));
        }
    }
    Ok(None)
}

/// The difference that the canary in whose folder the process is must show.
pub(crate) fn wanted_difference<R: Files + AllocGlobal>(rt: &R) -> io::Result<String> {
    fs::read_to_string(rt, "difference")
}
