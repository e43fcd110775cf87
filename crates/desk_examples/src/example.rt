//! An example, as its folder says it.
ghost use Rattle.std.specs.Prelude.{◌≡◌, ◌≤◌, false, IfOk};
ghost use Rattle.audit_base.specs.declared.terms.Which.{Which};
ghost use Rattle.log_source.specs.MemoryShelves.{memory_slot};

use audit_base::faults::NoMemory;
use log_source::memory_shelf::MemoryShelf;
use std::alloc::Global;
use std::io::ErrorKind;
use std::rt::Files;
use std::{fs, io};

/// A log: the name of its file, and its bytes.
#[derive(Drop)]
struct Log {
    name: String,
    bytes: Vec<u8>,
}

/// An example. Each line of `words` is the words of a call, with one space between two of them,
/// and each is answered by `report` and by `status`. Where there is a line `before`, a case is
/// filed by it first.
#[derive(Drop)]
pub(crate) struct Example {
    pub(crate) words: String,
    pub(crate) before: String,
    pub(crate) report: Vec<u8>,
    pub(crate) status: String,
    logs: Vec<Log>,
}

/// The text of a file; no byte where it is not there.
fn text_of<R: Files + AllocGlobal>(rt: &R, path: &str) -> io::Result<String> {
    match fs::read_to_string(rt, path) {
        Ok(text) => Ok(text),
        Err(error) if error.kind() == ErrorKind::NotFound => Ok(String::new(rt.alloc())),
        Err(error) => Err(error),
    }
}

/// The status that is wanted: 0 where no file says another.
fn status_of<R: Files + AllocGlobal>(rt: &R) -> io::Result<String> {
    let text = text_of(rt, "status")?;
    let status = text.as_str().trim_end();
    if status.is_empty() {
        return Ok(String::from_str(rt.alloc(), "0")?);
    }
    Ok(String::from_str(rt.alloc(), status)?)
}

/// Whether a file of an example is no log.
fn is_no_log(name: &str) -> bool {
    matches!(
        name,
        "words" | "before" | "report" | "status" | "difference"
    )
}

/// The logs of the folder in which the process is.
fn logs_here<R: Files + AllocGlobal + Clone + Drop>(rt: &R) -> io::Result<Vec<Log>> {
    let mut logs = Vec::new(rt.alloc());
    for entry in fs::read_dir(rt, ".")? {
        let entry = entry?;
        if !is_no_log(entry.file_name()) {
            let name = String::from_str(rt.alloc(), entry.file_name())?;
            let bytes = fs::read(rt, entry.file_name())?;
            logs.push(Log { name, bytes })?;
        }
    }
    Ok(logs)
}

/// Reads the example in whose folder the process is.
pub(crate) fn read_example<R: Files + AllocGlobal + Clone + Drop>(rt: &R) -> io::Result<Example> {
    Ok(Example {
        words: fs::read_to_string(rt, "words")?,
        before: text_of(rt, "before")?,
        report: fs::read(rt, "report")?,
        status: status_of(rt)?,
        logs: logs_here(rt)?,
    })
}

impl Example {
    /// Whether a call has a log that it may read.
    pub(crate) fn has_logs(&self) -> bool {
        !self.logs.is_empty()
    }
}

/// A shelf over the bytes of the logs of an example, which come at most `piece` at a time.
pub(crate) fn shelf_of(
    alloc: Global,
    example: &Example,
    piece: usize,
) -> Result<MemoryShelf, NoMemory>
    requires { 1 ≤ piece }
    ensures fresh { IfOk result (λ shelf.
        (which : Which) → (memory_slot shelf which).started ≡ false) }
{
    let mut shelf = MemoryShelf::new(alloc, piece, Vec::new(alloc));
    'logs: for log in &example.logs {
        shelf.put(log.name.clone()?, log.bytes.clone()?)?;
    }
    Ok(shelf)
}
