//! The run of an example: each of its lines, over its files and over their bytes in pieces.
ghost use Rattle.std.specs.Prelude.{◌≤◌};

use crate::calls::{CallEnd, make_call};
use crate::difference::Difference;
use crate::example::{Example, read_example, shelf_of};
use audit_base::faults::NoMemory;
use audit_base::names::read_name;
use digest_keeper::digested::KeptCase;
use digest_keeper::keeper::DigestKeeper;
use log_source::file_shelf::FileShelf;
use std::alloc::Global;
use std::io;
use std::io::ErrorKind;
use std::rt::Files;

/// The words of a line, which one space each divides; an empty line has none.
fn words_of(alloc: Global, line: &str) -> io::Result<Vec<String>> {
    let mut words = Vec::new(alloc);
    if line.is_empty() {
        return Ok(words);
    }
    for word in line.split(' ') {
        words.push(String::from_str(alloc, word)?)?;
    }
    Ok(words)
}

/// What a call came to, where memory did not run out.
fn came<T>(answer: Result<T, NoMemory>) -> io::Result<T> {
    answer.map_err(|_| io::Error::from(ErrorKind::OutOfMemory))
}

/// The case that is on file before the lines of an example: the one that its line `before` files,
/// whose third word is the label.
fn case_before<R: Files + AllocGlobal + Clone + Drop>(
    rt: &R,
    example: &Example,
) -> io::Result<Option<KeptCase>> {
    let words = words_of(rt.alloc(), example.before.as_str().trim_end())?;
    let Some(label) = words.get(2) else {
        return Ok(None);
    };
    let files = FileShelf::new(rt.clone()?);
    let filed = came(make_call(rt.alloc(), &words, files, &None))?;
    match (filed.book, read_name(label.as_bytes())) {
        (Some(mut book), Some(label)) => match book.find(&label) {
            Ok(Some(kept)) => Ok(Some(kept)),
            _ => Err(io::Error::from(ErrorKind::NotFound)),
        },
        _ => Err(io::Error::from(ErrorKind::NotFound)),
    }
}

/// How what a call came to differs from what the example wants.
fn compare(
    alloc: Global,
    example: &Example,
    line: &str,
    came: &CallEnd,
) -> io::Result<Option<Difference>> {
    let status = came.status.to_string(alloc)?;
    if status.as_str() != example.status.as_str() {
        let line = String::from_str(alloc, line)?;
        let wanted = example.status.clone()?;
        return Ok(Some(Difference::Status(line, came.status, wanted)));
    }
    if came.out.bytes() != example.report.as_slice() {
        return Ok(Some(Difference::Text(String::from_str(alloc, line)?)));
    }
    Ok(None)
}

/// Runs a line over the bytes of the logs, in pieces of one size.
fn run_piece(
    alloc: Global,
    example: &Example,
    line: &str,
    kept: &Option<KeptCase>,
    piece: usize,
) -> io::Result<Option<Difference>>
    requires { 1 ≤ piece }
{
    let words = words_of(alloc, line)?;
    let Ok(shelf) = shelf_of(alloc, example, piece) else {
        return Err(io::Error::from(ErrorKind::OutOfMemory));
    };
    let answer = came(make_call(alloc, &words, shelf, kept))?;
    compare(alloc, example, line, &answer)
}

/// Runs a line over the bytes of the logs, in pieces of every size from 1 to 8.
fn run_in_pieces(
    alloc: Global,
    example: &Example,
    line: &str,
    kept: &Option<KeptCase>,
) -> io::Result<Option<Difference>> {
    for piece in 1..=8 {
        if let Some(difference) = run_piece(alloc, example, line, kept, piece)? {
            return Ok(Some(difference));
        }
    }
    Ok(None)
}

/// Runs a line over the files, and where there are some, over their bytes in pieces.
fn run_line<R: Files + AllocGlobal + Clone + Drop>(
    rt: &R,
    example: &Example,
    line: &str,
    kept: &Option<KeptCase>,
) -> io::Result<Option<Difference>> {
    let words = words_of(rt.alloc(), line)?;
    let files = FileShelf::new(rt.clone()?);
    let answer = came(make_call(rt.alloc(), &words, files, kept))?;
    if let Some(difference) = compare(rt.alloc(), example, line, &answer)? {
        return Ok(Some(difference));
    }
    if example.has_logs() {
        return run_in_pieces(rt.alloc(), example, line, kept);
    }
    Ok(None)
}

/// Runs the example in whose folder the process is, and gives the first difference of a line. An
/// error comes where the folder cannot be read, or memory runs out.
pub(crate) fn run_example<R: Files + AllocGlobal + Clone + Drop>(
    rt: &R,
) -> io::Result<Option<Difference>> {
    let example = read_example(rt)?;
    let kept = case_before(rt, &example)?;
    for line in example.words.as_str().lines() {
        if let Some(difference) = run_line(rt, &example, line, &kept)? {
            return Ok(Some(difference));
        }
    }
    Ok(None)
}
