//! Logs in memory, and where a slot is in one of them.
ghost use Rattle.std.specs.Prelude.{◌≡◌, ◌<◌, ◌≤◌, true, length, drop, Some, None, IfSome, IfNone, IfOk, IfErr, is_err, is_none, ◌||◌};
ghost use Rattle.log_source.specs.Calls.{faults_after};
ghost use Rattle.log_source.specs.Sources.{Starts, Reads};
ghost use Rattle.log_source.specs.Cursors.{newest_log_bytes, log_bytes_at, cursor_read_size, cursor_state, IsCursorInside};

use crate::in_memory::copy_piece;
use crate::shelf::{Failed, StartFault};

/// A log and its name.
#[derive(Drop)]
pub(crate) struct NamedLog {
    pub(crate) name: String,
    pub(crate) bytes: Vec<u8>,
}

/// Where a slot is: in which log, and after how many of its bytes.
#[derive(Clone, Copy)]
pub(crate) struct Cursor {
    pub(crate) started: bool,
    pub(crate) log: usize,
    pub(crate) at: usize,
    pub(crate) starts: u64,
    pub(crate) faults: u64,
}

/// The index of the newest log of this name.
fn newest_index(logs: &[NamedLog], name: &str) -> Option<usize>
    ensures within { IfSome result (λ i. i < length logs.now) }
    ensures found { IfSome result
        (λ i. newest_log_bytes logs.now name.now ≡ Some (log_bytes_at logs.now i)) }
    ensures none { IfNone result (newest_log_bytes logs.now name.now ≡ None) }
{
    let mut found = None;
    for (index, log) in logs.iter().enumerate() {
        if log.name.as_str() == name {
            found = Some(index);
        }
    }
    found
}

/// Starts the newest log of this name at its first byte, unless the call is to fail.
pub(crate) fn start_cursor(
    logs: &[NamedLog],
    cursor: &mut Cursor,
    fails: bool,
    name: &str,
) -> Result<(), StartFault>
    ensures slot { let state = cursor_state logs.now in
        Starts true (newest_log_bytes logs.now name.now)
        (state cursor.old) (state cursor.new) result }
    ensures within { IsCursorInside logs.now cursor.new }
    ensures failing { is_err result ≡ (fails || is_none (newest_log_bytes logs.now name.now)) }
    ensures memory { IfErr result (λ fault. fault ≡ StartFault.Failed) }
    ensures faults { cursor.new.faults ≡ faults_after fails cursor.old.faults }
{
    cursor.started = false;
    cursor.at = 0;
    cursor.starts = cursor.starts.saturating_add(1);
    if fails {
        cursor.faults = cursor.faults.saturating_add(1);
        return Err(StartFault::Failed);
    }
    let log = newest_index(logs, name).ok_or(StartFault::Failed)?;
    cursor.started = true;
    cursor.log = log;
    Ok(())
}

/// The bytes that are still to come.
fn rest_of<'a>(logs: &'a [NamedLog], cursor: &Cursor) -> &'a [u8]
    ensures { result.now ≡ drop cursor.now.at (log_bytes_at logs.now cursor.now.log) }
{
    match logs.get(cursor.log) {
        Some(log) if cursor.at <= log.bytes.len() => &log.bytes[cursor.at..],
        _ => &[],
    }
}

/// Gives the next bytes of the started log, unless the call is to fail.
pub(crate) fn read_cursor(
    logs: &[NamedLog],
    cursor: &mut Cursor,
    fails: bool,
    piece: usize,
    buf: &mut [u8],
) -> Result<usize, Failed>
    requires piece { 1 ≤ piece }
    requires started { cursor.old.started ≡ true }
    requires room { 0 < length buf.old }
    ensures slot { let state = cursor_state logs.now in
        Reads (state cursor.old) (state cursor.new) result buf.new }
    ensures log { cursor.new.log ≡ cursor.old.log }
    ensures failing { is_err result ≡ fails }
    ensures count { let size = cursor_read_size logs.now cursor.old piece (length buf.old) in
        IfOk result (λ n. n ≡ size) }
    ensures faults { cursor.new.faults ≡ faults_after fails cursor.old.faults }
{
    if fails {
        cursor.faults = cursor.faults.saturating_add(1);
        return Err(Failed);
    }
    let count = copy_piece(rest_of(logs, cursor), piece, buf);
    cursor.at += count;
    Ok(count)
}
