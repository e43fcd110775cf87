//! Runs of bytes of a line of which each stands for one byte: for SOH, where it is the whole text
//! for SOH, and else for itself. Up to where a longer text for SOH may begin, or the line may end,
//! they are copied at once.
ghost use Rattle.std.specs.Prelude.{◌≡◌, ◌<◌, ◌≤◌, ◌==◌, ◌++◌, length, map, not, take, vec_len, IfOk, IfSome, OnOk, MatchOption, if◌then◌else◌};
ghost use Rattle.std.specs.List.{prefix_len};
ghost use Rattle.fix_days.specs.Runs.{AppendsRun, IsNearRun, IsRun, IsRunUpTo, byte_alone};

use audit_base::faults::NoMemory;
use audit_base::sizes::SOH;
use memchr::{memchr, memchr2};
use std::simd::prelude::*;

/// How many bytes are searched, and copied, at once where a run is short. Most fields are shorter.
const CHUNK: usize = 16;

/// Where the run that the text begins with ends: nowhere, where the whole text is one.
fn run_end(soh: &[u8], text: &[u8]) -> Option<usize>
    requires { 0 < length soh.now }
    ensures { MatchOption result (IsRun soh.now text.now) (IsRunUpTo soh.now text.now) }
{
    if soh.len() == 1 {
        return memchr(b'\n', text);
    }
    memchr2(b'\n', soh[0], text)
}

/// How many bytes the text begins with, at most `most`, of which each stands for one.
fn run_size(soh: &[u8], text: &[u8], most: usize) -> usize
    requires { 0 < length soh.now }
    ensures { IsRunUpTo soh.now text.now result }
{
    match run_end(soh, text) {
        Some(end) => end.min(most),
        None => text.len().min(most),
    }
}

/// How many of the first 16 bytes of the text come before the first that is this one.
#[inline(always)]
fn bytes_before(byte: u8, text: &[u8]) -> usize
    requires { 16 ≤ length text.now }
    ensures { result ≡ prefix_len (λ each. not (each == byte)) (take 16 text.now) }
{
    let found = u8x16::from_slice(text)
        .simd_eq(u8x16::splat(byte))
        .to_bitmask();
    if found == 0 {
        CHUNK
    } else {
        found.trailing_zeros() as usize
    }
}

/// How many of the first 16 bytes of the text stand for one each, up to the first that may not.
#[inline(always)]
fn bytes_alone(soh: &[u8], text: &[u8]) -> usize
    requires some { 0 < length soh.now }
    requires room { 16 ≤ length text.now }
    ensures run { IsRunUpTo soh.now text.now result }
    ensures near { result ≤ 16 }
{
    bytes_before(b'\n', text).min(bytes_before(soh[0], text))
}

/// How many bytes the text begins with, at most `most`, of which each stands for one, where a
/// longer text stands for SOH and they end within a chunk.
#[inline(always)]
fn near_size(soh: &[u8], text: &[u8], most: usize) -> Option<usize>
    requires { 0 < length soh.now }
    ensures { IfSome result (IsNearRun soh.now text.now) }
{
    if soh.len() == 1 || text.len() < CHUNK {
        return None;
    }
    let size = bytes_alone(soh, text);
    if size == CHUNK {
        return None;
    }
    Some(size.min(most))
}

/// Appends the first bytes of the text, at most a chunk: a whole chunk is copied, which is faster
/// than so many bytes, and the rest of it dropped.
#[inline(always)]
fn append_front(text: &[u8], size: usize, out: &mut Vec<u8>) -> Result<(), NoMemory>
    requires near { size ≤ 16 }
    requires room { 16 ≤ length text.now }
    ensures { OnOk result (out.new.items ≡ out.old.items ++ take size text.now) }
{
    let start = out.len();
    out.extend_from_slice(&text[..CHUNK])?;
    out.truncate(start + size);
    Ok(())
}

/// What a byte stands for, where this one stands for SOH.
fn byte_for(each: u8, byte: u8) -> u8
    ensures { result ≡ (if each == byte then 1 else each) }
{
    if each == byte { SOH } else { each }
}

/// Puts SOH in the place of each byte that is this one.
fn put_soh(bytes: &mut [u8], byte: u8)
    ensures { bytes.new ≡ map (λ b. if b == byte then 1 else b) bytes.old }
{
    for each in bytes.iter_mut() {
        *each = byte_for(*each, byte);
    }
}

/// Appends what these bytes stand for, of which each stands for one.
fn append_alone(soh: &[u8], run: &[u8], out: &mut Vec<u8>) -> Result<(), NoMemory>
    requires { 0 < length soh.now }
    ensures { OnOk result
        (out.new.items ≡ out.old.items ++ map (byte_alone soh.now) run.now) }
{
    let start = out.len();
    out.extend_from_slice(run)?;
    if soh.len() == 1 {
        put_soh(out.slice_mut(start..), soh[0]);
    }
    Ok(())
}

/// Appends what the bytes that the text begins with stand for, as long as each stands for one, at
/// most `most` of them, and gives how many these are.
pub(crate) fn append_run(
    soh: &[u8],
    text: &[u8],
    most: usize,
    out: &mut Vec<u8>,
) -> Result<usize, NoMemory>
    requires { 0 < length soh.now }
    ensures { IfOk result (AppendsRun soh.now text.now out.old.items out.new.items) }
{
    if let Some(size) = near_size(soh, text, most) {
        append_front(text, size, out)?;
        return Ok(size);
    }
    let size = run_size(soh, text, most);
    append_alone(soh, &text[..size], out)?;
    Ok(size)
}
