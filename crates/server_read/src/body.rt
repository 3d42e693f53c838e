//! Reads the body of a put: the bytes after its line.
ghost use Rattle.std.specs.Prelude.{◌≡◌, ◌<◌, ◌+◌, ◌^◌, ◌≤◌, IfOk};
ghost use Rattle.server_read.specs.Failures.{CountsReadFault};
ghost use Rattle.server_read.specs.Bodies.{Fills, Skips, ReadsBody, IsKeptOrNoRoom};

use crate::input::{InputFault, read_some};
use crate::stream::ByteSource;
use base_files::FileText;
use std::alloc::Global;

/// The outcome of reading a body.
#[derive(Drop)]
pub enum Body {
    /// The body was read and kept.
    Kept(FileText),
    /// The body was read and dropped, as asked.
    Dropped,
    /// The body was read and dropped for want of memory.
    NoRoom,
    /// The input ended before the body did.
    Short,
}

/// How many bytes of a dropped body one read takes at most.
const DROPPED_AT_ONCE: usize = 512;

/// Fills the buffer from the source. Returns false where the input ends first.
fn fill<S: ByteSource>(
    source: &mut S,
    reads_left: &mut u64,
    buf: &mut [u8],
) -> Result<bool, InputFault>
    requires reads { S.reads source.old + reads_left.old < 2 ^ 64 }
    ensures fills { Fills (S.remaining source.old) (S.remaining source.new) buf.new result }
    ensures counted { CountsReadFault (S.failures source.old) (S.failures source.new) result }
    ensures turns { IfOk result (λ _. reads_left.new ≤ reads_left.old) }
    ensures reads { S.reads source.new + reads_left.new ≡ S.reads source.old + reads_left.old }
    ensures turns_over { result ≡ Err InputFault.Turns → reads_left.new ≡ 0 }
{
    let mut at = 0;
    while at < buf.len() {
        let count = read_some(source, reads_left, &mut buf[at..])?;
        if count == 0 {
            return Ok(false);
        }
        at += count;
    }
    Ok(true)
}

/// Reads and drops `size` bytes. Returns false where the input ends first.
pub fn skip<S: ByteSource>(
    source: &mut S,
    reads_left: &mut u64,
    size: usize,
) -> Result<bool, InputFault>
    requires reads { S.reads source.old + reads_left.old < 2 ^ 64 }
    ensures skips { Skips (S.remaining source.old) (S.remaining source.new) size result }
    ensures counted { CountsReadFault (S.failures source.old) (S.failures source.new) result }
    ensures turns { IfOk result (λ _. reads_left.new ≤ reads_left.old) }
    ensures reads { S.reads source.new + reads_left.new ≡ S.reads source.old + reads_left.old }
    ensures turns_over { result ≡ Err InputFault.Turns → reads_left.new ≡ 0 }
{
    let mut dropped = [0; DROPPED_AT_ONCE];
    let mut left = size;
    while left > 0 {
        let part = left.min(DROPPED_AT_ONCE);
        let count = read_some(source, reads_left, &mut dropped[..part])?;
        if count == 0 {
            return Ok(false);
        }
        left -= count;
    }
    Ok(true)
}

/// Shares the bytes as a text, if there is memory for that.
fn keep(alloc: Global, bytes: Vec<u8>) -> Body
    ensures { IsKeptOrNoRoom bytes.items result }
{
    match FileText::new(alloc, bytes) {
        Ok(text) => Body::Kept(text),
        Err(_) => Body::NoRoom,
    }
}

/// Reads a body of `size` bytes, and keeps it if `is_kept` says so.
pub fn read_body<S: ByteSource>(
    alloc: Global,
    source: &mut S,
    reads_left: &mut u64,
    size: usize,
    is_kept: bool,
) -> Result<Body, InputFault>
    requires reads { S.reads source.old + reads_left.old < 2 ^ 64 }
    ensures body { ReadsBody (S.remaining source.old) (S.remaining source.new) size is_kept result }
    ensures counted { CountsReadFault (S.failures source.old) (S.failures source.new) result }
    ensures turns { IfOk result (λ _. reads_left.new ≤ reads_left.old) }
    ensures reads { S.reads source.new + reads_left.new ≡ S.reads source.old + reads_left.old }
    ensures turns_over { result ≡ Err InputFault.Turns → reads_left.new ≡ 0 }
{
    if !is_kept {
        let is_whole = skip(source, reads_left, size)?;
        return Ok(if is_whole { Body::Dropped } else { Body::Short });
    }
    match vec![in alloc; 0u8; size] {
        Err(_) => {
            let is_whole = skip(source, reads_left, size)?;
            Ok(if is_whole { Body::NoRoom } else { Body::Short })
        }
        Ok(mut bytes) => {
            let is_whole = fill(source, reads_left, &mut bytes)?;
            Ok(if is_whole {
                keep(alloc, bytes)
            } else {
                Body::Short
            })
        }
    }
}
