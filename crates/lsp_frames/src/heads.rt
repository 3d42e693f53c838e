//! Reads headers.
ghost use Rattle.std.specs.Prelude.{◌≡◌, ◌+◌, ◌^◌, ◌≤◌, ◌<◌, IfOk, vec_capacity};
ghost use Rattle.server_read.specs.Failures.{CountsReadFault};
ghost use Rattle.lsp_frames.specs.Heads.{ReadsField, ReadsHead, head_with, size_behind};

use lsp_message::{HeaderField, read_header};
use server_read::{ByteSource, InputFault, ReadLine, read_line};
use std::alloc::{AllocError, Global};

/// How many bytes a line of a header has at most that says something.
pub(crate) const LONGEST_LINE: usize = 1024;

/// A buffer with room for the longest line of a header that says something.
#[derive(Drop)]
pub struct HeaderRoom {
    bytes: Vec<u8>,
    ghost room: { 1024 ≤ vec_capacity bytes },
}

impl HeaderRoom {
    pub fn new(alloc: Global) -> Result<HeaderRoom, AllocError> {
        let bytes = Vec::with_capacity(alloc, 1024)?;
        Ok(HeaderRoom { bytes })
    }
}

/// What a header says of the body.
#[derive(Clone, Copy, Debug, PartialEq, Eq)]
pub(crate) enum Head {
    /// The input was over before the header.
    Over,
    /// The header gives no length of a body.
    NoLength,
    /// The body has so many bytes.
    Length(usize),
}

/// Reads a line of a header. Returns what it says, or `None` at the end of the input.
fn read_field<S: ByteSource>(
    source: &mut S,
    reads_left: &mut u64,
    room: &mut HeaderRoom,
) -> Result<Option<HeaderField>, InputFault>
    requires reads { S.reads source.old + reads_left.old < 2 ^ 64 }
    ensures field { ReadsField (S.remaining source.old) (S.remaining source.new) result }
    ensures counted { CountsReadFault (S.failures source.old) (S.failures source.new) result }
    ensures turns { IfOk result (λ _. reads_left.new < reads_left.old) }
    ensures reads { S.reads source.new + reads_left.new ≡ S.reads source.old + reads_left.old }
    ensures turns_over { result ≡ Err InputFault.Turns → reads_left.new ≡ 0 }
{
    match read_line(source, reads_left, &mut room.bytes, LONGEST_LINE) {
        Err(fault) => Err(fault),
        Ok(ReadLine::Nothing) => Ok(None),
        Ok(ReadLine::TooLong) => Ok(Some(HeaderField::Other)),
        Ok(ReadLine::Whole) => Ok(Some(read_header(&room.bytes))),
    }
}

/// The size by a field and by the fields before it.
fn size_behind(field: HeaderField, before: Option<usize>) -> Option<usize>
    ensures { result ≡ size_behind field before }
{
    match field {
        HeaderField::Length(size) => Some(size),
        HeaderField::NoLength => None,
        HeaderField::End | HeaderField::Other => before,
    }
}

/// What a header with this size says.
fn head_with(size: Option<usize>) -> Head
    ensures { result ≡ head_with size }
{
    match size {
        Some(size) => Head::Length(size),
        None => Head::NoLength,
    }
}

/// Reads a header.
pub(crate) fn read_head<S: ByteSource>(
    source: &mut S,
    reads_left: &mut u64,
    room: &mut HeaderRoom,
) -> Result<Head, InputFault>
    requires reads { S.reads source.old + reads_left.old < 2 ^ 64 }
    ensures head { ReadsHead (S.remaining source.old) (S.remaining source.new) result }
    ensures counted { CountsReadFault (S.failures source.old) (S.failures source.new) result }
    ensures turns { IfOk result (λ _. reads_left.new < reads_left.old) }
    ensures reads { S.reads source.new + reads_left.new ≡ S.reads source.old + reads_left.old }
    ensures turns_over { result ≡ Err InputFault.Turns → reads_left.new ≡ 0 }
{
    let mut size = None;
    loop {
        match read_field(source, reads_left, room)? {
            None => return Ok(Head::Over),
            Some(HeaderField::End) => return Ok(head_with(size)),
            Some(field) => size = size_behind(field, size),
        }
    }
}
