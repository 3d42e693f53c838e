//! Reads frames.
ghost use Rattle.std.specs.Prelude.{◌≡◌, ◌+◌, ◌^◌, ◌≤◌, ◌<◌, IfOk, min};
ghost use Rattle.server_read.specs.Failures.{CountsReadFault};
ghost use Rattle.lsp_frames.specs.Bodies.{ReadsFrame, ReadsSized, frame_with};

use crate::heads::{Head, HeaderRoom, read_head};
use base_files::FileText;
use server_read::{Body, ByteSource, InputFault, read_body, skip};
use std::alloc::Global;

/// How many bytes a body has at most that is kept.
pub(crate) const LARGEST_BODY: usize = 8_388_608;

/// What was read of an input.
#[derive(Drop)]
pub enum Frame {
    /// The input was over before the frame.
    End,
    /// A frame with this body.
    Body(FileText),
    /// A header that gives no length of a body.
    NoLength,
    /// A frame whose body is over the limit. It was dropped.
    TooLarge,
    /// A frame whose body was dropped for want of memory.
    NoRoom,
}

/// The frame with this body, which was to be kept.
fn frame_with(body: Body) -> Frame
    ensures { result ≡ frame_with body }
{
    match body {
        Body::Kept(text) => Frame::Body(text),
        Body::Dropped => Frame::TooLarge,
        Body::NoRoom => Frame::NoRoom,
        Body::Short => Frame::End,
    }
}

/// The size of a body, if it is within the limit.
fn kept_size(size: usize) -> usize
    ensures { result ≡ min size 8388608 }
{
    size.min(LARGEST_BODY)
}

/// Reads a body of a size within the limit, and makes the frame.
fn read_kept<S: ByteSource>(
    alloc: Global,
    source: &mut S,
    reads_left: &mut u64,
    size: usize,
) -> Result<Frame, InputFault>
    requires small { size ≤ 8388608 }
    requires reads { S.reads source.old + reads_left.old < 2 ^ 64 }
    ensures frame { ReadsSized size (S.remaining source.old) (S.remaining source.new) result }
    ensures counted { CountsReadFault (S.failures source.old) (S.failures source.new) result }
    ensures turns { IfOk result (λ _. reads_left.new ≤ reads_left.old) }
    ensures reads { S.reads source.new + reads_left.new ≡ S.reads source.old + reads_left.old }
    ensures turns_over { result ≡ Err InputFault.Turns → reads_left.new ≡ 0 }
{
    let kept = kept_size(size);
    match read_body(alloc, source, reads_left, kept, true) {
        Ok(body) => Ok(frame_with(body)),
        Err(fault) => Err(fault),
    }
}

/// Reads and drops a body of a size over the limit.
fn drop_body<S: ByteSource>(
    source: &mut S,
    reads_left: &mut u64,
    size: usize,
) -> Result<Frame, InputFault>
    requires large { 8388608 < size }
    requires reads { S.reads source.old + reads_left.old < 2 ^ 64 }
    ensures frame { ReadsSized size (S.remaining source.old) (S.remaining source.new) result }
    ensures counted { CountsReadFault (S.failures source.old) (S.failures source.new) result }
    ensures turns { IfOk result (λ _. reads_left.new ≤ reads_left.old) }
    ensures reads { S.reads source.new + reads_left.new ≡ S.reads source.old + reads_left.old }
    ensures turns_over { result ≡ Err InputFault.Turns → reads_left.new ≡ 0 }
{
    match skip(source, reads_left, size) {
        Ok(true) => Ok(Frame::TooLarge),
        Ok(false) => Ok(Frame::End),
        Err(fault) => Err(fault),
    }
}

/// Reads a body of this size, and makes the frame.
fn read_sized<S: ByteSource>(
    alloc: Global,
    source: &mut S,
    reads_left: &mut u64,
    size: usize,
) -> Result<Frame, InputFault>
    requires reads { S.reads source.old + reads_left.old < 2 ^ 64 }
    ensures frame { ReadsSized size (S.remaining source.old) (S.remaining source.new) result }
    ensures counted { CountsReadFault (S.failures source.old) (S.failures source.new) result }
    ensures turns { IfOk result (λ _. reads_left.new ≤ reads_left.old) }
    ensures reads { S.reads source.new + reads_left.new ≡ S.reads source.old + reads_left.old }
    ensures turns_over { result ≡ Err InputFault.Turns → reads_left.new ≡ 0 }
{
    if size <= LARGEST_BODY {
        read_kept(alloc, source, reads_left, size)
    } else {
        drop_body(source, reads_left, size)
    }
}

/// Reads the next frame whole, and nothing beyond it. Each read of the source takes one from `reads_left`.
pub fn read_frame<S: ByteSource>(
    alloc: Global,
    source: &mut S,
    reads_left: &mut u64,
    room: &mut HeaderRoom,
) -> Result<Frame, InputFault>
    requires reads { S.reads source.old + reads_left.old < 2 ^ 64 }
    ensures frame { ReadsFrame (S.remaining source.old) (S.remaining source.new) result }
    ensures counted { CountsReadFault (S.failures source.old) (S.failures source.new) result }
    ensures turns { IfOk result (λ _. reads_left.new < reads_left.old) }
    ensures reads { S.reads source.new + reads_left.new ≡ S.reads source.old + reads_left.old }
    ensures turns_over { result ≡ Err InputFault.Turns → reads_left.new ≡ 0 }
{
    match read_head(source, reads_left, room) {
        Err(fault) => Err(fault),
        Ok(Head::Over) => Ok(Frame::End),
        Ok(Head::NoLength) => Ok(Frame::NoLength),
        Ok(Head::Length(size)) => read_sized(alloc, source, reads_left, size),
    }
}
