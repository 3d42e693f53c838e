//! The loop: reads frames, and does what they ask.
ghost use Rattle.std.specs.Prelude.{◌≡◌, ◌+◌, ◌<◌, ◌^◌, IfOk};
ghost use Rattle.lsp_frames.specs.declared.frames.Frame.{Frame as FrameRead};
ghost use Rattle.lsp_session.specs.Turns.{ConversesByFrames, TakesNextFrame, first_progress};

use crate::fault::LspFault;
use crate::frames::take_frame;
use crate::service::EditorService;
use crate::turns::{EditorTurn, SessionProgress};
use base_files::Limits;
use lsp_frames::{HeaderRoom, read_frame};
use lsp_message::SessionStage;
use server_read::ByteSource;
use std::alloc::{AllocError, Global};
use std::io::Write;

/// What reading frames uses: the room for header lines, and the reads that are left.
#[derive(Drop)]
struct FrameReading {
    room: HeaderRoom,
    reads_left: u64,
}

impl FrameReading {
    /// All reads of a session are left.
    fn new(alloc: Global) -> Result<FrameReading, AllocError>
        ensures { IfOk result (λ reading. reading.reads_left ≡ 1000000000) }
    {
        Ok(FrameReading {
            room: HeaderRoom::new(alloc)?,
            reads_left: Limits::default().reads,
        })
    }
}

/// How far a session is at first.
fn first_progress() -> SessionProgress
    ensures { result ≡ first_progress }
{
    SessionProgress {
        stage: SessionStage::New,
        next_id: 1,
    }
}

/// Reads a frame, and does what it asks.
fn take_next<S: ByteSource, W: Write, E: EditorService>(
    alloc: Global,
    source: &mut S,
    out: &mut W,
    progress: &mut SessionProgress,
    service: &mut E,
    reading: &mut FrameReading,
) -> Result<EditorTurn, LspFault>
    requires reads { S.reads source.old + reading.old.reads_left < 2 ^ 64 }
    ensures next { IfOk result (λ turn. (frame : FrameRead) × TakesNextFrame E.starts E.answers E.heeds ((S.remaining source.old, W.contents out.old), (progress.old, service.old)) frame turn ((S.remaining source.new, W.contents out.new), (progress.new, service.new))) }
    ensures turns { IfOk result (λ _. reading.new.reads_left < reading.old.reads_left) }
    ensures reads { IfOk result (λ _. S.reads source.new + reading.new.reads_left ≡ S.reads source.old + reading.old.reads_left) }
{
    let frame = read_frame(alloc, source, &mut reading.reads_left, &mut reading.room)?;
    take_frame(alloc, out, progress, service, &frame)
}

/// Reads frames and does what they ask, until the session ends. Returns whether it ended orderly: by exit after shutdown.
pub fn converse<S: ByteSource, W: Write, E: EditorService>(
    alloc: Global,
    source: &mut S,
    out: &mut W,
    service: &mut E,
) -> Result<bool, LspFault>
    requires { S.reads source.old ≡ 0 }
    ensures { IfOk result (λ is_orderly. ConversesByFrames E.starts E.answers E.heeds (S.remaining source.old) (W.contents out.old) service.old is_orderly (S.remaining source.new) (W.contents out.new) service.new) }
{
    let mut reading = FrameReading::new(alloc)?;
    let mut progress = first_progress();
    'frames: loop {
        match take_next(alloc, source, out, &mut progress, service, &mut reading)? {
            EditorTurn::GoesOn => {}
            EditorTurn::Ended(is_orderly) => return Ok(is_orderly),
        }
    }
}
