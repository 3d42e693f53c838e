//! A session whose input and output are in memory.
ghost use Rattle.std.specs.Prelude.{MatchResult};
ghost use Rattle.history_machine.specs.Step.{Step};
ghost use Rattle.server_commands.specs.Wait.{SoloWaits};
ghost use Rattle.server_session.specs.Transcript.{IsTranscript, EndsEarly};

use crate::conversing::converse;
use crate::exchange::SessionFault;
use base_files::Limits;
use server_commands::Solo;
use std::alloc::Global;

/// The text that a session over a book of its own writes for an input. It fails for want of memory, or where the session's reads are used
/// up. The messages that were read before a fault are answered.
pub fn transcript(
    alloc: Global,
    input: &[u8],
    solo: &mut Solo,
    limits: Limits,
) -> Result<Vec<u8>, SessionFault>
    ensures { MatchResult result (λ text. IsTranscript Step SoloWaits limits input.now solo.old solo.new text.items)
        (λ fault. EndsEarly Step SoloWaits limits input.now solo.old solo.new fault) }
{
    let (ended, text) = converse(alloc, input, Vec::new(alloc), solo, limits);
    match ended {
        Ok(()) => Ok(text),
        Err(fault) => Err(fault),
    }
}
