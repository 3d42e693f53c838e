//! What a command over a folder has to print, by what came of it.
ghost use Rattle.std.specs.Prelude.{◌++◌, [], IfOk, false, length, nat_eq, true};
ghost use Rattle.std.specs.Option.{option_copied};
ghost use Rattle.tool_told.specs.Outcomes.{Prints, Shows, cut_off_text, word_text};
ghost use Rattle.tool_told.specs.Telling.{faults_text, new_paths_text, places_text, refusal_text};

use crate::rewriting::{Rewrite, push_new_paths};
use crate::telling::{AskedFor, Naming, push_change, push_faults, push_places, push_refusal};
use base_edits::FileChange;
use base_files::{Files, Place, Refusal};
use std::alloc::{AllocError, Global};
use workspace_check::FileFault;

/// What goes to standard output and to standard error, and whether the command was done.
#[derive(Drop)]
pub struct CommandOutcome {
    pub output: Vec<u8>,
    pub notes: Vec<u8>,
    pub is_done: bool,
}

/// The outcome that prints this and notes this.
fn outcome_of(
    alloc: Global,
    output: Vec<u8>,
    notes: &[u8],
    is_done: bool,
) -> Result<CommandOutcome, AllocError>
    ensures { IfOk result (Prints output.items notes.now is_done) }
{
    let notes = Vec::from_slice(alloc, notes)?;
    Ok(CommandOutcome {
        output,
        notes,
        is_done,
    })
}

/// The outcome of `faults`: it is done only where there is none.
pub fn faults_outcome(
    alloc: Global,
    notes: &[u8],
    naming: Naming<'_>,
    faults: &[FileFault],
) -> Result<CommandOutcome, AllocError>
    ensures { IfOk result (Prints (faults_text naming.entry faults.now) notes.now (nat_eq (length faults.now) 0)) }
{
    let mut output = Vec::new(alloc);
    push_faults(&mut output, naming, faults)?;
    outcome_of(alloc, output, notes, faults.is_empty())
}

/// The outcome of `uses`.
pub fn uses_outcome(
    alloc: Global,
    notes: &[u8],
    naming: Naming<'_>,
    places: &[Place],
) -> Result<CommandOutcome, AllocError>
    ensures { IfOk result (Prints (places_text naming.entry places.now) notes.now true) }
{
    let mut output = Vec::new(alloc);
    push_places(&mut output, naming, places)?;
    outcome_of(alloc, output, notes, true)
}

/// The outcome of a command that is refused.
pub fn refusal_outcome(
    alloc: Global,
    notes: &[u8],
    naming: Naming<'_>,
    asked: AskedFor<'_>,
    refusal: &Refusal,
) -> Result<CommandOutcome, AllocError>
    ensures { IfOk result (Prints [] (notes.now ++ refusal_text naming.entry asked.entry.word.now (option_copied asked.entry.place) refusal.now) false) }
{
    let mut text = Vec::from_slice(alloc, notes)?;
    push_refusal(alloc, &mut text, naming, asked, refusal)?;
    outcome_of(alloc, Vec::new(alloc), text.as_slice(), false)
}

/// The outcome of a command whose word names no place.
pub fn word_outcome(
    alloc: Global,
    notes: &[u8],
    word: &str,
    why: &str,
) -> Result<CommandOutcome, AllocError>
    ensures { IfOk result (Prints [] (notes.now ++ word_text word.now why.now) false) }
{
    let mut text = Vec::from_slice(alloc, notes)?;
    text.extend_from_slice(word.as_bytes())?;
    text.extend_from_slice(b": ")?;
    text.extend_from_slice(why.as_bytes())?;
    text.extend_from_slice(b"\n")?;
    outcome_of(alloc, Vec::new(alloc), text.as_slice(), false)
}

/// The outcome of a change that is shown, and not made.
pub fn shown_outcome(
    alloc: Global,
    notes: &[u8],
    naming: Naming<'_>,
    after: &Files,
    changes: &[FileChange],
) -> Result<CommandOutcome, AllocError>
    ensures { IfOk result (Shows naming.entry after.now changes.now notes.now) }
{
    let mut output = Vec::new(alloc);
    push_change(alloc, &mut output, naming, after, changes)?;
    outcome_of(alloc, output, notes, true)
}

/// The outcome of a change whose files are written.
pub fn written_outcome(
    alloc: Global,
    notes: &[u8],
    rewrites: &[Rewrite<'_>],
) -> Result<CommandOutcome, AllocError>
    ensures { IfOk result (Prints (new_paths_text rewrites.now) notes.now true) }
{
    let mut output = Vec::new(alloc);
    push_new_paths(&mut output, rewrites)?;
    outcome_of(alloc, output, notes, true)
}

/// The outcome of a change that failed while its files were written: the paths of those that are new, and why it failed.
pub fn cut_off_outcome(
    alloc: Global,
    notes: &[u8],
    done: Vec<u8>,
    why: &str,
) -> Result<CommandOutcome, AllocError>
    ensures { IfOk result (Prints done.items (notes.now ++ cut_off_text why.now) false) }
{
    let mut text = Vec::from_slice(alloc, notes)?;
    text.extend_from_slice(b"gorefd: ")?;
    text.extend_from_slice(why.as_bytes())?;
    text.extend_from_slice(b"\n")?;
    outcome_of(alloc, done, text.as_slice(), false)
}
