//! Undo and redo.
ghost use Rattle.std.specs.Prelude.{◌≡◌};
ghost use Rattle.history_book.specs.Questions.{changing_event};
ghost use Rattle.lsp_requests.specs.Committing.{SeesAfter, TakesBackSeen, TellsBetween, way_event};

use crate::sight::{Sight, files_of};
use base_files::Files;
use history_book::Changing;
use lsp_edits::{replacements, workspace_edit};
use lsp_told::{AskFault, Way};
use serde_json::Value;
use server_commands::Desk;
use std::alloc::Global;

/// The event that goes this way from a state.
fn event_of(way: Way, number: u64) -> Changing
    ensures { changing_event result ≡ way_event way number }
{
    match way {
        Way::Undo => Changing::Undo(number),
        Way::Redo => Changing::Redo(number),
    }
}

/// The edits that lead from the files that a look shows to others.
fn edits_to(alloc: Global, sight: Sight<'_>, after: &Files) -> Result<Value, AskFault>
    ensures { TellsBetween sight.entry.telling sight.entry.view.now.snapshot.files after.now result }
{
    let files = sight.files();
    let changes = replacements(alloc, files, after)?;
    let edits = workspace_edit(alloc, sight.telling, files, changes.as_slice())?;
    Ok(edits)
}

/// Looks again after a step, and tells the edits that lead there.
fn told_after<D: Desk>(alloc: Global, desk: &mut D, sight: Sight<'_>) -> Result<Value, AskFault>
    ensures { SeesAfter D.steps desk.old sight.entry.telling sight.entry.view.now.snapshot.files result desk.new }
{
    match desk.look() {
        Ok(after) => edits_to(alloc, sight, files_of(&after)),
        Err(refusal) => Err(AskFault::from(refusal)),
    }
}

/// Undoes the last change, or does it again. Returns the edits that this makes of the files.
pub(crate) fn take_back<D: Desk>(
    alloc: Global,
    desk: &mut D,
    sight: Sight<'_>,
    way: Way,
) -> Result<Value, AskFault>
    ensures { TakesBackSeen D.steps desk.old sight.entry.telling sight.entry.view.now way result desk.new }
{
    match desk.step(event_of(way, sight.view.snapshot.number())) {
        Ok(_) => told_after(alloc, desk, sight),
        Err(refusal) => Err(AskFault::from(refusal)),
    }
}
