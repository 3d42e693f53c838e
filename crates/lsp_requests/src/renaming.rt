//! Renames.
ghost use Rattle.std.specs.Prelude.{IfOk, Ok};
ghost use Rattle.workspace_check.specs.Found.{KnowsVerdicts};
ghost use Rattle.serde_json.specs.View.{view};
ghost use Rattle.lsp_params.specs.Asked.{named_view};
ghost use Rattle.lsp_edits.specs.Edits.{TellsEdit};
ghost use Rattle.lsp_requests.specs.Committing.{CommitsTold, IsDoneWith, RenamesByte, RenamesSeen};

use crate::sight::Sight;
use lsp_edits::workspace_edit;
use lsp_params::AskedName;
use lsp_told::{AskFault, AskedByte, byte_asked};
use refactor_preserve::Planned;
use serde_json::Value;
use server_commands::{Desk, Response, commit_planned, rename_plan};
use std::alloc::{AllocError, Global};

/// The edits of a planned change of the files that a look shows.
pub(crate) fn edits_told(
    alloc: Global,
    sight: Sight<'_>,
    planned: &Planned,
) -> Result<Value, AllocError>
    ensures { IfOk result (λ value. TellsEdit sight.entry.telling sight.entry.view.now.snapshot.files planned.now.change.edits.changed (view value)) }
{
    let changes = planned.change.get().edits.changed();
    workspace_edit(alloc, sight.telling, sight.files(), changes)
}

/// The edits of a change, where it was committed.
fn told_if_done(response: Response, edits: Value) -> Result<Value, AskFault>
    ensures { IsDoneWith response edits result }
{
    match response {
        Response::Refused { refusal } => Err(AskFault::from(refusal)),
        _ => Ok(edits),
    }
}

/// Commits a planned rename, and tells its edits.
fn commit_told<D: Desk>(
    alloc: Global,
    desk: &mut D,
    sight: Sight<'_>,
    planned: Planned,
) -> Result<Value, AskFault>
    requires seen { D.sees desk.old planned.change.base }
    requires known { KnowsVerdicts planned.change.files planned.known }
    ensures { CommitsTold D.steps desk.old sight.entry.telling sight.entry.view.now (Ok planned.change) result desk.new }
{
    let edits = edits_told(alloc, sight, &planned)?;
    let response = commit_planned(desk, sight.view.snapshot.number(), planned);
    told_if_done(response, edits)
}

/// Renames the identifier at a byte.
fn rename_byte<D: Desk>(
    alloc: Global,
    desk: &mut D,
    sight: Sight<'_>,
    at: &AskedByte,
    name: &str,
) -> Result<Value, AskFault>
    requires { D.sees desk.old sight.view.now.snapshot.files }
    ensures { RenamesByte D.steps desk.old sight.entry.telling sight.entry.view.now at.now name.now result desk.new }
{
    match rename_plan(alloc, desk, sight.view, at.path.as_str(), at.offset, name) {
        Ok(planned) => commit_told(alloc, desk, sight, planned),
        Err(refusal) => Err(AskFault::from(refusal)),
    }
}

/// Renames the identifier at a place: the rename is committed, and its edits are told.
pub(crate) fn rename<D: Desk>(
    alloc: Global,
    desk: &mut D,
    sight: Sight<'_>,
    asked: AskedName<'_>,
) -> Result<Value, AskFault>
    requires { D.sees desk.old sight.view.now.snapshot.files }
    ensures { RenamesSeen D.steps desk.old sight.entry.telling sight.entry.view.now (named_view asked.entry) result desk.new }
{
    match byte_asked(alloc, sight.telling, sight.files(), asked.at) {
        Ok(at) => rename_byte(alloc, desk, sight, &at, asked.name),
        Err(fault) => Err(fault),
    }
}
