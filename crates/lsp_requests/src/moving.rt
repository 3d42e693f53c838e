//! Renames of files and folders, which the client makes.
ghost use Rattle.std.specs.Prelude.{◌≡◌};
ghost use Rattle.std.specs.Option.{option_copied};
ghost use Rattle.refactor_preserve.specs.Planned.{change_in};
ghost use Rattle.lsp_told.specs.Asking.{TellsNothing};
ghost use Rattle.serde_json.specs.View.{items_view, view};
ghost use Rattle.lsp_requests.specs.FolderMoves.{MovesBetween, MovesFirst, MovesFrom, MovesNamed, MovesOne, TellsMoveEdits, refused_move};

use crate::renaming::edits_told;
use crate::sight::Sight;
use base_files::Refusal;
use lsp_told::{AskFault, folder_named};
use refactor_preserve::Planned;
use serde_json::Value;
use server_commands::{Desk, move_plan};
use std::alloc::Global;

/// Why there are no edits of a move: a folder without a package is no matter of this server.
fn refused_move(refusal: Refusal) -> Result<Option<Value>, AskFault>
    ensures { result ≡ refused_move refusal }
{
    match refusal {
        Refusal::NoPackage => Ok(None),
        refusal => Err(AskFault::from(refusal)),
    }
}

/// The edits of a planned move, or `None` where there is no package.
fn move_told(
    alloc: Global,
    sight: Sight<'_>,
    planned: Result<Planned, Refusal>,
) -> Result<Option<Value>, AskFault>
    ensures { TellsMoveEdits sight.entry.telling sight.entry.view.now.snapshot.files (change_in planned) result }
{
    match planned {
        Ok(planned) => Ok(Some(edits_told(alloc, sight, &planned)?)),
        Err(refusal) => refused_move(refusal),
    }
}

/// The edits of the move of a folder, or `None` where it has no package.
fn move_between<D: Desk>(
    alloc: Global,
    desk: &mut D,
    sight: Sight<'_>,
    from: &str,
    to: &str,
) -> Result<Option<Value>, AskFault>
    requires { D.sees desk.old sight.view.now.snapshot.files }
    ensures told { MovesBetween sight.entry.telling sight.entry.view.now.snapshot from.now to.now result }
    ensures same { desk.new ≡ desk.old }
{
    let planned = move_plan(alloc, desk, sight.view, from, to);
    move_told(alloc, sight, planned)
}

/// The edits of the move between two folders, or `None` where one lies outside the folder of the session.
fn move_named<D: Desk>(
    alloc: Global,
    desk: &mut D,
    sight: Sight<'_>,
    from: Option<&String>,
    to: Option<&String>,
) -> Result<Option<Value>, AskFault>
    requires { D.sees desk.old sight.view.now.snapshot.files }
    ensures told { MovesNamed sight.entry.telling sight.entry.view.now.snapshot (option_copied from.entry) (option_copied to.entry) result }
    ensures same { desk.new ≡ desk.old }
{
    match from {
        Some(from) => match to {
            Some(to) => move_between(alloc, desk, sight, from.as_str(), to.as_str()),
            None => Ok(None),
        },
        None => Ok(None),
    }
}

/// The edits of the rename of a file or a folder from this one, or `None` where it is no folder with a package.
fn move_from<D: Desk>(
    alloc: Global,
    desk: &mut D,
    sight: Sight<'_>,
    file: &Value,
    from: Option<&String>,
) -> Result<Option<Value>, AskFault>
    requires { D.sees desk.old sight.view.now.snapshot.files }
    ensures told { MovesFrom sight.entry.telling sight.entry.view.now.snapshot (view file.now) (option_copied from.entry) result }
    ensures same { desk.new ≡ desk.old }
{
    match folder_named(alloc, sight.telling, file, "newUri") {
        Ok(to) => move_named(alloc, desk, sight, from, to.as_ref()),
        Err(fault) => Err(fault),
    }
}

/// The edits of the rename of a file or a folder, or `None` where it is no folder with a package.
fn move_one<D: Desk>(
    alloc: Global,
    desk: &mut D,
    sight: Sight<'_>,
    file: &Value,
) -> Result<Option<Value>, AskFault>
    requires { D.sees desk.old sight.view.now.snapshot.files }
    ensures told { MovesOne sight.entry.telling sight.entry.view.now.snapshot (view file.now) result }
    ensures same { desk.new ≡ desk.old }
{
    match folder_named(alloc, sight.telling, file, "oldUri") {
        Ok(from) => move_from(alloc, desk, sight, file, from.as_ref()),
        Err(fault) => Err(fault),
    }
}

/// `null`.
fn nothing_told() -> Result<Value, AskFault>
    ensures { TellsNothing result }
{
    Ok(Value::Null)
}

/// The edits of the first of some renames that moves a package. The client moves its files itself.
pub(crate) fn move_first<D: Desk>(
    alloc: Global,
    desk: &mut D,
    sight: Sight<'_>,
    files: &[Value],
) -> Result<Value, AskFault>
    requires { D.sees desk.old sight.view.now.snapshot.files }
    ensures told { MovesFirst sight.entry.telling sight.entry.view.now.snapshot (items_view files.now) result }
    ensures same { desk.new ≡ desk.old }
{
    for file in files {
        let edits = move_one(alloc, desk, sight, file)?;
        match edits {
            Some(edits) => return Ok(edits),
            None => {}
        }
    }
    nothing_told()
}
