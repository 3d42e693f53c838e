//! The edit set that moves a package.
ghost use Rattle.std.specs.Prelude.{◌≡◌, [], IfOk};
ghost use Rattle.base_edits.specs.Fits.{IsEditSet};
ghost use Rattle.refs_binding.specs.Workspaces.{known_in};
ghost use Rattle.refactor_move.specs.MoveEdits.{IsMoveOf, HasOnlyMoved, PlansMoveEdits};
ghost use Rattle.refactor_move.specs.Uses.{KnowsUses};
ghost use Rattle.refactor_move.specs.declared.moved.Moved.{Moved as MovedView};

use crate::changes::changes;
use crate::following::name_after;
use crate::moved::Moved;
use crate::package_edits::{MarkedMove, all_edits};
use base_edits::{EditSet, FileChange};
use base_files::{Path, Refusal};
use refs_binding::FaultlessWorkspace;
use std::alloc::{AllocError, Global};

/// The move of a package. Its new name is the one that it has at the path `called`, if its name follows its path.
fn move_of(
    alloc: Global,
    workspace: &FaultlessWorkspace<'_>,
    from: &Path,
    to: &Path,
    called: &Path,
) -> Result<Moved, AllocError>
    ensures { IfOk result (IsMoveOf workspace.now.graph (known_in workspace.now.findings) from.now to.now called.now) }
{
    let name = name_after(alloc, workspace, from, called)?;
    Ok(Moved {
        from: from.clone()?,
        to: to.clone()?,
        name,
    })
}

/// An edit set that adds no file.
fn set_of(alloc: Global, changed: Vec<FileChange>) -> EditSet
    requires { IsEditSet (record { changed = changed.items; added = [] }) }
    ensures { result ≡ record { changed = changed.items; added = [] } }
{
    EditSet::new(changed, Vec::new(alloc))
}

/// The edit set that moves a package, with all files in its folder, to a folder in which no other file lies. The package gets the name that
/// it has at the path `called`, if its name follows its path. Refused as `TooLarge` where a file would get too long a path.
///
/// `uses` marks the names that refer to the package by its imports without a name: by the number of the package, the rank of the file in it,
/// and the token.
pub fn move_edits(
    alloc: Global,
    workspace: &FaultlessWorkspace<'_>,
    from: &Path,
    to: &Path,
    called: &Path,
    uses: &[Vec<Vec<bool>>],
) -> Result<EditSet, Refusal>
    requires only_moved { HasOnlyMoved workspace.now.graph from.now to.now }
    requires uses { (m : MovedView) → IsMoveOf workspace.now.graph (known_in workspace.now.findings) from.now to.now called.now m →
        KnowsUses workspace.now.graph (known_in workspace.now.findings) m uses.now }
    ensures { PlansMoveEdits workspace.now.graph (known_in workspace.now.findings) from.now to.now called.now result }
{
    let moved = move_of(alloc, workspace, from, to, called)?;
    let of = MarkedMove {
        moved: &moved,
        uses,
    };
    let edits = all_edits(alloc, workspace, &of)?;
    match changes(alloc, workspace.graph.files(), &edits, &moved) {
        Err(refusal) => Err(refusal),
        Ok(changed) => Ok(set_of(alloc, changed)),
    }
}
