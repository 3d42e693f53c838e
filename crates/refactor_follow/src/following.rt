//! What a move needs of the workspace before it.
ghost use Rattle.std.specs.Prelude.{◌≡◌, ◌<◌, [], None, length, IfOk};
ghost use Rattle.base_files.specs.Packages.{package_paths};
ghost use Rattle.workspace_graph.specs.Graphs.{ListsPackages, OfPackage};
ghost use Rattle.workspace_graph.specs.Packages.{PackageImports};
ghost use Rattle.refs_binding.specs.Workspaces.{known_in};
ghost use Rattle.refactor_follow.specs.MoveConflicts.{IsFirstOfName, TellsMoveConflict};
ghost use Rattle.refactor_follow.specs.MoveReadings.{KnowsMoveUses, MarksEverywhere};

use crate::imports::FollowedName;
use crate::packages::{MoveReading, read_among};
use base_files::Path;
use refactor_move::name_after;
use refs_binding::FaultlessWorkspace;
use std::alloc::{AllocError, Global};

/// The packages that import the package of a number.
fn importers<'a>(workspace: &'a FaultlessWorkspace<'_>, number: usize) -> &'a [usize]
    requires { number < length (package_paths workspace.now.graph) }
    ensures { OfPackage workspace.now.graph number (λ p. ListsPackages workspace.now.graph (λ q. PackageImports workspace.now.graph q p) result.now) }
{
    workspace.graph.importers(number)
}

/// A reading without conflicts and marks.
fn nothing_read(alloc: Global) -> MoveReading
    ensures conflict { result.conflict ≡ None }
    ensures uses { result.uses.items ≡ [] }
{
    MoveReading {
        conflict: None,
        uses: Vec::new(alloc),
    }
}

/// Reads the packages that import the one whose name changes.
fn read_name(
    alloc: Global,
    workspace: &FaultlessWorkspace<'_>,
    new: FollowedName<'_>,
) -> Result<MoveReading, AllocError>
    ensures conflict { IfOk result (λ r. IsFirstOfName workspace.now.graph (known_in workspace.now.findings) new.entry.path.now new.entry.name.now r.conflict) }
    ensures uses { IfOk result (λ r. MarksEverywhere workspace.now.graph (known_in workspace.now.findings) new.entry.path.now r.uses.items) }
{
    workspace.has_no_faults();
    match workspace.number_of(new.path) {
        None => Ok(nothing_read(alloc)),
        Some(number) => read_among(alloc, workspace, importers(workspace, number), new),
    }
}

/// Reads what the move of the package `from` needs of the packages that import it: its first conflict, or none, and the names that get the
/// new name of the package. This is the one that it has at the path `called`, if its name follows its path. To which path it moves does not
/// matter.
pub fn read_move(
    alloc: Global,
    workspace: &FaultlessWorkspace<'_>,
    from: &Path,
    called: &Path,
) -> Result<MoveReading, AllocError>
    ensures conflict { IfOk result (λ r. TellsMoveConflict workspace.now.graph (known_in workspace.now.findings) from.now called.now r.conflict) }
    ensures uses { IfOk result (λ r. KnowsMoveUses workspace.now.graph (known_in workspace.now.findings) from.now called.now r.uses.items) }
{
    let named = name_after(alloc, workspace, from, called)?;
    match named {
        None => Ok(nothing_read(alloc)),
        Some(name) => {
            let new = FollowedName {
                path: from.as_str().as_bytes(),
                name: name.bytes(),
            };
            read_name(alloc, workspace, new)
        }
    }
}
