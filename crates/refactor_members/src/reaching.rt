//! The packages in which the rename can lose or capture a use of a member: those of the renamed members, and those that build on them. Where
//! neither their name nor the new one is exported, it is those alone.
ghost use Rattle.std.specs.Prelude.{ℕ, ◌≡◌, ◌<◌, false, length, IfOk, IsTrue};
ghost use Rattle.base_files.specs.Packages.{package_paths};
ghost use Rattle.go_scope.specs.Named.{name_value};
ghost use Rattle.workspace_graph.specs.Search.{IsMarked};
ghost use Rattle.types_declared.specs.Laid.{is_exported};
ghost use Rattle.types_declared.specs.Package.{Package as Checked};
ghost use Rattle.refs_binding.specs.Workspaces.{known_in, IsPackageAt};
ghost use Rattle.refactor_members.specs.Reaching.{AreUnexportedNames, IsOutOfReach, LeavesOutOfReach};

use refs_binding::{Declaration, FaultlessWorkspace};
use refs_places::home_marks;
use std::alloc::{AllocError, Global};
use types_declared::is_exported;

/// The present name of the renamed members, if it was found, and the new name.
#[derive(Clone, Copy)]
pub(crate) struct NamesOfRename<'a> {
    pub(crate) called: Option<&'a [u8]>,
    pub(crate) name: &'a [u8],
}

/// Whether neither of two names is exported.
fn is_neither_exported(old: &[u8], new: &[u8]) -> bool
    ensures { IsTrue result → (is_exported old.now ≡ false) × (is_exported new.now ≡ false) }
{
    !is_exported(old) && !is_exported(new)
}

/// Whether the present name was found, and neither of the names is exported.
fn are_unexported(names: NamesOfRename<'_>) -> bool
    ensures { IsTrue result → AreUnexportedNames (name_value names.entry.called) names.entry.name.now }
{
    match names.called {
        None => false,
        Some(called) => is_neither_exported(called, names.name),
    }
}

/// The marked packages alone where no name is exported, else with those that build on them.
fn marked_by_names(
    alloc: Global,
    workspace: &FaultlessWorkspace<'_>,
    names: NamesOfRename<'_>,
    marks: Vec<bool>,
) -> Result<Vec<bool>, AllocError>
    requires { length marks.items ≡ length (package_paths workspace.now.graph) }
    ensures { IfOk result (λ left. LeavesOutOfReach workspace.now.graph (name_value names.entry.called) names.entry.name.now marks.items left.items) }
{
    if are_unexported(names) {
        Ok(marks)
    } else {
        workspace.graph.reaching(alloc, &marks)
    }
}

/// Marks the packages in which the rename of members can lose or capture a use of a member.
pub(crate) fn reaching(
    alloc: Global,
    workspace: &FaultlessWorkspace<'_>,
    set: &[Declaration],
    names: NamesOfRename<'_>,
) -> Result<Vec<bool>, AllocError>
    ensures { IfOk result (λ marks. (number : ℕ) → (p : Checked) → IsPackageAt workspace.now.graph (known_in workspace.now.findings) number p →
        (IsMarked marks.items number → ⊥) → IsOutOfReach workspace.now.graph (name_value names.entry.called) names.entry.name.now set.now p.path) }
{
    let marks = home_marks(alloc, workspace.graph, set)?;
    marked_by_names(alloc, workspace, names, marks)
}
