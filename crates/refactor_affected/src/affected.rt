//! Marks the packages that a rename affects.
ghost use Rattle.std.specs.Prelude.{◌≡◌, Some, slice_get, IfOk};
ghost use Rattle.base_files.specs.Packages.{package_paths};
ghost use Rattle.base_files.specs.Path.{folder};
ghost use Rattle.refs_binding.specs.Uses.{IsCheckedPackage};
ghost use Rattle.refs_binding.specs.Workspaces.{known_in};
ghost use Rattle.refactor_plan.specs.Bindings.{IsReadFor};
ghost use Rattle.refactor_affected.specs.Steps.{MarksAboveSet, MarksOfHomes, MarksRenamed};

use base_files::Refusal;
use refactor_coupled::renamed_with;
use refactor_plan::{PackageBindings, Proposal};
use refs_binding::{Declaration, FaultlessWorkspace};
use refs_lookup::declaration_in_package;
use refs_places::declared_places::package_path;
use refs_places::home_marks;
use std::alloc::{AllocError, Global};
use workspace_graph::Graph;

/// Marks the packages in whose closures a package is that declares what is renamed with a declaration.
fn marks_above(
    alloc: Global,
    graph: &Graph,
    workspace: &FaultlessWorkspace<'_>,
    declaration: &Declaration,
) -> Result<Vec<bool>, AllocError>
    ensures { IfOk result (λ marks. MarksAboveSet graph.now (IsCheckedPackage workspace.now.graph (known_in workspace.now.findings)) declaration.now marks.items) }
{
    workspace.has_no_faults();
    let set = renamed_with(alloc, workspace, declaration)?;
    let listed = set.as_slice();
    let homes = home_marks(alloc, graph, listed)?;
    let starts = homes.as_slice();
    graph.reaching(alloc, starts)
}

/// Marks the packages that the rename of a declaration affects. A predeclared one can't be renamed.
fn marks_of_homes(
    alloc: Global,
    graph: &Graph,
    workspace: &FaultlessWorkspace<'_>,
    declaration: &Declaration,
) -> Result<Vec<bool>, Refusal>
    ensures { MarksOfHomes graph.now (IsCheckedPackage workspace.now.graph (known_in workspace.now.findings)) declaration.now result }
{
    match package_path(declaration) {
        None => Err(Refusal::NotRenamable),
        Some(_) => Ok(marks_above(alloc, graph, workspace, declaration)?),
    }
}

/// Marks the packages that the rename of the identifier at the byte of a proposal affects. The identifier is sought in its package in the
/// part, which was read.
pub(crate) fn affected_packages(
    alloc: Global,
    graph: &Graph,
    proposal: &Proposal<'_>,
    read: &PackageBindings<'_>,
) -> Result<Vec<bool>, Refusal>
    requires read { IsReadFor proposal.now read.now }
    requires folder { slice_get (package_paths read.now.at.workspace.now.graph) read.now.at.number ≡ Some (folder proposal.now.path.now) }
    ensures { MarksRenamed graph.now proposal.now.workspace.now.graph proposal.now.path.now proposal.now.offset result }
{
    proposal.workspace.has_no_faults();
    match declaration_in_package(
        alloc,
        proposal.workspace,
        &read.of,
        proposal.path,
        proposal.offset,
    ) {
        Err(refusal) => Err(refusal),
        Ok(declaration) => marks_of_homes(alloc, graph, proposal.workspace, &declaration),
    }
}
