//! Plans a rename in a workspace in which packages may have faults.
ghost use Rattle.std.specs.Prelude.{IfOk};
ghost use Rattle.workspace_check.specs.Found.{IsFound, KnowsVerdicts};
ghost use Rattle.workspace_check.specs.KnownFindings.{verdicts_by};
ghost use Rattle.workspace_graph.specs.Borrows.{names};
ghost use Rattle.refs_binding.specs.Uses.{HasFileAt};
ghost use Rattle.refactor_rename.specs.NewName.{IsNewName};
ghost use Rattle.refactor_preserve.specs.Planned.{change_in};
ghost use Rattle.refactor_part.specs.FirstFaults.{RefusesFirstOf};
ghost use Rattle.refactor_part.specs.LeftOut.{IsLeftOut};
ghost use Rattle.refactor_affected.specs.Renames.{IsAskedInSound, IsOwnPath, PlansAffectedRename};
ghost use Rattle.refactor_affected.specs.Steps.{MarkPackages};

use crate::in_part::{AskedRename, RenameInPart, plan_in_part};
use crate::refusals::names_fault;
use base_files::{Path, Refusal};
use build_carry::folder_marks;
use refactor_part::{LeftOut, faultless_part, left_out, refuse_marked};
use refactor_preserve::Planned;
use std::alloc::{AllocError, Global};
use workspace_check::Found;
use workspace_graph::Graph;
use workspace_snapshot::Snapshot;

/// Marks the package in the folder of a file, if there is one.
fn own_mark(alloc: Global, graph: &Graph, file: &Path) -> Result<Vec<bool>, AllocError>
    ensures { IfOk result (λ marks. MarkPackages graph.now (IsOwnPath file.now) marks.items) }
{
    let own = vec![in alloc; file.folder()]?;
    folder_marks(alloc, graph, &own)
}

/// Refuses where the package in the folder of a file has a fault, with its first one.
fn refuse_own(alloc: Global, asked: &AskedRename<'_>) -> Result<(), Refusal>
    requires { IsFound asked.now.snapshot.now.files asked.now.found.now }
    ensures { RefusesFirstOf asked.now.snapshot.now.files (IsOwnPath asked.now.file.now) result }
{
    let graph = &asked.snapshot.files;
    let marks = own_mark(alloc, graph, asked.file)?;
    refuse_marked(graph, &asked.found.findings, &marks)
}

/// Plans the rename in the part, whose left out packages are given.
fn plan_without(
    alloc: Global,
    asked: &AskedRename<'_>,
    left: &LeftOut<'_>,
) -> Result<Planned, Refusal>
    requires found { IsFound asked.now.snapshot.now.files asked.now.found.now }
    requires asked { IsAskedInSound asked.now.snapshot.now.files asked.now.file.now asked.now.name.now }
    requires left { IsLeftOut asked.now.snapshot.now.files (verdicts_by asked.now.found.now.findings.export_table) (names left.now.folders.items) (names left.now.paths.items) }
    ensures planned { PlansAffectedRename asked.now.snapshot.now asked.now.file.now asked.now.offset asked.now.name.now (change_in result) }
    ensures known { IfOk result (λ p. KnowsVerdicts p.change.files p.known) }
{
    let part = faultless_part(alloc, asked.snapshot, asked.found, left)?;
    let renaming = RenameInPart {
        asked,
        part: &part,
        left,
    };
    plan_in_part(alloc, &renaming)
}

/// Plans the rename of an identifier in an existing file. Its own package must have no fault.
fn plan_file(alloc: Global, asked: &AskedRename<'_>) -> Result<Planned, Refusal>
    requires found { IsFound asked.now.snapshot.now.files asked.now.found.now }
    requires file { HasFileAt asked.now.snapshot.now.files asked.now.file.now }
    requires form { IsNewName asked.now.name.now }
    ensures planned { PlansAffectedRename asked.now.snapshot.now asked.now.file.now asked.now.offset asked.now.name.now (change_in result) }
    ensures known { IfOk result (λ p. KnowsVerdicts p.change.files p.known) }
{
    match refuse_own(alloc, asked) {
        Err(refusal) => Err(refusal),
        Ok(()) => {
            let left = left_out(
                alloc,
                &asked.snapshot.files,
                &asked.found.findings.export_table,
            )?;
            plan_without(alloc, asked, &left)
        }
    }
}

/// Plans the rename of an identifier in a file of a workspace with faults.
fn plan_beside(
    alloc: Global,
    snapshot: &Snapshot,
    found: &Found,
    path: &str,
    offset: usize,
    name: &str,
) -> Result<Planned, Refusal>
    requires found { IsFound snapshot.now.files found.now }
    requires file { HasFileAt snapshot.now.files path.now }
    requires form { IsNewName name.now }
    ensures planned { PlansAffectedRename snapshot.now path.now offset name.now (change_in result) }
    ensures known { IfOk result (λ p. KnowsVerdicts p.change.files p.known) }
{
    let file = Path::read(alloc, path, 2)?;
    let asked = AskedRename {
        snapshot,
        found,
        file: &file,
        offset,
        name,
    };
    plan_file(alloc, &asked)
}

/// Plans the rename of the identifier at `path:offset` to `name`. Faults are asked of the identifier's own package, and of those that the
/// rename affects. In a workspace without faults it is planned there.
///
/// The offset is that of any byte of an identifier, or of an import's string literal, which stands for its import declaration. `found` has
/// the findings of the snapshot's packages.
pub fn plan_rename(
    alloc: Global,
    snapshot: &Snapshot,
    found: &Found,
    path: &str,
    offset: usize,
    name: &str,
) -> Result<Planned, Refusal>
    requires { IsFound snapshot.now.files found.now }
    ensures planned { PlansAffectedRename snapshot.now path.now offset name.now (change_in result) }
    ensures known { IfOk result (λ p. KnowsVerdicts p.change.files p.known) }
{
    match refactor_plan::plan_rename(alloc, snapshot, found, path, offset, name) {
        Ok(planned) => Ok(planned),
        Err(refusal) => {
            if names_fault(&refusal) {
                plan_beside(alloc, snapshot, found, path, offset, name)
            } else {
                Err(refusal)
            }
        }
    }
}
