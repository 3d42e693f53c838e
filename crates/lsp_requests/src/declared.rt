//! Where the declaration of an identifier stands.
ghost use Rattle.std.specs.Prelude.{◌≡◌};
ghost use Rattle.workspace_check.specs.Found.{AreFindings};
ghost use Rattle.lsp_requests.specs.Uses.{AnswersDeclaration};

use base_files::{Place, Refusal};
use history_machine::View;
use lsp_told::AskedByte;
use refactor_members::declared_place::declared_place;
use refs_binding::{FaultlessWorkspace, refuse_faults};
use refs_lookup::declaration_at;
use server_commands::{Desk, find};
use std::alloc::Global;
use workspace_check::Findings;
use workspace_graph::Graph;

/// The place of the declaration of the identifier at a byte of a workspace without faults.
fn place_in(
    alloc: Global,
    workspace: &FaultlessWorkspace<'_>,
    at: &AskedByte,
) -> Result<Option<Place>, Refusal>
    ensures { AnswersDeclaration workspace.now.graph at.now.path at.now.offset result }
{
    workspace.has_no_faults();
    match declaration_at(alloc, workspace, &at.path, at.offset) {
        Ok(declaration) => Ok(declared_place(alloc, workspace, &declaration)?),
        Err(refusal) => Err(refusal),
    }
}

/// The place of the declaration of the identifier at a byte, by the findings of a workspace.
fn place_found(
    alloc: Global,
    graph: &Graph,
    found: &Findings,
    at: &AskedByte,
) -> Result<Option<Place>, Refusal>
    requires { AreFindings graph.now found.now }
    ensures { AnswersDeclaration graph.now at.now.path at.now.offset result }
{
    match refuse_faults(alloc, graph, found) {
        Ok(workspace) => place_in(alloc, &workspace, at),
        Err(refusal) => Err(refusal),
    }
}

/// The place of the declaration of the identifier at a byte, or `None` where it is predeclared.
pub(crate) fn declaration_place<D: Desk>(
    alloc: Global,
    desk: &mut D,
    view: &View,
    at: &AskedByte,
) -> Result<Option<Place>, Refusal>
    requires { D.sees desk.old view.now.snapshot.files }
    ensures place { AnswersDeclaration view.now.snapshot.files at.now.path at.now.offset result }
    ensures same { desk.new ≡ desk.old }
{
    let found = find(alloc, desk, view)?;
    place_found(alloc, view.snapshot.files(), &found, at)
}
