//! The first conflict of a rename of fields or methods, by the old workspace and the new name alone.
ghost use Rattle.std.specs.Prelude.{IfOk};
ghost use Rattle.base_edits.specs.EditSet.{FileChanges};
ghost use Rattle.base_edits.specs.RevisionsOfEdits.{revision_of};
ghost use Rattle.refs_binding.specs.Uses.{IsCheckedPackage};
ghost use Rattle.refs_binding.specs.Workspaces.{known_in};
ghost use Rattle.refactor_conflict.specs.Conflicts.{IsFirstConflict};
ghost use Rattle.law_renamed_workspaces.specs.MemberRenames.{IsMemberRename};
ghost use Rattle.refactor_members.specs.Renames.{AreMembersOf};

use crate::definition::{definition_of, owners_of_homes};
use crate::first::first_turned;
use crate::member_rename::{MemberRename, RenamedMember};
use crate::reaching::{NamesOfRename, reaching};
use refactor_conflict::Conflict;
use refactor_rename::Renaming;
use refs_binding::{Declaration, FaultlessWorkspace};
use refs_uses::name_of_all;
use std::alloc::{AllocError, Global};

/// The members of a list, each with its type definition.
fn members_of<'a>(
    alloc: Global,
    workspace: &FaultlessWorkspace<'_>,
    set: &'a [Declaration],
) -> Result<Vec<RenamedMember<'a>>, AllocError>
    ensures { IfOk result (λ members. AreMembersOf (IsCheckedPackage workspace.now.graph (known_in workspace.now.findings)) set.now members.items) }
{
    let owners = owners_of_homes(alloc, workspace, set)?;
    let mut members = Vec::with_capacity(alloc, set.len())?;
    for declaration in set {
        let definition = definition_of(workspace, &owners, declaration);
        members.push(RenamedMember {
            declaration,
            definition,
        })?;
    }
    Ok(members)
}

/// The first identifier that a plain rename of fields or methods loses or captures, or `None` where it loses and captures none.
///
/// The answer is right for all edits of the rename. None are made, and no scopes are laid: the old definitions, the uses of members and the
/// two names decide. Where the present name is found, only files are looked at that have it or the new name; where neither is exported, only
/// files of the packages of the members.
pub fn member_conflict(
    alloc: Global,
    workspace: &FaultlessWorkspace<'_>,
    renaming: &Renaming<'_>,
) -> Result<Option<Conflict>, AllocError>
    ensures { let w = workspace.now.graph in
        let known = known_in workspace.now.findings in
        IfOk result (λ told. (s : FileChanges) → IsMemberRename w known renaming.now.declaration.now renaming.now.set.now renaming.now.name.now s → IsFirstConflict w known (revision_of w s) told) }
{
    workspace.has_no_faults();
    law_renamed_workspaces::kept_members::members_are_called();
    law_renamed_workspaces::member_renames::member_renames_keep_scopes();
    law_renamed_workspaces::member_renames::first_member_conflict();
    law_renamed_workspaces::member_renames::other_packages_keep_members();
    law_renamed_workspaces::member_renames::unexported_names_stay_at_home();
    let members = members_of(alloc, workspace, renaming.set)?;
    let called = name_of_all(workspace, renaming.set);
    let names = NamesOfRename {
        called,
        name: renaming.name,
    };
    let reaching = reaching(alloc, workspace, renaming.set, names)?;
    let listed = members.as_slice();
    let m = MemberRename {
        workspace,
        reaching: &reaching,
        members: listed,
        called,
        name: renaming.name,
    };
    first_turned(alloc, &m)
}
