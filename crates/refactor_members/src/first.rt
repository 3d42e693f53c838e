//! The first conflict of a rename of a field or method.
ghost use Rattle.std.specs.Prelude.{◌≡◌, ◌<◌, None, length, IfOk, OnOk};
ghost use Rattle.base_edits.specs.EditSet.{FileChanges};
ghost use Rattle.base_files.specs.Packages.{package_paths};
ghost use Rattle.types_declared.specs.Package.{Package as Checked};
ghost use Rattle.refs_binding.specs.Workspaces.{IsPackageAt};
ghost use Rattle.refactor_conflict.specs.Conflicts.{IsConflict};
ghost use Rattle.refactor_members.specs.Judging.{Judges, JudgesIn, AllMembersStayAt, MembersStayThere};
ghost use Rattle.refactor_members.specs.Renames.{by, rename_revision, verdicts_in, workspace_before};

use crate::judged_names::judge_names;
use crate::judged_uses::judge_uses;
use crate::member_rename::MemberRename;
use refactor_conflict::Conflict;
use std::alloc::{AllocError, Global};
use workspace_check::is_marked;

/// Judges the uses of members and the identifiers that declare them in the package of a number.
fn judge_members(
    alloc: Global,
    first: &mut Option<Conflict>,
    m: &MemberRename<'_>,
    number: usize,
) -> Result<(), AllocError>
    requires { number < length (package_paths (workspace_before m.now)) }
    ensures { OnOk result ((s : FileChanges) → (p : Checked) → IsPackageAt (workspace_before m.now) (verdicts_in m.now) number p → JudgesIn (by m.now s) p (MembersStayThere (by m.now s) p) first.old first.new) }
{
    judge_uses(alloc, first, m, number)?;
    judge_names(alloc, first, m, number)
}

/// Judges the uses of members and the identifiers that declare them in the package of a number, if it can use a renamed member.
fn judge_package(
    alloc: Global,
    first: &mut Option<Conflict>,
    m: &MemberRename<'_>,
    number: usize,
) -> Result<(), AllocError>
    requires { number < length (package_paths (workspace_before m.now)) }
    ensures { OnOk result ((s : FileChanges) → (p : Checked) → IsPackageAt (workspace_before m.now) (verdicts_in m.now) number p → JudgesIn (by m.now s) p (MembersStayThere (by m.now s) p) first.old first.new) }
{
    if is_marked(m.reaching, number) {
        judge_members(alloc, first, m, number)
    } else {
        Ok(())
    }
}

/// The first use of a member or declaring identifier of one that the rename loses or captures.
pub(crate) fn first_turned(
    alloc: Global,
    m: &MemberRename<'_>,
) -> Result<Option<Conflict>, AllocError>
    ensures { IfOk result (λ told. (s : FileChanges) → Judges (by m.now s) (IsConflict (workspace_before m.now) (verdicts_in m.now) (rename_revision (by m.now s))) (AllMembersStayAt (by m.now s)) None told) }
{
    m.workspace.has_no_faults();
    let mut first = None;
    for number in 0..m.workspace.len() {
        judge_package(alloc, &mut first, m, number)?;
    }
    Ok(first)
}
