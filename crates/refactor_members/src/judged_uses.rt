//! Judges the uses of members that have the new name: each must select the member that it selected.
ghost use Rattle.std.specs.Prelude.{ℕ, ◌≡◌, ◌↔◌, ◌⊎◌, ◌<◌, Contains, false, List, length, map, slice_get, Some, IsTrue, IfOk, OnOk};
ghost use Rattle.base_files.specs.Packages.{package_paths};
ghost use Rattle.base_edits.specs.EditSet.{FileChanges};
ghost use Rattle.go_ast.specs.SourceFile.{source_of};
ghost use Rattle.go_scope.specs.Named.{name_value};
ghost use Rattle.types_expr.specs.Found.{use_of};
ghost use Rattle.types_expr.specs.View.{type_of};
ghost use Rattle.types_expr.specs.World.{member_by};
ghost use Rattle.types_expr.specs.WorldView.{member_of, underlying_in};
ghost use Rattle.types_declared.specs.Package.{Package as Checked, spelled, spelled_at};
ghost use Rattle.types_info.specs.MemberUses.{AreUsesIn};
ghost use Rattle.refs_binding.specs.Binding.{declaration_of};
ghost use Rattle.refs_binding.specs.Members.{definitions_known, member_at};
ghost use Rattle.refs_binding.specs.Packages.{IsSeenBy};
ghost use Rattle.refs_binding.specs.Steps.{IsDeclarationResult};
ghost use Rattle.refs_binding.specs.Uses.{IsCheckedPackage};
ghost use Rattle.refs_binding.specs.Workspaces.{known_in, IsPackageAt};
ghost use Rattle.refactor_conflict.specs.MembersAfter.{IsMemberAfter};
ghost use Rattle.refactor_conflict.specs.Conflicts.{IsMemberConflict, IsMemberConflictIn, IsOtherMember, IsPlaceBefore, Takes, UseStays, UsesStay};
ghost use Rattle.refactor_conflict.specs.Staying.{MembersStayIn};
ghost use Rattle.refactor_members.specs.Judging.{Judges, JudgesIn};
ghost use Rattle.refactor_members.specs.Naming.{HasUsesOf, IsUseIn};
ghost use Rattle.refactor_members.specs.Renames.{by, KnowsRename, packages_before, rename_revision, renamed_members, verdicts_in, workspace_before};

use crate::concerned::{concerns, concerns_at};
use crate::declared_place::capturer;
use crate::keeping::keep;
use crate::lookup::member;
use crate::member_rename::MemberRename;
use base_files::Place;
use go_ast::FileTree;
use go_scope::model::Position;
use refactor_conflict::Conflict;
use refs_binding::member_uses::{KnownTypes, known_member};
use refs_binding::{Declaration, FaultlessWorkspace, members_of, own_of, path_of, seen_by, trees};
use refs_places::name_beginning;
use std::alloc::{AllocError, Global};
use types_declared::ExportTable;
use types_expr::found::MemberUse;
use types_expr::types::GoType;
use types_expr::world::{Member, Name, World};

/// What is judged of a package: its trees, the type definitions that it knows, and its uses of members. The package is not read.
#[derive(Clone, Copy)]
pub(crate) struct PackageUses<'a> {
    pub(crate) files: &'a [FileTree],
    pub(crate) types: KnownTypes<'a>,
    pub(crate) members: &'a [Vec<MemberUse>],
}

/// The spelling of a token of a file; empty where there is no such file.
fn spelling_at(files: &[FileTree], file: usize, token: usize) -> &[u8]
    ensures { result.now ≡ spelled_at (slice_get (map source_of files.now) file) token }
{
    match files.get(file) {
        None => &[],
        Some(tree) => tree.spelling(token),
    }
}

/// Notes a conflict of the identifier at `used`, which was bound to the member `old`, if after the rename it selects another member.
fn note_other_member(
    alloc: Global,
    first: &mut Option<Conflict>,
    workspace: &FaultlessWorkspace<'_>,
    used: Place,
    old: Member<'_>,
    now: &Declaration,
) -> Result<(), AllocError>
    ensures takes { OnOk result (Takes (IsOtherMember (IsCheckedPackage workspace.now.graph (known_in workspace.now.findings)) (λ e. e ≡ now.now) used (declaration_of (member_of old.entry))) first.old first.new) }
    ensures stays { OnOk result (IsPlaceBefore first.new used → declaration_of (member_of old.entry) ≡ now.now) }
{
    if now.is_of(old) {
        return Ok(());
    }
    let by = capturer(alloc, workspace, now)?;
    keep(first, used, Some(by));
    Ok(())
}

/// Notes a conflict of the identifier at `used`, which was bound to the member `old`, if after the rename it selects another member or none.
fn note_member(
    alloc: Global,
    first: &mut Option<Conflict>,
    workspace: &FaultlessWorkspace<'_>,
    used: Place,
    old: Member<'_>,
    now: Option<Declaration>,
) -> Result<(), AllocError>
    ensures takes { OnOk result (Takes (IsOtherMember (IsCheckedPackage workspace.now.graph (known_in workspace.now.findings)) (λ e. now ≡ Some e) used (declaration_of (member_of old.entry))) first.old first.new) }
    ensures stays { OnOk result (IsPlaceBefore first.new used → now ≡ Some (declaration_of (member_of old.entry))) }
{
    match now {
        None => {
            keep(first, used, None);
            Ok(())
        }
        Some(declaration) => note_other_member(alloc, first, workspace, used, old, &declaration),
    }
}

/// The world of the type definitions that a package knows, without names.
#[tactic(auto, unfolding(types_expr::specs::WorldView::definition_in, types_expr::specs::WorldView::definition_at))]
fn known_world<'w>(types: KnownTypes<'w>) -> World<'w>
    ensures { underlying_in result ≡ (λ t. (definitions_known types.entry t).underlying) }
{
    World {
        package: types.path,
        names: &[],
        bounds: &[],
        own: types.own,
        imported: types.imported,
    }
}

/// The member that the new name selects for a type, as a package knows it.
fn member_now(
    m: &MemberRename<'_>,
    types: KnownTypes<'_>,
    before: &GoType,
) -> Result<Option<Declaration>, AllocError>
    ensures { IfOk result (λ found. (s : FileChanges) → KnowsRename (by m.now s) → IsDeclarationResult (IsMemberAfter (packages_before m.now) (rename_revision (by m.now s)) types.entry.path.now m.now.name.now (λ t. (definitions_known types.entry t).underlying) (type_of before.now)) found) }
{
    let world = known_world(types);
    member(m, types.path.path(), &world, before)
}

/// Judges the identifier at a place that was a use of the member `old` and has the new name after the rename. `before`: the type before it.
fn note_use(
    alloc: Global,
    first: &mut Option<Conflict>,
    m: &MemberRename<'_>,
    types: KnownTypes<'_>,
    before: &GoType,
    place: Place,
    old: Member<'_>,
) -> Result<(), AllocError>
    ensures { let now = λ (s : FileChanges). IsMemberAfter (packages_before m.now) (rename_revision (by m.now s)) types.entry.path.now m.now.name.now (λ t. (definitions_known types.entry t).underlying) (type_of before.now) in
        OnOk result ((s : FileChanges) → Judges (by m.now s) (IsOtherMember (packages_before m.now) (now s) place (declaration_of (member_of old.entry))) (λ at. at ≡ place → now s (declaration_of (member_of old.entry))) first.old first.new) }
{
    let now = member_now(m, types, before)?;
    note_member(alloc, first, m.workspace, place, old, now)
}

/// Judges a use of the member `old` whose token has the new name after the rename: `old` is renamed, or the token has that name.
fn judge_called(
    alloc: Global,
    first: &mut Option<Conflict>,
    m: &MemberRename<'_>,
    of: &PackageUses<'_>,
    file: usize,
    found: &MemberUse,
    old: Member<'_>,
) -> Result<(), AllocError>
    ensures { let x = use_of found.now in
        let ds = definitions_known of.now.types in
        OnOk result ((s : FileChanges) → (p : Checked) → HasUsesOf (workspace_before m.now) (verdicts_in m.now) p of.now → member_at ds p file x.place x.before ≡ Some (declaration_of (member_of old.entry)) →
        IsUseIn p file x → Contains (renamed_members m.now) (declaration_of (member_of old.entry)) ⊎ (spelled p file x.place ≡ m.now.name.now) →
        Judges (by m.now s) (IsMemberConflict (packages_before m.now) (rename_revision (by m.now s)) ds p file x) (UseStays (packages_before m.now) (rename_revision (by m.now s)) ds p file x) first.old first.new) }
{
    let at = Position {
        file,
        index: found.place,
    };
    match name_beginning(of.files, at)? {
        None => Ok(()),
        Some(place) => note_use(alloc, first, m, of.types, &found.before, place, old),
    }
}

/// Whether a spelling is a name.
fn is_name(spelling: &[u8], name: &[u8]) -> bool
    ensures { IsTrue result ↔ (spelling.now ≡ name.now) }
{
    spelling == name
}

/// Whether a member is one of those that are renamed.
fn is_renamed(m: &MemberRename<'_>, old: Member<'_>) -> bool
    ensures { IsTrue result ↔ Contains (renamed_members m.now) (declaration_of (member_of old.entry)) }
{
    for member in m.members {
        if member.declaration.is_of(old) {
            return true;
        }
    }
    false
}

/// Whether a use of the member `old`, spelled so, has the new name after the rename.
fn is_called(m: &MemberRename<'_>, spelling: &[u8], old: Member<'_>) -> bool
    ensures { IsTrue result ↔ (Contains (renamed_members m.now) (declaration_of (member_of old.entry)) ⊎ (spelling.now ≡ m.now.name.now)) }
{
    is_renamed(m, old) || is_name(spelling, m.name)
}

/// Judges a use of a member that is spelled so.
fn judge_spelled(
    alloc: Global,
    first: &mut Option<Conflict>,
    m: &MemberRename<'_>,
    of: &PackageUses<'_>,
    file: usize,
    found: &MemberUse,
    spelling: &[u8],
) -> Result<(), AllocError>
    requires { spelling.now ≡ spelled_at (slice_get (map source_of of.now.files.now) file) found.now.place }
    ensures { let x = use_of found.now in
        let ds = definitions_known of.now.types in
        OnOk result ((s : FileChanges) → (p : Checked) → HasUsesOf (workspace_before m.now) (verdicts_in m.now) p of.now → IsUseIn p file x →
        Judges (by m.now s) (IsMemberConflict (packages_before m.now) (rename_revision (by m.now s)) ds p file x) (UseStays (packages_before m.now) (rename_revision (by m.now s)) ds p file x) first.old first.new) }
{
    let name = Name {
        bound: None,
        spelling,
    };
    let names = [name];
    match known_member(of.types, names.as_slice(), &found.before) {
        None => Ok(()),
        Some(old) => if is_called(m, spelling, old) {
            judge_called(alloc, first, m, of, file, found, old)
        } else {
            Ok(())
        },
    }
}

/// Whether a use of a member, spelled so, may have the new name after the rename: it has it, or has the name of the renamed members.
fn may_be_called(m: &MemberRename<'_>, spelling: &[u8]) -> bool
    ensures { result ≡ false → (spelling.now ≡ m.now.name.now → ⊥) × ((old : List ℕ) × ((name_value m.now.called ≡ Some old) × (spelling.now ≡ old → ⊥))) }
{
    match m.called {
        None => true,
        Some(called) => is_name(spelling, called) || is_name(spelling, m.name),
    }
}

/// Judges a use of a member. One stays that has neither the new name nor the name of the renamed members.
fn judge_use(
    alloc: Global,
    first: &mut Option<Conflict>,
    m: &MemberRename<'_>,
    of: &PackageUses<'_>,
    file: usize,
    found: &MemberUse,
) -> Result<(), AllocError>
    ensures { let x = use_of found.now in
        let ds = definitions_known of.now.types in
        OnOk result ((s : FileChanges) → (p : Checked) → HasUsesOf (workspace_before m.now) (verdicts_in m.now) p of.now → IsUseIn p file x →
        Judges (by m.now s) (IsMemberConflict (packages_before m.now) (rename_revision (by m.now s)) ds p file x) (UseStays (packages_before m.now) (rename_revision (by m.now s)) ds p file x) first.old first.new) }
{
    let spelling = spelling_at(of.files, file, found.place);
    if may_be_called(m, spelling) {
        judge_spelled(alloc, first, m, of, file, found, spelling)
    } else {
        Ok(())
    }
}

/// Judges the uses of members in a file.
fn judge_file(
    alloc: Global,
    first: &mut Option<Conflict>,
    m: &MemberRename<'_>,
    of: &PackageUses<'_>,
    file: usize,
    uses: &[MemberUse],
) -> Result<(), AllocError>
    ensures { let ds = definitions_known of.now.types in
        OnOk result ((s : FileChanges) → (p : Checked) → HasUsesOf (workspace_before m.now) (verdicts_in m.now) p of.now → AreUsesIn p file (map use_of uses.now) →
        Judges (by m.now s) (IsMemberConflictIn (packages_before m.now) (rename_revision (by m.now s)) ds p file (map use_of uses.now))
        (UsesStay (packages_before m.now) (rename_revision (by m.now s)) ds p file (map use_of uses.now)) first.old first.new) }
{
    for k in 0..uses.len() {
        judge_use(alloc, first, m, of, file, &uses[k])?;
    }
    Ok(())
}

/// Judges the uses of members in a file, unless none of them can have the new name after the rename.
fn judge_if_concerned(
    alloc: Global,
    first: &mut Option<Conflict>,
    m: &MemberRename<'_>,
    of: &PackageUses<'_>,
    file: usize,
    uses: &[MemberUse],
) -> Result<(), AllocError>
    ensures { let ds = definitions_known of.now.types in
        OnOk result ((s : FileChanges) → (p : Checked) → HasUsesOf (workspace_before m.now) (verdicts_in m.now) p of.now → AreUsesIn p file (map use_of uses.now) →
        Judges (by m.now s) (IsMemberConflictIn (packages_before m.now) (rename_revision (by m.now s)) ds p file (map use_of uses.now))
        (UsesStay (packages_before m.now) (rename_revision (by m.now s)) ds p file (map use_of uses.now)) first.old first.new) }
{
    if concerns_at(m, of.files, file, uses) {
        judge_file(alloc, first, m, of, file, uses)
    } else {
        Ok(())
    }
}

/// Judges the uses of members in a package.
fn judge_files(
    alloc: Global,
    first: &mut Option<Conflict>,
    m: &MemberRename<'_>,
    of: &PackageUses<'_>,
) -> Result<(), AllocError>
    ensures { OnOk result ((s : FileChanges) → (p : Checked) → HasUsesOf (workspace_before m.now) (verdicts_in m.now) p of.now →
        JudgesIn (by m.now s) p (MembersStayIn (workspace_before m.now) (verdicts_in m.now) (rename_revision (by m.now s)) p) first.old first.new) }
{
    for file in 0..of.members.len() {
        judge_if_concerned(alloc, first, m, of, file, &of.members[file])?;
    }
    Ok(())
}

/// Judges the uses of members in the package of a number, by what this package sees of others.
fn judge_uses_by(
    alloc: Global,
    first: &mut Option<Conflict>,
    m: &MemberRename<'_>,
    number: usize,
    seen: &ExportTable,
) -> Result<(), AllocError>
    requires in_range { number < length (package_paths (workspace_before m.now)) }
    requires seen { IsSeenBy (workspace_before m.now) (verdicts_in m.now) number seen.now }
    ensures { OnOk result ((s : FileChanges) → (p : Checked) → IsPackageAt (workspace_before m.now) (verdicts_in m.now) number p →
        JudgesIn (by m.now s) p (MembersStayIn (workspace_before m.now) (verdicts_in m.now) (rename_revision (by m.now s)) p) first.old first.new) }
{
    let types = KnownTypes {
        path: path_of(m.workspace, number),
        own: own_of(m.workspace, number),
        imported: seen.definitions(),
    };
    let of = PackageUses {
        files: trees(m.workspace, number),
        types,
        members: members_of(m.workspace, number),
    };
    judge_files(alloc, first, m, &of)
}

/// Judges the uses of members in the package of a number.
fn judge_all_uses(
    alloc: Global,
    first: &mut Option<Conflict>,
    m: &MemberRename<'_>,
    number: usize,
) -> Result<(), AllocError>
    requires { number < length (package_paths (workspace_before m.now)) }
    ensures { OnOk result ((s : FileChanges) → (p : Checked) → IsPackageAt (workspace_before m.now) (verdicts_in m.now) number p →
        JudgesIn (by m.now s) p (MembersStayIn (workspace_before m.now) (verdicts_in m.now) (rename_revision (by m.now s)) p) first.old first.new) }
{
    let seen = seen_by(alloc, m.workspace, number)?;
    judge_uses_by(alloc, first, m, number, &seen)
}

/// Judges the uses of members in the package of a number, unless none of them can have the new name after the rename.
pub(crate) fn judge_uses(
    alloc: Global,
    first: &mut Option<Conflict>,
    m: &MemberRename<'_>,
    number: usize,
) -> Result<(), AllocError>
    requires { number < length (package_paths (workspace_before m.now)) }
    ensures { OnOk result ((s : FileChanges) → (p : Checked) → IsPackageAt (workspace_before m.now) (verdicts_in m.now) number p →
        JudgesIn (by m.now s) p (MembersStayIn (workspace_before m.now) (verdicts_in m.now) (rename_revision (by m.now s)) p) first.old first.new) }
{
    if concerns(
        m,
        trees(m.workspace, number),
        members_of(m.workspace, number),
    ) {
        judge_all_uses(alloc, first, m, number)
    } else {
        Ok(())
    }
}
