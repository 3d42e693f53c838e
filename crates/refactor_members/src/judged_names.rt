//! Judges the identifiers that declare fields and methods of the new name: each must count.
ghost use Rattle.std.specs.Prelude.{ℕ, ◌≡◌, ◌↔◌, ◌<◌, length, Some, IsTrue, IfOk, OnOk};
ghost use Rattle.base_edits.specs.EditSet.{FileChanges};
ghost use Rattle.base_files.specs.Packages.{package_paths};
ghost use Rattle.types_declared.specs.Package.{Package as Checked};
ghost use Rattle.refs_binding.specs.Indexed.{IsPackageNumber, IsPackageNumbered};
ghost use Rattle.refs_binding.specs.Members.{AreOwnDefinitions};
ghost use Rattle.refs_binding.specs.Workspaces.{home_path, IsPackageAt};
ghost use Rattle.refactor_conflict.specs.MembersAfter.{CountsAfter};
ghost use Rattle.refactor_conflict.specs.Conflicts.{HoldsBefore, IsPlaceBefore, Takes};
ghost use Rattle.refactor_conflict.specs.Staying.{DeclaringNamesStayIn};
ghost use Rattle.refactor_members.specs.Judging.{FieldsStayOf, IsNamedAt, JudgesIn, ListedFieldStays, ListedMethodStays, MethodsStayOf, NewNameCounts, NamesStayOf};
ghost use Rattle.refactor_members.specs.Renames.{by, KnowsRename, IsFieldOfNewName, IsMethodNamed, packages_before, rename_revision, renamed_members, verdicts_in, workspace_before};
ghost use Rattle.refactor_conflict.specs.declared.conflict.Conflict.{Conflict as Told};

use crate::concerned::concerns_definition;
use crate::declared_place::name_place;
use crate::keeping::keep;
use crate::lookup::{
    first_field, first_method, old_field, old_method, renamed_field, renamed_method, symbol,
};
use crate::member_rename::MemberRename;
use crate::ranks::is_rank;
use refactor_conflict::Conflict;
use refs_binding::indexed::Numbered;
use refs_binding::{Declaration, own_of, path_of};
use std::alloc::{AllocError, Global};
use types_expr::symbol::Symbol;
use types_expr::world::Definition;

/// A type definition of the package of a number, by its symbol, while a rename is judged.
#[derive(Clone, Copy)]
struct DefinitionAt<'a> {
    rename: &'a MemberRename<'a>,
    number: usize,
    of: &'a Symbol,
}

/// Notes the identifier that declares a field or method of the package of a number as lost.
fn lose(
    alloc: Global,
    first: &mut Option<Conflict>,
    at: Numbered<'_>,
    member: &Declaration,
) -> Result<(), AllocError>
    requires { IsPackageNumber at }
    ensures takes { OnOk result ((p : Checked) → IsPackageNumbered at.entry p → home_path member.now ≡ Some p.path → Takes (λ (c : Told). IsNamedAt p member.now c.used × (c.by ≡ None)) first.old first.new) }
    ensures behind { OnOk result ((p : Checked) → IsPackageNumbered at.entry p → home_path member.now ≡ Some p.path → HoldsBefore (λ place. IsNamedAt p member.now place → ⊥) first.new) }
{
    match name_place(alloc, at, member)? {
        None => Ok(()),
        Some(place) => {
            keep(first, place, None);
            Ok(())
        }
    }
}

/// Judges the identifier that declares a field or method: it is lost unless the member counts under its new name.
fn judge_member(
    alloc: Global,
    first: &mut Option<Conflict>,
    d: &DefinitionAt<'_>,
    member: &Declaration,
    counts: bool,
) -> Result<(), AllocError>
    requires { d.now.number < length (package_paths (workspace_before d.now.rename.now)) }
    ensures { OnOk result ((s : FileChanges) → (p : Checked) → IsPackageAt (workspace_before d.now.rename.now) (verdicts_in d.now.rename.now) d.now.number p → home_path member.now ≡ Some p.path →
        (KnowsRename (by d.now.rename.now s) → IsTrue counts ↔ CountsAfter (packages_before d.now.rename.now) (rename_revision (by d.now.rename.now s)) member.now) →
        JudgesIn (by d.now.rename.now s) p (NewNameCounts (by d.now.rename.now s) p member.now) first.old first.new) }
{
    if counts {
        return Ok(());
    }
    let at = Numbered {
        workspace: d.rename.workspace,
        number: d.number,
    };
    lose(alloc, first, at, member)
}

/// Judges the identifier that declares the field of a rank, if one was found.
fn judge_field(
    alloc: Global,
    first: &mut Option<Conflict>,
    d: &DefinitionAt<'_>,
    listed: Option<usize>,
) -> Result<(), AllocError>
    requires { d.now.number < length (package_paths (workspace_before d.now.rename.now)) }
    ensures { OnOk result ((s : FileChanges) → (p : Checked) → IsPackageAt (workspace_before d.now.rename.now) (verdicts_in d.now.rename.now) d.now.number p → p.path ≡ d.now.of.now.package →
        (KnowsRename (by d.now.rename.now s) → (rank : ℕ) → listed ≡ Some rank → IsFieldOfNewName (renamed_members d.now.rename.now) d.now.rename.now.name.now p d.now.of.now.rank rank) →
        JudgesIn (by d.now.rename.now s) p (ListedFieldStays (by d.now.rename.now s) p listed) first.old first.new) }
{
    match listed {
        None => Ok(()),
        Some(rank) => {
            let member = Declaration::Field(symbol(&d.of.package, rank)?);
            let counts = is_rank(first_field(d.rename, d.of), rank);
            judge_member(alloc, first, d, &member, counts)
        }
    }
}

/// Judges the identifier that declares the method of a rank, if one was found.
fn judge_method(
    alloc: Global,
    first: &mut Option<Conflict>,
    d: &DefinitionAt<'_>,
    listed: Option<usize>,
) -> Result<(), AllocError>
    requires { d.now.number < length (package_paths (workspace_before d.now.rename.now)) }
    ensures { OnOk result ((s : FileChanges) → (p : Checked) → IsPackageAt (workspace_before d.now.rename.now) (verdicts_in d.now.rename.now) d.now.number p → p.path ≡ d.now.of.now.package →
        (KnowsRename (by d.now.rename.now s) → (rank : ℕ) → listed ≡ Some rank → IsMethodNamed (renamed_members d.now.rename.now) d.now.rename.now.name.now p d.now.of.now.rank rank) →
        JudgesIn (by d.now.rename.now s) p (ListedMethodStays (by d.now.rename.now s) p listed) first.old first.new) }
{
    match listed {
        None => Ok(()),
        Some(rank) => {
            let member = Declaration::Method(symbol(&d.of.package, rank)?);
            let counts = is_rank(first_method(d.rename, d.of), rank);
            judge_member(alloc, first, d, &member, counts)
        }
    }
}

/// Judges the identifiers that declare the fields of the new name of a type definition.
fn judge_fields(
    alloc: Global,
    first: &mut Option<Conflict>,
    d: &DefinitionAt<'_>,
) -> Result<(), AllocError>
    requires { d.now.number < length (package_paths (workspace_before d.now.rename.now)) }
    ensures { OnOk result ((s : FileChanges) → (p : Checked) → IsPackageAt (workspace_before d.now.rename.now) (verdicts_in d.now.rename.now) d.now.number p → p.path ≡ d.now.of.now.package →
        JudgesIn (by d.now.rename.now s) p (FieldsStayOf (by d.now.rename.now s) p d.now.of.now.rank) first.old first.new) }
{
    judge_field(alloc, first, d, old_field(d.rename, d.of))?;
    judge_field(alloc, first, d, renamed_field(d.rename, d.of))
}

/// Judges the identifiers that declare the methods of the new name of a type definition.
fn judge_methods(
    alloc: Global,
    first: &mut Option<Conflict>,
    d: &DefinitionAt<'_>,
) -> Result<(), AllocError>
    requires { d.now.number < length (package_paths (workspace_before d.now.rename.now)) }
    ensures { OnOk result ((s : FileChanges) → (p : Checked) → IsPackageAt (workspace_before d.now.rename.now) (verdicts_in d.now.rename.now) d.now.number p → p.path ≡ d.now.of.now.package →
        JudgesIn (by d.now.rename.now s) p (MethodsStayOf (by d.now.rename.now s) p d.now.of.now.rank) first.old first.new) }
{
    judge_method(alloc, first, d, old_method(d.rename, d.of))?;
    judge_method(alloc, first, d, renamed_method(d.rename, d.of))
}

/// Judges the identifiers that declare the members of the new name of the type definition of a rank.
fn judge_definition(
    alloc: Global,
    first: &mut Option<Conflict>,
    m: &MemberRename<'_>,
    number: usize,
    rank: usize,
) -> Result<(), AllocError>
    requires { number < length (package_paths (workspace_before m.now)) }
    ensures { OnOk result ((s : FileChanges) → (p : Checked) → IsPackageAt (workspace_before m.now) (verdicts_in m.now) number p → JudgesIn (by m.now s) p (NamesStayOf (by m.now s) p rank) first.old first.new) }
{
    let of = symbol(path_of(m.workspace, number), rank)?;
    let d = DefinitionAt {
        rename: m,
        number,
        of: &of,
    };
    judge_fields(alloc, first, &d)?;
    judge_methods(alloc, first, &d)
}

/// Judges the identifiers that declare the members of the new name of the type definition of a rank, unless it has none.
fn judge_if_concerned(
    alloc: Global,
    first: &mut Option<Conflict>,
    m: &MemberRename<'_>,
    number: usize,
    own: &[Definition],
    rank: usize,
) -> Result<(), AllocError>
    requires number { number < length (package_paths (workspace_before m.now)) }
    requires rank { rank < length own.now }
    ensures { OnOk result ((s : FileChanges) → (p : Checked) → IsPackageAt (workspace_before m.now) (verdicts_in m.now) number p → AreOwnDefinitions p own.now →
        JudgesIn (by m.now s) p (NamesStayOf (by m.now s) p rank) first.old first.new) }
{
    m.workspace.has_no_faults();
    if concerns_definition(m, &own[rank], rank) {
        judge_definition(alloc, first, m, number, rank)
    } else {
        Ok(())
    }
}

/// Judges the identifiers that declare fields and methods in the package of a number.
pub(crate) fn judge_names(
    alloc: Global,
    first: &mut Option<Conflict>,
    m: &MemberRename<'_>,
    number: usize,
) -> Result<(), AllocError>
    requires { number < length (package_paths (workspace_before m.now)) }
    ensures { OnOk result ((s : FileChanges) → (p : Checked) → IsPackageAt (workspace_before m.now) (verdicts_in m.now) number p →
        JudgesIn (by m.now s) p (DeclaringNamesStayIn (workspace_before m.now) (verdicts_in m.now) (rename_revision (by m.now s)) p) first.old first.new) }
{
    m.workspace.has_no_faults();
    let own = own_of(m.workspace, number);
    for rank in 0..own.len() {
        judge_if_concerned(alloc, first, m, number, own, rank)?;
    }
    Ok(())
}
