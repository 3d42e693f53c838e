//! Lists the uses of several fields and methods in one pass over the packages. Only packages that declare one of them are read.
ghost use Rattle.std.specs.Prelude.{None, Contains, IsTrue, OnOk};
ghost use Rattle.go_scope.specs.Named.{name_value};
ghost use Rattle.types_declared.specs.Package.{Package as Checked};
ghost use Rattle.types_declared.specs.PackageView.{package_of};
ghost use Rattle.refs_binding.specs.declared.declaration.Declaration.{Declaration as Bound};
ghost use Rattle.refs_binding.specs.Binding.{BindsByMember, DeclaresMember};
ghost use Rattle.refs_binding.specs.Indexed.{IsPackageNumber, IsPackageNumbered};
ghost use Rattle.refs_binding.specs.Steps.{AddsPlaces, UsesIn};
ghost use Rattle.refs_binding.specs.Workspaces.{known_in, IsUseAt};
ghost use Rattle.refs_uses.specs.MembersAbroad.{IsMemberAbroad};
ghost use Rattle.refs_uses.specs.SoughtMembers.{AllAreMembers, AllHaveName, IsFieldOrMethod, IsPlaceOfSome};
ghost use Rattle.refs_uses.specs.UsesOfEach.{IsUseOfSome};

use crate::may_use::uses_name;
use crate::member_name::name_of_all;
use crate::members_abroad::{SoughtMembers, add_used_members, is_member_abroad};
use crate::own_names::add_names_of_each;
use refs_binding::indexed::Numbered;
use refs_binding::{Declaration, FaultlessWorkspace, PackageReader, PlaceKey};
use std::alloc::{AllocError, Global};
use types_declared::{Index, Package};

/// Whether a declaration is a field or method.
fn is_field_or_method(declaration: &Declaration) -> bool
    ensures { IsTrue result → IsFieldOrMethod declaration.now }
{
    match declaration {
        Declaration::Predeclared(_) | Declaration::Declared(_, _) => false,
        Declaration::Field(_) | Declaration::Method(_) => true,
    }
}

/// Whether all declarations of a list are fields or methods.
fn are_members(set: &[Declaration]) -> bool
    ensures { IsTrue result → AllAreMembers set.now }
{
    for declaration in set {
        if !is_field_or_method(declaration) {
            return false;
        }
    }
    true
}

/// Whether a list has several declarations, and all of them are fields or methods.
pub(crate) fn are_several_members(set: &[Declaration]) -> bool
    ensures { IsTrue result → AllAreMembers set.now }
{
    set.len() > 1 && are_members(set)
}

/// Whether all declarations of a list are fields or methods of other packages than that of the number.
fn are_abroad(at: Numbered<'_>, set: &[Declaration]) -> bool
    requires { IsPackageNumber at }
    ensures { IsTrue result → (d : Bound) → Contains set.now d →
        IsMemberAbroad at.entry.workspace.now.graph (known_in at.entry.workspace.now.findings) at.entry.number d }
{
    for declaration in set {
        if !is_member_abroad(at, declaration) {
            return false;
        }
    }
    true
}

/// Adds the places of a package's uses of members that are bound to a sought one, if it has a use of their name.
fn add_used(
    alloc: Global,
    spots: &mut Vec<PlaceKey>,
    at: Numbered<'_>,
    sought: &SoughtMembers<'_>,
) -> Result<(), AllocError>
    requires numbered { IsPackageNumber at }
    requires named { AllHaveName at.workspace.now.graph (known_in at.workspace.now.findings) sought.now.set.now (name_value sought.now.member) }
    ensures { OnOk result ((p : Checked) → IsPackageNumbered at.entry p → AddsPlaces spots.old.items spots.new.items
        (IsPlaceOfSome sought.now.set.now (λ d. UsesIn p (λ u. BindsByMember p u d)))) }
{
    if uses_name(at.workspace, at.number, sought.member) {
        add_used_members(alloc, spots, at, sought)
    } else {
        Ok(())
    }
}

/// Adds the places of a package's identifiers that declare a field or method of a list, by its table.
fn add_names_by(
    alloc: Global,
    spots: &mut Vec<PlaceKey>,
    at: Numbered<'_>,
    unit: Package<'_>,
    set: &[Declaration],
) -> Result<(), AllocError>
    requires { IsPackageNumbered at (package_of unit) }
    ensures { OnOk result ((p : Checked) → IsPackageNumbered at.entry p → AddsPlaces spots.old.items spots.new.items
        (IsPlaceOfSome set.now (λ d. UsesIn p (λ u. DeclaresMember p u d)))) }
{
    let index = Index::of(alloc, unit)?;
    add_names_of_each(alloc, spots, unit, &index, set)
}

/// Reads a package, and adds the places of its identifiers that declare a field or method of a list.
fn add_names_read(
    alloc: Global,
    spots: &mut Vec<PlaceKey>,
    at: Numbered<'_>,
    set: &[Declaration],
) -> Result<(), AllocError>
    requires { IsPackageNumber at }
    ensures { OnOk result ((p : Checked) → IsPackageNumbered at.entry p → AddsPlaces spots.old.items spots.new.items
        (IsPlaceOfSome set.now (λ d. UsesIn p (λ u. DeclaresMember p u d)))) }
{
    let reader = PackageReader::of(alloc, at)?;
    let table = reader.table(alloc)?;
    add_names_by(alloc, spots, at, reader.unit(&table), set)
}

/// Adds the places of a package's identifiers that declare a field or method of a list. Does not read the package if it declares none.
fn add_names(
    alloc: Global,
    spots: &mut Vec<PlaceKey>,
    at: Numbered<'_>,
    set: &[Declaration],
) -> Result<(), AllocError>
    requires { IsPackageNumber at }
    ensures { OnOk result ((p : Checked) → IsPackageNumbered at.entry p → AddsPlaces spots.old.items spots.new.items
        (IsPlaceOfSome set.now (λ d. UsesIn p (λ u. DeclaresMember p u d)))) }
{
    if are_abroad(at, set) {
        Ok(())
    } else {
        add_names_read(alloc, spots, at, set)
    }
}

/// Adds the places of a package's identifiers that are bound to a sought field or method.
fn add_members_at(
    alloc: Global,
    spots: &mut Vec<PlaceKey>,
    at: Numbered<'_>,
    sought: &SoughtMembers<'_>,
) -> Result<(), AllocError>
    requires numbered { IsPackageNumber at }
    requires named { AllHaveName at.workspace.now.graph (known_in at.workspace.now.findings) sought.now.set.now (name_value sought.now.member) }
    requires members { AllAreMembers sought.now.set.now }
    ensures { OnOk result (AddsPlaces spots.old.items spots.new.items (IsPlaceOfSome sought.now.set.now
        (λ d. IsUseAt at.entry.workspace.now.graph (known_in at.entry.workspace.now.findings) d None at.entry.number))) }
{
    at.workspace.has_no_faults();
    add_used(alloc, spots, at, sought)?;
    add_names(alloc, spots, at, sought.set)
}

/// Adds the places of the identifiers of all packages that are bound to a sought field or method.
fn add_members_everywhere(
    alloc: Global,
    spots: &mut Vec<PlaceKey>,
    workspace: &FaultlessWorkspace<'_>,
    sought: &SoughtMembers<'_>,
) -> Result<(), AllocError>
    requires named { AllHaveName workspace.now.graph (known_in workspace.now.findings) sought.now.set.now (name_value sought.now.member) }
    requires members { AllAreMembers sought.now.set.now }
    ensures { OnOk result (AddsPlaces spots.old.items spots.new.items (IsUseOfSome workspace.now.graph (known_in workspace.now.findings) sought.now.set.now)) }
{
    for number in 0..workspace.len() {
        let at = Numbered {
            workspace: &*workspace,
            number,
        };
        add_members_at(alloc, spots, at, sought)?;
    }
    Ok(())
}

/// Adds the places of all uses of the fields and methods of a list.
pub(crate) fn add_uses_of_members(
    alloc: Global,
    spots: &mut Vec<PlaceKey>,
    workspace: &FaultlessWorkspace<'_>,
    set: &[Declaration],
) -> Result<(), AllocError>
    requires { AllAreMembers set.now }
    ensures { OnOk result (AddsPlaces spots.old.items spots.new.items (IsUseOfSome workspace.now.graph (known_in workspace.now.findings) set.now)) }
{
    let sought = SoughtMembers {
        set,
        member: name_of_all(workspace, set),
    };
    add_members_everywhere(alloc, spots, workspace, &sought)
}
