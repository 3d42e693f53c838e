//! Finds the uses of fields and methods through the uses of members that a package's finding has. So the package is not read. For a field
//! or method of another package there are no other uses.
ghost use Rattle.std.specs.Prelude.{ℕ, ◌≡◌, ◌↔◌, Contains, Option, List, MatchOption, map, option_map, IsTrue, OnOk};
ghost use Rattle.base_files.specs.Workspace.{Workspace};
ghost use Rattle.go_scope.specs.Named.{name_value};
ghost use Rattle.types_expr.specs.Found.{use_of};
ghost use Rattle.types_expr.specs.View.{type_of};
ghost use Rattle.types_expr.specs.World.{member_by};
ghost use Rattle.types_expr.specs.WorldView.{member_of};
ghost use Rattle.types_declared.specs.Package.{Package as Checked};
ghost use Rattle.workspace_check.specs.Verdicts.{Verdicts};
ghost use Rattle.refs_binding.specs.Binding.{declaration_of, BindsByMember};
ghost use Rattle.refs_binding.specs.Indexed.{IsPackageNumber, IsPackageNumbered};
ghost use Rattle.refs_binding.specs.Members.{definitions_known, member_at, IsMemberUseOf, IsMemberUseAmong};
ghost use Rattle.refs_binding.specs.Packages.{IsSeenBy};
ghost use Rattle.refs_binding.specs.Steps.{AddsPlaces, UsesIn};
ghost use Rattle.refs_binding.specs.Workspaces.{known_in, IsUseAt};
ghost use Rattle.refs_uses.specs.MemberNames.{IsNameFound};
ghost use Rattle.refs_uses.specs.MembersAbroad.{IsKnownOf, IsMemberAbroad};
ghost use Rattle.refs_uses.specs.SoughtMembers.{AllHaveName, IsBoundToSome, IsPlaceOfSome};

use crate::may_use::Sought;
use crate::qualified_abroad::{is_home, spelling_at};
use go_ast::FileTree;
use go_scope::model::Position;
use refs_binding::identifiers::add_place;
use refs_binding::indexed::Numbered;
use refs_binding::member_uses::{KnownTypes, known_member};
use refs_binding::{Declaration, PlaceKey, members_of, own_of, path_of, seen_by, trees};
use std::alloc::{AllocError, Global};
use std::slice::from_ref;
use types_declared::ExportTable;
use types_expr::found::MemberUse;
use types_expr::types::GoType;
use types_expr::world::{Member, Name};

/// What is used of a package that is not read: its trees, the type definitions that it knows, and its uses of members.
#[derive(Clone, Copy)]
pub(crate) struct KnownUses<'a> {
    pub(crate) files: &'a [FileTree],
    pub(crate) types: KnownTypes<'a>,
    pub(crate) members: &'a [Vec<MemberUse>],
}

/// Fields and methods whose uses are listed together. `member` is the name of each of them, if it was found for all.
#[derive(Clone, Copy)]
pub(crate) struct SoughtMembers<'a> {
    pub(crate) set: &'a [Declaration],
    pub(crate) member: Option<&'a [u8]>,
}

/// Whether a member is one of the declarations of a list.
fn is_one_of(set: &[Declaration], member: Member<'_>) -> bool
    ensures { IsTrue result ↔ Contains set.now (declaration_of (member_of member.entry)) }
{
    for declaration in set {
        if declaration.is_of(member) {
            return true;
        }
    }
    false
}

/// Whether the member of the type `before` with this name is one of the declarations of a list.
fn is_member(types: KnownTypes<'_>, spelling: &[u8], before: &GoType, set: &[Declaration]) -> bool
    ensures { IsTrue result ↔ IsBoundToSome set.now (option_map declaration_of (member_by (definitions_known types.entry) types.entry.path.now spelling.now (type_of before.now))) }
{
    let name = Name {
        bound: None,
        spelling,
    };
    let names = [name];
    match known_member(types, names.as_slice(), before) {
        None => false,
        Some(member) => is_one_of(set, member),
    }
}

/// Whether a spelling is this name. With no name, each may be it.
fn may_be(spelling: &[u8], name: Option<&[u8]>) -> bool
    ensures { MatchOption (name_value name.entry) (IsTrue result) (λ n. IsTrue result ↔ (spelling.now ≡ n)) }
{
    match name {
        None => true,
        Some(name) => spelling == name,
    }
}

/// Whether a use of a member is bound to a sought one. Only a member of their name is looked for.
fn is_use(of: &KnownUses<'_>, file: usize, member: &MemberUse, sought: &SoughtMembers<'_>) -> bool
    ensures { (w : Workspace) → (known : Verdicts) → (p : Checked) → IsKnownOf w known p of.now →
        AllHaveName w known sought.now.set.now (name_value sought.now.member) →
        IsTrue result ↔ IsBoundToSome sought.now.set.now (member_at (definitions_known of.now.types) p file member.now.place (type_of member.now.before)) }
{
    let at = Position {
        file,
        index: member.place,
    };
    let spelling = spelling_at(of.files, at);
    may_be(spelling, sought.member) && is_member(of.types, spelling, &member.before, sought.set)
}

/// Adds the place of a use of a member, if it is bound to a sought one.
fn add_use(
    spots: &mut Vec<PlaceKey>,
    of: &KnownUses<'_>,
    file: usize,
    member: &MemberUse,
    sought: &SoughtMembers<'_>,
) -> Result<(), AllocError>
    ensures { OnOk result ((w : Workspace) → (known : Verdicts) → (p : Checked) → IsKnownOf w known p of.now →
        AllHaveName w known sought.now.set.now (name_value sought.now.member) → AddsPlaces spots.old.items spots.new.items (IsPlaceOfSome sought.now.set.now (λ d. IsMemberUseOf (definitions_known of.now.types) p file d (use_of member.now)))) }
{
    if is_use(of, file, member, sought) {
        let at = Position {
            file,
            index: member.place,
        };
        add_place(spots, of.files, at)
    } else {
        Ok(())
    }
}

/// Adds the places of the uses of members in a file that are bound to a sought member.
fn add_file_uses(
    spots: &mut Vec<PlaceKey>,
    of: &KnownUses<'_>,
    file: usize,
    uses: &[MemberUse],
    sought: &SoughtMembers<'_>,
) -> Result<(), AllocError>
    ensures { OnOk result ((w : Workspace) → (known : Verdicts) → (p : Checked) → IsKnownOf w known p of.now →
        AllHaveName w known sought.now.set.now (name_value sought.now.member) → AddsPlaces spots.old.items spots.new.items (IsPlaceOfSome sought.now.set.now (λ d. IsMemberUseAmong (definitions_known of.now.types) p file d (map use_of uses.now)))) }
{
    for k in 0..uses.len() {
        add_use(spots, of, file, &uses[k], sought)?;
    }
    Ok(())
}

/// Adds the places of a package's selectors and composite literal keys that are bound to a sought member.
fn add_known_members(
    spots: &mut Vec<PlaceKey>,
    of: &KnownUses<'_>,
    sought: &SoughtMembers<'_>,
) -> Result<(), AllocError>
    ensures { OnOk result ((w : Workspace) → (known : Verdicts) → (p : Checked) → IsKnownOf w known p of.now →
        AllHaveName w known sought.now.set.now (name_value sought.now.member) → AddsPlaces spots.old.items spots.new.items (IsPlaceOfSome sought.now.set.now (λ d. UsesIn p (λ u. BindsByMember p u d)))) }
{
    for file in 0..of.members.len() {
        add_file_uses(spots, of, file, &of.members[file], sought)?;
    }
    Ok(())
}

/// Adds the places of a package's uses of members that are bound to a sought one, by what the package sees of others.
fn add_members_by(
    spots: &mut Vec<PlaceKey>,
    at: Numbered<'_>,
    seen: &ExportTable,
    sought: &SoughtMembers<'_>,
) -> Result<(), AllocError>
    requires numbered { IsPackageNumber at }
    requires seen { IsSeenBy at.workspace.now.graph (known_in at.workspace.now.findings) at.number seen.now }
    requires named { AllHaveName at.workspace.now.graph (known_in at.workspace.now.findings) sought.now.set.now (name_value sought.now.member) }
    ensures { OnOk result ((p : Checked) → IsPackageNumbered at.entry p → AddsPlaces spots.old.items spots.new.items
        (IsPlaceOfSome sought.now.set.now (λ d. UsesIn p (λ u. BindsByMember p u d)))) }
{
    let types = KnownTypes {
        path: path_of(at.workspace, at.number),
        own: own_of(at.workspace, at.number),
        imported: seen.definitions(),
    };
    let of = KnownUses {
        files: trees(at.workspace, at.number),
        types,
        members: members_of(at.workspace, at.number),
    };
    add_known_members(spots, &of, sought)
}

/// Adds the places of a package's uses of members that are bound to a sought one.
pub(crate) fn add_used_members(
    alloc: Global,
    spots: &mut Vec<PlaceKey>,
    at: Numbered<'_>,
    sought: &SoughtMembers<'_>,
) -> Result<(), AllocError>
    requires numbered { IsPackageNumber at }
    requires named { AllHaveName at.workspace.now.graph (known_in at.workspace.now.findings) sought.now.set.now (name_value sought.now.member) }
    ensures { OnOk result ((p : Checked) → IsPackageNumbered at.entry p → AddsPlaces spots.old.items spots.new.items
        (IsPlaceOfSome sought.now.set.now (λ d. UsesIn p (λ u. BindsByMember p u d)))) }
{
    let seen = seen_by(alloc, at.workspace, at.number)?;
    add_members_by(spots, at, &seen, sought)
}

/// Adds the places of a package's identifiers that are bound to a field or method of another package.
pub(crate) fn add_members_abroad(
    alloc: Global,
    spots: &mut Vec<PlaceKey>,
    at: Numbered<'_>,
    sought: &Sought<'_>,
) -> Result<(), AllocError>
    requires numbered { IsPackageNumber at }
    requires named { IsNameFound at.workspace.now.graph (known_in at.workspace.now.findings) sought.now.declaration.now (name_value sought.now.member) }
    requires abroad { IsMemberAbroad at.workspace.now.graph (known_in at.workspace.now.findings) at.number sought.now.declaration.now }
    ensures { OnOk result ((name : Option (List ℕ)) → AddsPlaces spots.old.items spots.new.items
        (IsUseAt at.entry.workspace.now.graph (known_in at.entry.workspace.now.findings) sought.now.declaration.now name at.entry.number)) }
{
    at.workspace.has_no_faults();
    let one = SoughtMembers {
        set: from_ref(sought.declaration),
        member: sought.member,
    };
    add_used_members(alloc, spots, at, &one)
}

/// Whether a declaration is a field or method of another package than that of the number.
pub(crate) fn is_member_abroad(at: Numbered<'_>, declaration: &Declaration) -> bool
    requires { IsPackageNumber at }
    ensures { IsTrue result → IsMemberAbroad at.entry.workspace.now.graph (known_in at.entry.workspace.now.findings) at.entry.number declaration.now }
{
    match declaration {
        Declaration::Predeclared(_) | Declaration::Declared(_, _) => false,
        Declaration::Field(symbol) => !is_home(at, &symbol.package),
        Declaration::Method(symbol) => !is_home(at, &symbol.package),
    }
}
