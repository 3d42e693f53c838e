//! Finds the uses of a field or method: selectors and composite literal keys.
ghost use Rattle.std.specs.Prelude.{◌≡◌, ◌↔◌, Some, map, IsTrue, OnOk};
ghost use Rattle.types_expr.specs.Found.{use_of};
ghost use Rattle.types_expr.specs.View.{type_of};
ghost use Rattle.types_declared.specs.PackageView.{package_of};
ghost use Rattle.refs_binding.specs.Binding.{BindsByMember};
ghost use Rattle.refs_binding.specs.Indexed.{IsIndexed};
ghost use Rattle.refs_binding.specs.Steps.{AddsPlaces, UsesIn};
ghost use Rattle.refs_binding.specs.Members.{definitions_seen, member_at, IsMemberUseOf, IsMemberUseAmong};

use go_scope::model::Position;
use refs_binding::identifiers::add_token;
use refs_binding::indexed::Indexed;
use refs_binding::member_uses::member;
use refs_binding::{Declaration, PlaceKey};
use std::alloc::AllocError;
use types_declared::Package;
use types_expr::found::MemberUse;
use types_expr::world::{Definition, Name};
use types_info::has_one_world;

/// Whether a use of a member is bound to this declaration.
fn is_member_use(
    unit: Package<'_>,
    own: &[Definition],
    file: usize,
    found: &MemberUse,
    declaration: &Declaration,
) -> bool
    ensures { IsTrue result ↔ (member_at (definitions_seen unit.entry own.now) (package_of unit.entry) file found.now.place (type_of found.now.before) ≡ Some declaration.now) }
{
    let name = Name {
        bound: None,
        spelling: unit.spelling(file, found.place),
    };
    let names = [name];
    match member(unit, own, names.as_slice(), &found.before) {
        None => false,
        Some(member) => declaration.is_of(member),
    }
}

/// Adds the place of a use of a member, if it is bound to this declaration.
fn add_member_use(
    found: &mut Vec<PlaceKey>,
    of: &Indexed<'_>,
    file: usize,
    member: &MemberUse,
    declaration: &Declaration,
) -> Result<(), AllocError>
    requires { IsIndexed of.now }
    ensures { OnOk result (AddsPlaces found.old.items found.new.items (IsMemberUseOf (definitions_seen of.now.unit of.now.own.now) (package_of of.now.unit) file declaration.now (use_of member.now))) }
{
    if is_member_use(of.unit, of.own, file, member, declaration) {
        let at = Position {
            file,
            index: member.place,
        };
        add_token(found, of.unit, of.index, at)
    } else {
        Ok(())
    }
}

/// Adds the places of the uses of members in a file that are bound to this declaration.
fn add_file_members(
    found: &mut Vec<PlaceKey>,
    of: &Indexed<'_>,
    file: usize,
    uses: &[MemberUse],
    declaration: &Declaration,
) -> Result<(), AllocError>
    requires { IsIndexed of.now }
    ensures { OnOk result (AddsPlaces found.old.items found.new.items (IsMemberUseAmong (definitions_seen of.now.unit of.now.own.now) (package_of of.now.unit) file declaration.now (map use_of uses.now))) }
{
    for k in 0..uses.len() {
        add_member_use(found, of, file, &uses[k], declaration)?;
    }
    Ok(())
}

/// Adds the places of a package's selectors and composite literal keys that are bound to this field or method.
fn add_all_members(
    found: &mut Vec<PlaceKey>,
    of: &Indexed<'_>,
    declaration: &Declaration,
) -> Result<(), AllocError>
    requires { IsIndexed of.now }
    ensures { let p = package_of of.now.unit in
        OnOk result (AddsPlaces found.old.items found.new.items (UsesIn p (λ u. BindsByMember p u declaration.now))) }
{
    of.unit.table.is_well_formed();
    has_one_world(of.unit);
    for file in 0..of.members.len() {
        add_file_members(found, of, file, &of.members[file], declaration)?;
    }
    Ok(())
}

/// Adds the places of a package's selectors and composite literal keys that are bound to this declaration. Adds nothing unless it is a
/// field or method.
pub(crate) fn add_member_uses(
    found: &mut Vec<PlaceKey>,
    of: &Indexed<'_>,
    declaration: &Declaration,
) -> Result<(), AllocError>
    requires { IsIndexed of.now }
    ensures { let p = package_of of.now.unit in
        OnOk result (AddsPlaces found.old.items found.new.items (UsesIn p (λ u. BindsByMember p u declaration.now))) }
{
    match declaration {
        Declaration::Predeclared(_) | Declaration::Declared(_, _) => Ok(()),
        Declaration::Field(_) | Declaration::Method(_) => add_all_members(found, of, declaration),
    }
}
