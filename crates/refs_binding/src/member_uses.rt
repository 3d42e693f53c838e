//! Finds the members that selectors and composite literal keys are bound to.
ghost use Rattle.std.specs.Prelude.{◌≡◌, Some, [], option_map, slice_get, IfOk};
ghost use Rattle.types_expr.specs.View.{type_of};
ghost use Rattle.types_expr.specs.World.{member_by};
ghost use Rattle.types_expr.specs.WorldView.{member_of, token_spelling};
ghost use Rattle.types_declared.specs.PackageView.{package_of};
ghost use Rattle.refs_binding.specs.Members.{definitions_known, definitions_seen, member_at};

use crate::declaration::Declaration;
use std::alloc::AllocError;
use types_declared::Package;
use types_expr::found::MemberUse;
use types_expr::symbol::SharedPath;
use types_expr::types::GoType;
use types_expr::world::{Definition, Definitions, Member, Name, World};

/// The type definitions that a package knows: its own, and those that it sees of other packages.
#[derive(Clone, Copy)]
pub struct KnownTypes<'w> {
    pub path: &'w SharedPath,
    pub own: &'w [Definition],
    pub imported: &'w Definitions,
}

/// Returns the member of the type `before` that has the first name of `names`, by known type definitions.
#[tactic(auto, unfolding(types_expr::specs::WorldView::member_in, types_expr::specs::WorldView::definition_in, types_expr::specs::WorldView::definition_at))]
pub fn known_member<'w>(
    types: KnownTypes<'w>,
    names: &'w [Name<'w>],
    before: &GoType,
) -> Option<Member<'w>>
    ensures { option_map member_of result ≡ member_by (definitions_known types.entry) types.entry.path.now (token_spelling (slice_get names.now 0)) (type_of before.now) }
{
    let world = World {
        package: types.path,
        names,
        bounds: &[],
        own: types.own,
        imported: types.imported,
    };
    world.member(0, before)
}

/// Returns the member of the type `before` that has the first name of `names`, as the package `unit` sees it.
pub fn member<'w>(
    unit: Package<'w>,
    own: &'w [Definition],
    names: &'w [Name<'w>],
    before: &GoType,
) -> Option<Member<'w>>
    ensures { option_map member_of result ≡ member_by (definitions_seen unit.entry own.now) unit.entry.path.now (token_spelling (slice_get names.now 0)) (type_of before.now) }
{
    let types = KnownTypes {
        path: unit.path,
        own,
        imported: unit.export_table.definitions(),
    };
    known_member(types, names, before)
}

/// Returns the declaration of a used member, if the type before it has such a member.
pub fn member_declaration(
    unit: Package<'_>,
    own: &[Definition],
    file: usize,
    found: &MemberUse,
) -> Result<Option<Declaration>, AllocError>
    ensures { IfOk result (λ d. d ≡ member_at (definitions_seen unit.entry own.now) (package_of unit.entry) file found.now.place (type_of found.now.before)) }
{
    let name = Name {
        bound: None,
        spelling: unit.spelling(file, found.place),
    };
    let names = [name];
    match member(unit, own, names.as_slice(), &found.before) {
        None => Ok(None),
        Some(member) => Ok(Some(Declaration::of(member)?)),
    }
}
