//! Finds the member that a selector or a composite literal key names.
ghost use Rattle.std.specs.Prelude.{◌≡◌, ◌<◌, Some, [], length, map, slice_get, IfOk};
ghost use Rattle.types_expr.specs.Found.{use_of};
ghost use Rattle.types_info.specs.MemberUses.{AreMemberUses, uses_in};
ghost use Rattle.types_declared.specs.PackageView.{package_of};
ghost use Rattle.refs_binding.specs.Binding.{BindsByMember};
ghost use Rattle.refs_binding.specs.Steps.{IsDeclarationResult};
ghost use Rattle.refs_binding.specs.Members.{definitions_seen, uses_or_none, IsMemberIf, IsMemberIn, AreOwnDefinitions};

use refs_binding::{Declaration, member_declaration};
use std::alloc::AllocError;
use types_declared::Package;
use types_expr::found::MemberUse;
use types_expr::world::Definition;
use types_info::has_one_world;

/// Returns the declaration of a use of a member, if the use is at this token.
fn declaration_if(
    unit: Package<'_>,
    own: &[Definition],
    file: usize,
    found: &MemberUse,
    token: usize,
) -> Result<Option<Declaration>, AllocError>
    ensures { IfOk result (IsDeclarationResult (IsMemberIf (definitions_seen unit.entry own.now) (package_of unit.entry) file token (use_of found.now))) }
{
    if found.place == token {
        member_declaration(unit, own, file, found)
    } else {
        Ok(None)
    }
}

/// Returns the declaration of the use of a member at a token, among the uses of its file.
fn declaration_among(
    unit: Package<'_>,
    own: &[Definition],
    file: usize,
    uses: &[MemberUse],
    token: usize,
) -> Result<Option<Declaration>, AllocError>
    ensures { IfOk result (IsDeclarationResult (IsMemberIn (definitions_seen unit.entry own.now) (package_of unit.entry) file (map use_of uses.now) token)) }
{
    for k in 0..uses.len() {
        match declaration_if(unit, own, file, &uses[k], token)? {
            None => {}
            Some(declaration) => return Ok(Some(declaration)),
        }
    }
    Ok(None)
}

/// Returns the uses of members in a file.
fn uses_of(members: &[Vec<MemberUse>], file: usize) -> &[MemberUse]
    ensures { result.now ≡ uses_or_none (slice_get members.now file) }
{
    match members.get(file) {
        None => &[],
        Some(uses) => uses,
    }
}

/// Returns the field or method that `u` names as a selector or a composite literal key.
pub fn declaration_by_member(
    unit: Package<'_>,
    own: &[Definition],
    members: &[Vec<MemberUse>],
    u: usize,
) -> Result<Option<Declaration>, AllocError>
    requires own { AreOwnDefinitions (package_of unit) own.now }
    requires members { AreMemberUses (package_of unit) (map uses_in members.now) }
    requires in_range { u < length unit.table.now.sites }
    ensures { IfOk result (IsDeclarationResult (BindsByMember (package_of unit.entry) u)) }
{
    unit.table.is_well_formed();
    has_one_world(unit);
    let at = unit.table.place(u);
    declaration_among(unit, own, at.file, uses_of(members, at.file), at.index)
}
