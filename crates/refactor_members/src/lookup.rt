//! Looks up the members that have the new name of a rename: by the old definitions, and the renamed members.
ghost use Rattle.std.specs.Prelude.{ℕ, ◌≡◌, ◌↔◌, Contains, IsTrue, MatchOption, Some, IfOk, option_map, slice_get};
ghost use Rattle.std.specs.Option.{option_copied};
ghost use Rattle.base_edits.specs.EditSet.{FileChanges};
ghost use Rattle.base_files.specs.Packages.{package_paths};
ghost use Rattle.types_expr.specs.View.{type_of};
ghost use Rattle.types_expr.specs.World.{owner, field_owner, is_seen, struct_of};
ghost use Rattle.types_expr.specs.WorldView.{definition_of, definition_or_none, underlying_in, underlying_of};
ghost use Rattle.types_declared.specs.Laid.{is_exported};
ghost use Rattle.types_declared.specs.Package.{Package as Checked};
ghost use Rattle.refs_binding.specs.DeclaringPlaces.{InPackage};
ghost use Rattle.refs_binding.specs.Members.{AreOwnDefinitions};
ghost use Rattle.refs_binding.specs.Steps.{IsDeclarationResult};
ghost use Rattle.refs_binding.specs.declared.declaration.Declaration.TheVariants.{Field, Method};
ghost use Rattle.refactor_conflict.specs.NamesAfter.{IsMethodAfter};
ghost use Rattle.refactor_conflict.specs.MembersAfter.{HasFieldAfter, IsFieldIn, IsFirst, IsFirstField, IsFirstMethod, IsMemberAfter, IsMethodIn};
ghost use Rattle.refactor_conflict.specs.MembersFound.{IsRankFound, IsStructFound, SelectsField, SelectsMethod};
ghost use Rattle.refactor_members.specs.Renames.{by, KnowsRename, IsFieldOfNewName, IsMethodNamed, packages_before, rename_revision, workspace_before};
ghost use Rattle.refactor_members.specs.Naming.{HasField, HasMethod, IsFirstOld, IsOwnField, IsOwnMethod, IsRenamedField, IsRenamedMethod, lesser_rank};

use crate::member_rename::{MemberRename, RenamedMember};
use crate::ranks::is_rank;
use refs_binding::{Declaration, own_of};
use std::alloc::AllocError;
use types_declared::is_exported;
use types_expr::symbol::{SharedPath, Symbol};
use types_expr::types::GoType;
use types_expr::world::{Definition, Shape, Underlying, World};

/// The type definitions of the package of a symbol.
fn definitions_beside<'b>(m: &MemberRename<'b>, of: &Symbol) -> Option<&'b [Definition]>
    ensures own { MatchOption result (Contains (package_paths (workspace_before m.now)) of.now.package → ⊥)
        (λ own. (p : Checked) → packages_before m.now p → p.path ≡ of.now.package → AreOwnDefinitions p own.now) }
    ensures there { MatchOption result (Unit {0}) (λ own. Contains (package_paths (workspace_before m.now)) of.now.package) }
{
    match m.workspace.number_of(of.package.path()) {
        None => None,
        Some(number) => Some(own_of(m.workspace, number)),
    }
}

/// The rank of the field that a type definition has under a name.
fn field_named(definition: &Definition, name: &[u8]) -> Option<usize>
    ensures { result ≡ option_map (λ f. f.symbol.rank) ((definition_of definition.now).field name.now) }
{
    match definition.fields.get(name) {
        None => None,
        Some(field) => Some(field.symbol.rank),
    }
}

/// The rank of the method that a type definition has under a name.
fn method_named(definition: &Definition, name: &[u8]) -> Option<usize>
    ensures { result ≡ option_map (λ x. x.symbol.rank) ((definition_of definition.now).method name.now) }
{
    match definition.methods.get(name) {
        None => None,
        Some(method) => Some(method.symbol.rank),
    }
}

/// The rank of the field that the type definition of a symbol has under a name, by the definitions of its package.
fn field_among(own: &[Definition], of: &Symbol, name: &[u8]) -> Option<usize>
    ensures { result ≡ option_map (λ f. f.symbol.rank) ((definition_or_none of.now (slice_get own.now of.now.rank)).field name.now) }
{
    match own.get(of.rank) {
        None => None,
        Some(definition) => field_named(definition, name),
    }
}

/// The rank of the method that the type definition of a symbol has under a name, by the definitions of its package.
fn method_among(own: &[Definition], of: &Symbol, name: &[u8]) -> Option<usize>
    ensures { result ≡ option_map (λ x. x.symbol.rank) ((definition_or_none of.now (slice_get own.now of.now.rank)).method name.now) }
{
    match own.get(of.rank) {
        None => None,
        Some(definition) => method_named(definition, name),
    }
}

/// The rank of the field of a struct that had the new name before.
pub(crate) fn old_field(m: &MemberRename<'_>, of: &Symbol) -> Option<usize>
    ensures old { (p : Checked) → packages_before m.now p → p.path ≡ of.now.package → IsFirstOld (HasField p of.now.rank m.now.name.now) result }
    ensures there { MatchOption result (Unit {0}) (λ rank. Contains (package_paths (workspace_before m.now)) of.now.package) }
{
    m.workspace.has_no_faults();
    match definitions_beside(m, of) {
        None => None,
        Some(own) => field_among(own, of, m.name),
    }
}

/// The rank of the method of a type definition that had the new name before.
pub(crate) fn old_method(m: &MemberRename<'_>, of: &Symbol) -> Option<usize>
    ensures old { (p : Checked) → packages_before m.now p → p.path ≡ of.now.package → IsFirstOld (HasMethod p of.now.rank m.now.name.now) result }
    ensures there { MatchOption result (Unit {0}) (λ rank. Contains (package_paths (workspace_before m.now)) of.now.package) }
{
    m.workspace.has_no_faults();
    match definitions_beside(m, of) {
        None => None,
        Some(own) => method_among(own, of, m.name),
    }
}

/// Whether a renamed member, which has the symbol `symbol`, belongs to a type definition.
fn is_own(member: &RenamedMember<'_>, of: &Symbol, symbol: &Symbol) -> bool
    ensures { IsTrue result ↔ ((member.now.definition ≡ Some of.now.rank) × (symbol.now.package ≡ of.now.package)) }
{
    is_rank(member.definition, of.rank) && symbol.package.path() == of.package.path()
}

/// The rank of a renamed member, if it is a field of the struct that a type definition writes.
fn own_field(member: &RenamedMember<'_>, of: &Symbol) -> Option<usize>
    ensures { IsRankFound (IsOwnField of.now member.now) result }
{
    match member.declaration {
        Declaration::Field(symbol) => if is_own(member, of, symbol) {
            Some(symbol.rank)
        } else {
            None
        },
        Declaration::Predeclared(_) | Declaration::Declared(_, _) | Declaration::Method(_) => None,
    }
}

/// The rank of a renamed member, if it is a method of a type definition.
fn own_renamed_method(member: &RenamedMember<'_>, of: &Symbol) -> Option<usize>
    ensures { IsRankFound (IsOwnMethod of.now member.now) result }
{
    match member.declaration {
        Declaration::Method(symbol) => if is_own(member, of, symbol) {
            Some(symbol.rank)
        } else {
            None
        },
        Declaration::Predeclared(_) | Declaration::Declared(_, _) | Declaration::Field(_) => None,
    }
}

/// The rank of the first renamed member that is a field of the struct that a type definition writes.
pub(crate) fn renamed_field(m: &MemberRename<'_>, of: &Symbol) -> Option<usize>
    ensures { IsRankFound (IsRenamedField m.now of.now) result }
{
    for member in m.members {
        let own = own_field(member, of);
        if own.is_some() {
            return own;
        }
    }
    None
}

/// The rank of the first renamed member that is a method of a type definition.
pub(crate) fn renamed_method(m: &MemberRename<'_>, of: &Symbol) -> Option<usize>
    ensures { IsRankFound (IsRenamedMethod m.now of.now) result }
{
    for member in m.members {
        let own = own_renamed_method(member, of);
        if own.is_some() {
            return own;
        }
    }
    None
}

/// The lesser of two ranks, where there are any.
fn earlier(a: Option<usize>, b: Option<usize>) -> Option<usize>
    ensures { result ≡ lesser_rank a b }
{
    match (a, b) {
        (None, _) => b,
        (Some(_), None) => a,
        (Some(m), Some(n)) => { if m <= n { a } else { b } }
    }
}

/// The rank of the first field of a struct that has the new name.
pub(crate) fn first_field(m: &MemberRename<'_>, of: &Symbol) -> Option<usize>
    ensures { (s : FileChanges) → KnowsRename (by m.now s) → IsRankFound (λ rank. InPackage (packages_before m.now) of.now.package (λ p. IsFirstField (rename_revision (by m.now s)) p of.now.rank m.now.name.now rank)) result }
{
    m.workspace.has_no_faults();
    earlier(old_field(m, of), renamed_field(m, of))
}

/// The rank of the first method of a type definition that has the new name.
fn own_method(m: &MemberRename<'_>, of: &Symbol) -> Option<usize>
    ensures { (s : FileChanges) → KnowsRename (by m.now s) → IsRankFound (λ rank. InPackage (packages_before m.now) of.now.package (λ p. IsFirst (IsMethodAfter (rename_revision (by m.now s)) p of.now.rank m.now.name.now) rank)) result }
{
    m.workspace.has_no_faults();
    earlier(old_method(m, of), renamed_method(m, of))
}

/// Whether the new name selects members that the package of a symbol declares, where it is written in the package at the path `own`: it is
/// exported, or written in that package.
fn is_seen_from(m: &MemberRename<'_>, own: &[u8], of: &Symbol) -> bool
    ensures { result ≡ is_seen own.now of.now (is_exported m.now.name.now) }
{
    is_exported(m.name) || own == of.package.path()
}

/// The rank of the field of a struct that the new name selects, written in the package at the path `own`.
fn field(m: &MemberRename<'_>, own: &[u8], of: &Symbol) -> Option<usize>
    ensures { (s : FileChanges) → KnowsRename (by m.now s) → IsRankFound (IsFieldIn (packages_before m.now) (rename_revision (by m.now s)) own.now m.now.name.now of.now) result }
{
    if is_seen_from(m, own, of) {
        first_field(m, of)
    } else {
        None
    }
}

/// The struct that an underlying type is, if it is one.
#[tactic(auto, unfolding(types_expr::specs::WorldView::underlying_of))]
fn struct_in(underlying: &Underlying) -> Option<&Symbol>
    ensures { option_copied result ≡ struct_of (underlying_of underlying.now) }
{
    match underlying {
        Underlying::Struct(symbol) => Some(symbol),
        _ => None,
    }
}

/// The struct that is the underlying type of a type definition, by the definitions of its package. A rank beyond these is that of a struct
/// itself.
fn struct_among<'b>(own: &'b [Definition], of: &'b Symbol) -> Option<&'b Symbol>
    ensures { option_copied result ≡ struct_of (definition_or_none of.now (slice_get own.now of.now.rank)).underlying }
{
    match own.get(of.rank) {
        None => Some(of),
        Some(definition) => struct_in(&definition.underlying),
    }
}

/// The struct that is the underlying type of a type definition.
fn struct_of<'b>(m: &'b MemberRename<'b>, of: &'b Symbol) -> Option<&'b Symbol>
    ensures { (p : Checked) → packages_before m.now p → p.path ≡ of.now.package → IsStructFound p of.now.rank (option_copied result) }
{
    match definitions_beside(m, of) {
        None => None,
        Some(own) => struct_among(own, of),
    }
}

/// Whether the values of a type definition have a field of the new name.
fn has_field(m: &MemberRename<'_>, of: &Symbol) -> bool
    ensures { (s : FileChanges) → KnowsRename (by m.now s) → (p : Checked) → packages_before m.now p → p.path ≡ of.now.package → IsTrue result ↔ HasFieldAfter (packages_before m.now) (rename_revision (by m.now s)) p of.now.rank m.now.name.now }
{
    match struct_of(m, of) {
        None => false,
        Some(symbol) => field(m, of.package.path(), symbol).is_some(),
    }
}

/// The rank of the first method of a type definition that has the new name, if no field has it.
pub(crate) fn first_method(m: &MemberRename<'_>, of: &Symbol) -> Option<usize>
    ensures { (s : FileChanges) → KnowsRename (by m.now s) → IsRankFound (λ rank. InPackage (packages_before m.now) of.now.package (λ p. IsFirstMethod (packages_before m.now) (rename_revision (by m.now s)) p of.now.rank m.now.name.now rank)) result }
{
    if has_field(m, of) {
        None
    } else {
        own_method(m, of)
    }
}

/// The rank of the method of a type definition that the new name selects, written in the package at the path `own`.
fn method(m: &MemberRename<'_>, own: &[u8], of: &Symbol) -> Option<usize>
    ensures { (s : FileChanges) → KnowsRename (by m.now s) → IsRankFound (IsMethodIn (packages_before m.now) (rename_revision (by m.now s)) own.now m.now.name.now of.now) result }
{
    if is_seen_from(m, own, of) {
        first_method(m, of)
    } else {
        None
    }
}

/// The definition whose written members the values of a type have: that of its struct or interface, or that of the struct to which it points.
#[tactic(auto, unfolding(types_expr::specs::View::type_of, types_expr::specs::WorldView::shape_of, types_expr::specs::World::field_owner))]
fn field_owner<'b>(world: &'b World<'_>, of: &'b GoType) -> Option<&'b Symbol>
    ensures { option_copied result ≡ field_owner (underlying_in world.now) (type_of of.now) }
{
    match world.underlying(of) {
        Shape::Struct(symbol) | Shape::Interface(symbol) => Some(symbol),
        Shape::PointerTo(target) => match world.underlying(target) {
            Shape::Struct(symbol) => Some(symbol),
            _ => None,
        },
        _ => None,
    }
}

/// The type definition whose methods the values of a type have.
#[tactic(auto, unfolding(types_expr::specs::View::type_of, types_expr::specs::World::owner))]
fn owner(of: &GoType) -> Option<&Symbol>
    ensures { option_copied result ≡ owner (type_of of.now) }
{
    match of {
        GoType::Defined(symbol) => Some(symbol),
        GoType::Pointer(target) => match &**target {
            GoType::Defined(symbol) => Some(symbol),
            _ => None,
        },
        _ => None,
    }
}

/// The symbol of a rank in the package at a path.
pub(crate) fn symbol(path: &SharedPath, rank: usize) -> Result<Symbol, AllocError>
    ensures { IfOk result (λ s. s ≡ record { «package» = path.now; rank = rank }) }
{
    let package = path.clone()?;
    Ok(Symbol { package, rank })
}

/// The field of this rank in the package of a struct, if there is a rank.
fn field_of(of: &Symbol, rank: Option<usize>) -> Result<Option<Declaration>, AllocError>
    ensures { IfOk result (λ found. found ≡ option_map (λ n. Field (record { «package» = of.now.package; rank = n })) rank) }
{
    match rank {
        None => Ok(None),
        Some(rank) => Ok(Some(Declaration::Field(symbol(&of.package, rank)?))),
    }
}

/// The method of this rank in the package of a type definition, if there is a rank.
fn method_of(of: &Symbol, rank: Option<usize>) -> Result<Option<Declaration>, AllocError>
    ensures { IfOk result (λ found. found ≡ option_map (λ n. Method (record { «package» = of.now.package; rank = n })) rank) }
{
    match rank {
        None => Ok(None),
        Some(rank) => Ok(Some(Declaration::Method(symbol(&of.package, rank)?))),
    }
}

/// The field that the new name selects in the struct of a type.
fn field_behind(
    m: &MemberRename<'_>,
    own: &[u8],
    world: &World<'_>,
    before: &GoType,
) -> Result<Option<Declaration>, AllocError>
    ensures { IfOk result (λ found. (s : FileChanges) → KnowsRename (by m.now s) → IsDeclarationResult (SelectsField (packages_before m.now) (rename_revision (by m.now s)) own.now m.now.name.now (underlying_in world.now) (type_of before.now)) found) }
{
    match field_owner(world, before) {
        None => Ok(None),
        Some(of) => field_of(of, field(m, own, of)),
    }
}

/// The method that the new name selects for the type definition of a type.
fn method_behind(
    m: &MemberRename<'_>,
    own: &[u8],
    before: &GoType,
) -> Result<Option<Declaration>, AllocError>
    ensures { IfOk result (λ found. (s : FileChanges) → KnowsRename (by m.now s) → IsDeclarationResult (SelectsMethod (packages_before m.now) (rename_revision (by m.now s)) own.now m.now.name.now (type_of before.now)) found) }
{
    match owner(before) {
        None => Ok(None),
        Some(of) => method_of(of, method(m, own, of)),
    }
}

/// The member that the new name, written in the package at the path `own`, selects for a type: a field of its struct, or else a method of its
/// type definition.
pub(crate) fn member(
    m: &MemberRename<'_>,
    own: &[u8],
    world: &World<'_>,
    before: &GoType,
) -> Result<Option<Declaration>, AllocError>
    ensures { IfOk result (λ found. (s : FileChanges) → KnowsRename (by m.now s) → IsDeclarationResult (IsMemberAfter (packages_before m.now) (rename_revision (by m.now s)) own.now m.now.name.now (underlying_in world.now) (type_of before.now)) found) }
{
    match field_behind(m, own, world, before)? {
        None => method_behind(m, own, before),
        Some(field) => Ok(Some(field)),
    }
}
