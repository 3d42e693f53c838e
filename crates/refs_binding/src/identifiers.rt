//! Lists the places at which identifiers of a package begin.
ghost use Rattle.std.specs.Prelude.{◌≡◌, ◌<◌, ◌↔◌, Some, length, slice_get, map, IsTrue, OnOk};
ghost use Rattle.go_scanner.specs.declared.piece.Class.TheVariants.{Name};
ghost use Rattle.go_scanner.specs.CutText.{tokens_in};
ghost use Rattle.go_ast.specs.SourceFile.{source_of};
ghost use Rattle.types_declared.specs.PackageView.{package_of, IsIndexOf};
ghost use Rattle.refs_binding.specs.Identifiers.{IsNameToken, BeginsAt, NameBegins};
ghost use Rattle.refs_binding.specs.Steps.{AddsPlaces, AtToken};

use crate::place_key::PlaceKey;
use go_ast::FileTree;
use go_scanner::{Class, CompactPiece};
use go_scope::model::Position;
use std::alloc::AllocError;
use types_declared::{Index, Package};

/// Whether the class of a token is that of an identifier.
fn is_name_class(class: Class) -> bool
    ensures { IsTrue result ↔ (class ≡ Name) }
{
    match class {
        Class::Name => true,
        _ => false,
    }
}

/// Whether the token at an index is an identifier.
fn is_name_at(tokens: &[CompactPiece], token: usize) -> bool
    ensures { IsTrue result ↔ IsNameToken (slice_get tokens.now token) }
{
    match tokens.get(token) {
        None => false,
        Some(piece) => is_name_class(piece.class()),
    }
}

/// Whether the token at an index of a file is an identifier.
pub fn is_name(file: &FileTree, token: usize) -> bool
    ensures { IsTrue result ↔ IsNameToken (slice_get (tokens_in file.now.cut) token) }
{
    is_name_at(file.pieces().tokens(), token)
}

/// Adds the place of a token of a file, if the token is an identifier.
fn add_name(found: &mut Vec<PlaceKey>, file: &FileTree, token: usize) -> Result<(), AllocError>
    ensures { OnOk result (AddsPlaces found.old.items found.new.items (λ place. NameBegins (Some (source_of file.now)) token place.path place.offset)) }
{
    if is_name(file, token) {
        let path = file.path().clone()?;
        let offset = file.offset(token);
        found.push(PlaceKey { path, offset })?;
    }
    Ok(())
}

/// Adds the place of the token at a position, if the token is an identifier.
pub fn add_place(
    found: &mut Vec<PlaceKey>,
    files: &[FileTree],
    at: Position,
) -> Result<(), AllocError>
    ensures { OnOk result (AddsPlaces found.old.items found.new.items (λ place. NameBegins (slice_get (map source_of files.now) at.file) at.index place.path place.offset)) }
{
    if at.file < files.len() {
        add_name(found, &files[at.file], at.index)
    } else {
        Ok(())
    }
}

/// Adds the place of the identifier `u`. Adds nothing for an import's path literal or a predeclared name.
pub fn add_identifier(
    found: &mut Vec<PlaceKey>,
    unit: Package<'_>,
    u: usize,
) -> Result<(), AllocError>
    requires { u < length unit.table.now.sites }
    ensures { OnOk result (AddsPlaces found.old.items found.new.items (λ place. BeginsAt (package_of unit.entry) place.path place.offset u)) }
{
    if unit.table.role(u).is_implied() {
        return Ok(());
    }
    add_place(found, unit.files, unit.table.place(u))
}

/// Adds the place of the token at a position, if the package has an identifier there.
pub fn add_token(
    found: &mut Vec<PlaceKey>,
    unit: Package<'_>,
    index: &Index<'_>,
    at: Position,
) -> Result<(), AllocError>
    requires { IsIndexOf (package_of unit) index.now }
    ensures { OnOk result (AddsPlaces found.old.items found.new.items (AtToken (package_of unit.entry) at)) }
{
    match index.identifiers.get(at) {
        None => Ok(()),
        Some(_) => add_place(found, unit.files, at),
    }
}
