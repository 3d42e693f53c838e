//! The places of tokens and identifiers of packages.
ghost use Rattle.std.specs.Prelude.{◌<◌, Some, length, map, option_map, slice_get, IfOk};
ghost use Rattle.base_files.specs.declared.place.Place.{Place as At};
ghost use Rattle.go_ast.specs.SourceFile.{source_of};
ghost use Rattle.types_declared.specs.PackageView.{package_of};
ghost use Rattle.refs_binding.specs.Identifiers.{BeginsAt, NameBegins};
ghost use Rattle.refs_binding.specs.DeclaringPlaces.{TokenBegins};
ghost use Rattle.refs_places.specs.Beginnings.{place_of};
ghost use Rattle.refs_places.specs.DeclaredPlaces.{IsChoice};

use base_files::{Path, Place};
use go_ast::FileTree;
use go_scope::model::Position;
use refs_binding::is_name;
use std::alloc::AllocError;
use types_declared::Package;

/// Returns the place at which a token of a file begins.
fn begin(file: &FileTree, token: usize) -> Result<Place, AllocError>
    ensures { IfOk result (λ place. TokenBegins (Some (source_of file.now)) token place) }
{
    Ok(Place {
        path: file.path().clone()?,
        offset: file.offset(token),
    })
}

/// Returns the place of the token at a position, if the file exists.
pub fn place_of(files: &[FileTree], at: Position) -> Result<Option<Place>, AllocError>
    ensures { IfOk result (IsChoice (TokenBegins (slice_get (map source_of files.now) at.file) at.index)) }
{
    match files.get(at.file) {
        None => Ok(None),
        Some(file) => Ok(Some(begin(file, at.index)?)),
    }
}

/// Returns the place of a token of a file, or `None` if the token is no identifier.
fn name_in(file: &FileTree, token: usize) -> Result<Option<Place>, AllocError>
    ensures { IfOk result (IsChoice (λ (place : At). NameBegins (Some (source_of file.now)) token place.path place.offset)) }
{
    if is_name(file, token) {
        Ok(Some(begin(file, token)?))
    } else {
        Ok(None)
    }
}

/// Returns the place of the token at a position, or `None` if the token is no identifier.
pub fn name_beginning(files: &[FileTree], at: Position) -> Result<Option<Place>, AllocError>
    ensures { IfOk result (IsChoice (λ (place : At). NameBegins (slice_get (map source_of files.now) at.file) at.index place.path place.offset)) }
{
    match files.get(at.file) {
        None => Ok(None),
        Some(file) => name_in(file, at.index),
    }
}

/// Returns the place of the identifier `u`, or `None` for an import's path literal or a predeclared name.
pub fn beginning(unit: Package<'_>, u: usize) -> Result<Option<Place>, AllocError>
    requires { u < length unit.table.now.sites }
    ensures { IfOk result (IsChoice (λ (place : At). BeginsAt (package_of unit.entry) place.path place.offset u)) }
{
    if unit.table.role(u).is_implied() {
        Ok(None)
    } else {
        name_beginning(unit.files, unit.table.place(u))
    }
}

/// A place with a borrowed path: where an identifier begins.
#[derive(Clone, Copy)]
pub struct NameStart<'a> {
    pub path: &'a Path,
    pub offset: usize,
}

/// Returns the borrowed place of a token of a file, or `None` if the token is no identifier.
fn start_in<'a>(file: &'a FileTree, token: usize) -> Option<NameStart<'a>>
    ensures { IsChoice (λ (place : At). NameBegins (Some (source_of file.now)) token place.path place.offset) (option_map place_of result) }
{
    if is_name(file, token) {
        Some(NameStart {
            path: file.path(),
            offset: file.offset(token),
        })
    } else {
        None
    }
}

/// Returns the borrowed place of the token at a position, or `None` if the token is no identifier.
fn start_at<'a>(files: &'a [FileTree], at: Position) -> Option<NameStart<'a>>
    ensures { IsChoice (λ (place : At). NameBegins (slice_get (map source_of files.now) at.file) at.index place.path place.offset) (option_map place_of result) }
{
    match files.get(at.file) {
        None => None,
        Some(file) => start_in(file, at.index),
    }
}

/// Returns the borrowed place of the identifier `u`, or `None` for an import's path literal or a predeclared name.
pub fn start<'a>(unit: Package<'a>, u: usize) -> Option<NameStart<'a>>
    requires { u < length unit.table.now.sites }
    ensures { IsChoice (λ (place : At). BeginsAt (package_of unit.entry) place.path place.offset u) (option_map place_of result) }
{
    if unit.table.role(u).is_implied() {
        None
    } else {
        start_at(unit.files, unit.table.place(u))
    }
}
