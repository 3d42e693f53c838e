//! Finds the uses of another package's declaration through the qualified identifiers that a package's finding has. So the package is not
//! read.
ghost use Rattle.std.specs.Prelude.{ℕ, ◌≡◌, ◌↔◌, map, slice_get, IsTrue, OnOk};
ghost use Rattle.go_ast.specs.SourceFile.{source_of};
ghost use Rattle.go_scope.specs.Named.{name_value};
ghost use Rattle.types_declared.specs.Package.{Package as Checked, spelled_at};
ghost use Rattle.types_info.specs.Lists.{list_path as path_under};
ghost use Rattle.refs_binding.specs.declared.declaration.Declaration.TheVariants.{Declared};
ghost use Rattle.refs_binding.specs.Indexed.{IsPackageNumber};
ghost use Rattle.refs_binding.specs.Steps.{AddsPlaces};
ghost use Rattle.refs_binding.specs.Workspaces.{known_in, IsPackageAt, IsUseAt};
ghost use Rattle.refs_uses.specs.Abroad.{IsAbroad, IsPathAbroad, IsSpelledAt, IsSpelledAmong, IsSpelledUnder, IsSpelledListed, IsQualifiedUseOf};

use go_ast::FileTree;
use go_scope::model::Position;
use refs_binding::identifiers::add_place;
use refs_binding::indexed::Numbered;
use refs_binding::{Declaration, PlaceKey, path_of, qualified_of, trees};
use std::alloc::AllocError;
use types_expr::symbol::SharedPath;
use types_info::Qualified;

/// Returns the spelling of the token at a position.
pub(crate) fn spelling_at(files: &[FileTree], at: Position) -> &[u8]
    ensures { result.now ≡ spelled_at (slice_get (map source_of files.now) at.file) at.index }
{
    match files.get(at.file) {
        None => &[],
        Some(tree) => tree.spelling(at.index),
    }
}

/// Whether the token at a position has this spelling.
pub(crate) fn is_spelled(files: &[FileTree], at: Position, name: &[u8]) -> bool
    ensures { IsTrue result ↔ (spelled_at (slice_get (map source_of files.now) at.file) at.index ≡ name.now) }
{
    spelling_at(files, at) == name
}

/// Adds the place of the token at a position, if it is an identifier with this name.
fn add_spelled(
    spots: &mut Vec<PlaceKey>,
    files: &[FileTree],
    name: &[u8],
    at: Position,
) -> Result<(), AllocError>
    ensures { OnOk result (AddsPlaces spots.old.items spots.new.items (IsSpelledAt (map source_of files.now) name.now at)) }
{
    if is_spelled(files, at, name) {
        add_place(spots, files, at)
    } else {
        Ok(())
    }
}

/// Adds the places of the tokens at some positions that are identifiers with this name.
fn add_all_spelled(
    spots: &mut Vec<PlaceKey>,
    files: &[FileTree],
    name: &[u8],
    places: &[Position],
) -> Result<(), AllocError>
    ensures { OnOk result (AddsPlaces spots.old.items spots.new.items (IsSpelledAmong (map source_of files.now) name.now places.now)) }
{
    for k in 0..places.len() {
        add_spelled(spots, files, name, places[k])?;
    }
    Ok(())
}

/// Whether a list of qualified identifiers is that of a path.
fn is_of_path(list: &Qualified, path: &[u8]) -> bool
    ensures { IsTrue result ↔ (path_under list.now ≡ path.now) }
{
    list.path.as_slice() == path
}

/// Adds the places of the qualified identifiers of a list with this name, if the list is that of the path.
fn add_listed(
    spots: &mut Vec<PlaceKey>,
    files: &[FileTree],
    name: &[u8],
    path: &[u8],
    list: &Qualified,
) -> Result<(), AllocError>
    ensures { OnOk result (AddsPlaces spots.old.items spots.new.items (IsSpelledUnder (map source_of files.now) name.now path.now list.now)) }
{
    if is_of_path(list, path) {
        add_all_spelled(spots, files, name, &list.places)
    } else {
        Ok(())
    }
}

/// Adds the places of the qualified identifiers with this name that are listed under a path.
fn add_all_listed(
    spots: &mut Vec<PlaceKey>,
    files: &[FileTree],
    name: &[u8],
    path: &[u8],
    lists: &[Qualified],
) -> Result<(), AllocError>
    ensures { OnOk result (AddsPlaces spots.old.items spots.new.items (IsSpelledListed (map source_of files.now) name.now path.now lists.now)) }
{
    for k in 0..lists.len() {
        add_listed(spots, files, name, path, &lists[k])?;
    }
    Ok(())
}

/// Adds the place of each `N` in a qualified identifier `q.N` of a package, where `q` names the package of `path` and `N` is `name`.
fn add_behind(
    spots: &mut Vec<PlaceKey>,
    at: Numbered<'_>,
    path: &[u8],
    name: &[u8],
) -> Result<(), AllocError>
    requires { IsPackageNumber at }
    ensures { OnOk result (AddsPlaces spots.old.items spots.new.items (IsQualifiedUseOf at.entry.workspace.now.graph (known_in at.entry.workspace.now.findings) at.entry.number path.now name.now)) }
{
    at.workspace.has_no_faults();
    let files = trees(at.workspace, at.number);
    let lists = qualified_of(at.workspace, at.number);
    add_all_listed(spots, files, name, path, lists)
}

/// Adds the places of a package's identifiers that are bound to a declaration in a scope of another package. `path` is that package, and
/// `name` is the name under which it exports the declaration, if it does.
pub(crate) fn add_abroad(
    spots: &mut Vec<PlaceKey>,
    at: Numbered<'_>,
    path: &SharedPath,
    name: Option<&[u8]>,
) -> Result<(), AllocError>
    requires numbered { IsPackageNumber at }
    requires abroad { IsAbroad at.workspace.now.graph (known_in at.workspace.now.findings) at.number path.now }
    ensures { OnOk result ((d : ℕ) → AddsPlaces spots.old.items spots.new.items
        (IsUseAt at.entry.workspace.now.graph (known_in at.entry.workspace.now.findings) (Declared path.now d) (name_value name.entry) at.entry.number)) }
{
    match name {
        None => Ok(()),
        Some(name) => add_behind(spots, at, path.path(), name),
    }
}

/// Whether two paths are equal.
fn is_same(own: &SharedPath, path: &SharedPath) -> bool
    ensures { IsTrue result ↔ (own.now ≡ path.now) }
{
    own.path() == path.path()
}

/// Whether the package of a number has this path.
pub(crate) fn is_home(at: Numbered<'_>, path: &SharedPath) -> bool
    requires { IsPackageNumber at }
    ensures { (p : Checked) → IsPackageAt at.entry.workspace.now.graph (known_in at.entry.workspace.now.findings) at.entry.number p → IsTrue result ↔ (p.path ≡ path.now) }
{
    is_same(path_of(at.workspace, at.number), path)
}

/// Returns the path of a declaration's package, if the declaration is in a scope of another package than that of the number.
pub(crate) fn path_abroad<'a>(
    at: Numbered<'_>,
    declaration: &'a Declaration,
) -> Option<&'a SharedPath>
    requires { IsPackageNumber at }
    ensures { IsPathAbroad at.entry.workspace.now.graph (known_in at.entry.workspace.now.findings) at.entry.number declaration.now result }
{
    match declaration {
        Declaration::Declared(path, _) => { if is_home(at, path) { None } else { Some(path) } }
        Declaration::Predeclared(_) | Declaration::Field(_) | Declaration::Method(_) => None,
    }
}
