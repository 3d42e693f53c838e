//! Finds the meaning of each name of a file: by the scopes of its package, or as a qualified identifier.
ghost use Rattle.std.specs.Prelude.{◌≡◌, ◌≤◌, ◌<◌, ◌↔◌, ℕ, [], Some, None, length, slice_get, option_map, IsTrue, IfOk, OnOk};
ghost use Rattle.go_scope.specs.declared.model.Role.TheVariants.{NotLexical};
ghost use Rattle.go_scope.specs.declared.model.Purpose.TheVariants as purpose;
ghost use Rattle.go_scope.specs.Table.{IsFoundAt};
ghost use Rattle.types_expr.specs.WorldView.{bound_of, bound_at};
ghost use Rattle.types_declared.specs.Package.{spelled};
ghost use Rattle.go_scope.specs.ByToken.{numbers_in};
ghost use Rattle.types_info.specs.MeaningsView.{AreMeanings, Extends};
ghost use Rattle.types_info.specs.Worlds.{DenotesExport};
ghost use Rattle.types_declared.specs.WrittenView.{IsOneExport};
ghost use Rattle.types_info.specs.NamesView.{tokens_at, IsNameAfterDot, IsScopeFound, IsPlaced, IsNameAt, AreNames};
ghost use Rattle.types_declared.specs.PackageView.{package_of, IsIndexOf};

use crate::copies::exported_bound;
use crate::meanings::MeaningTable;
use go_scanner::CompactPiece;
use go_scope::model::{Position, Purpose, Role};
use std::alloc::{AllocError, Global};
use types_declared::{Export, Index, Package, export_at};
use types_expr::world::Name;

/// Whether a role is that of a name after a dot.
fn is_selected(role: Role) -> bool
    ensures { IsTrue result ↔ (role ≡ NotLexical purpose.Selected) }
{
    match role {
        Role::NotLexical(Purpose::Selected) => true,
        _ => false,
    }
}

/// Whether the token is a name after a dot.
pub fn is_name_after_dot(pkg: Package<'_>, index: &Index<'_>, file: usize, token: usize) -> bool
    requires { IsIndexOf (package_of pkg) index.now }
    ensures { IsTrue result ↔ IsNameAfterDot (package_of pkg.entry) file token }
{
    match index.identifiers.get(Position { file, index: token }) {
        None => false,
        Some(u) => is_selected(pkg.table.role(u)),
    }
}

/// The export that the name after a dot at a token denotes as the `N` of a qualified identifier `p.N`; none where it denotes none.
fn selected<'a>(
    pkg: Package<'a>,
    index: &Index<'_>,
    file: usize,
    token: usize,
) -> Option<&'a Export>
    requires index { IsIndexOf (package_of pkg) index.now }
    requires after_dot { IsNameAfterDot (package_of pkg) file token }
    ensures { IsOneExport (DenotesExport (package_of pkg.entry) file token) result }
{
    if token < 2 {
        None
    } else {
        export_at(pkg, index, file, token - 2, token)
    }
}

/// The index of the meaning of the name after a dot at a token. The meaning of a qualified identifier is appended to the list.
fn selected_place(
    alloc: Global,
    pkg: Package<'_>,
    index: &Index<'_>,
    bounds: &mut MeaningTable,
    file: usize,
    token: usize,
) -> Result<Option<usize>, AllocError>
    requires index { IsIndexOf (package_of pkg) index.now }
    requires after_dot { IsNameAfterDot (package_of pkg) file token }
    ensures placed { IfOk result (λ place. IsPlaced (package_of pkg.entry) file token bounds.new.list.items place) }
    ensures extends { OnOk result (Extends bounds.old.list.items bounds.new.list.items) }
    ensures same { OnOk result (bounds.new.of.items ≡ bounds.old.of.items) }
{
    match selected(pkg, index, file, token) {
        None => Ok(None),
        Some(export) => {
            let bound = exported_bound(alloc, &export.meaning)?;
            Ok(Some(bounds.add(bound)?))
        }
    }
}

/// The index of the meaning of the declaration to which scopes bind the identifier `u`, which stands at a token; none where there is none.
fn scope_place(pkg: Package<'_>, bounds: &MeaningTable, at: Position, u: usize) -> Option<usize>
    requires bounds { AreMeanings (package_of pkg) bounds.now.list.items bounds.now.of.items }
    requires found { IsFoundAt (package_of pkg).layout (package_of pkg).size at u }
    ensures found { IsScopeFound (package_of pkg.entry) at.file at.index (option_map bound_of (bound_at bounds.now.list.items result)) }
    ensures within { (i : ℕ) → result ≡ Some i → i < length bounds.now.list.items }
{
    go_scope::laws::bindings_are_unique();
    pkg.table.is_well_formed();
    match pkg.table.binding(u) {
        None => None,
        Some(d) => bounds.get(d),
    }
}

/// The index of the meaning of the identifier `u`, which stands at a token. The meaning of a qualified identifier is appended to the list.
fn identifier_place(
    alloc: Global,
    pkg: Package<'_>,
    index: &Index<'_>,
    bounds: &mut MeaningTable,
    at: Position,
    u: usize,
) -> Result<Option<usize>, AllocError>
    requires index { IsIndexOf (package_of pkg) index.now }
    requires bounds { AreMeanings (package_of pkg) bounds.old.list.items bounds.old.of.items }
    requires found { IsFoundAt (package_of pkg).layout (package_of pkg).size at u }
    ensures placed { IfOk result (λ place. IsPlaced (package_of pkg.entry) at.file at.index bounds.new.list.items place) }
    ensures extends { OnOk result (Extends bounds.old.list.items bounds.new.list.items) }
    ensures same { OnOk result (bounds.new.of.items ≡ bounds.old.of.items) }
{
    if is_selected(pkg.table.role(u)) {
        selected_place(alloc, pkg, index, bounds, at.file, at.index)
    } else {
        Ok(scope_place(pkg, bounds, at, u))
    }
}

/// The index of the meaning of the name at a token. The meaning of a qualified identifier is appended to the list.
fn place_at(
    alloc: Global,
    pkg: Package<'_>,
    index: &Index<'_>,
    bounds: &mut MeaningTable,
    file: usize,
    token: usize,
) -> Result<Option<usize>, AllocError>
    requires index { IsIndexOf (package_of pkg) index.now }
    requires bounds { AreMeanings (package_of pkg) bounds.old.list.items bounds.old.of.items }
    ensures placed { IfOk result (λ place. IsPlaced (package_of pkg.entry) file token bounds.new.list.items place) }
    ensures extends { OnOk result (Extends bounds.old.list.items bounds.new.list.items) }
    ensures same { OnOk result (bounds.new.of.items ≡ bounds.old.of.items) }
{
    let at = Position { file, index: token };
    match index.identifiers.get(at) {
        None => Ok(None),
        Some(u) => identifier_place(alloc, pkg, index, bounds, at, u),
    }
}

/// The name at a token: its spelling and the index of its meaning.
fn name_at<'a>(
    alloc: Global,
    pkg: Package<'a>,
    index: &Index<'_>,
    bounds: &mut MeaningTable,
    file: usize,
    token: usize,
) -> Result<Name<'a>, AllocError>
    requires index { IsIndexOf (package_of pkg) index.now }
    requires bounds { AreMeanings (package_of pkg) bounds.old.list.items bounds.old.of.items }
    ensures named { IfOk result (λ name. IsNameAt (package_of pkg.entry) file token bounds.new.list.items name) }
    ensures extends { OnOk result (Extends bounds.old.list.items bounds.new.list.items) }
    ensures same { OnOk result (bounds.new.of.items ≡ bounds.old.of.items) }
{
    let bound = place_at(alloc, pkg, index, bounds, file, token)?;
    Ok(Name {
        bound,
        spelling: pkg.spelling(file, token),
    })
}

/// The tokens of a file; none where the package has no such file.
fn tokens_of<'a>(pkg: Package<'a>, file: usize) -> &'a [CompactPiece]
    ensures { result.now ≡ tokens_at (slice_get (package_of pkg.entry).files file) }
{
    match pkg.files.get(file) {
        None => &[],
        Some(tree) => tree.pieces().tokens(),
    }
}

/// The number of tokens of a file.
fn spelled_tokens(pkg: Package<'_>, file: usize) -> usize
    ensures { (token : ℕ) → result ≤ token → spelled (package_of pkg.entry) file token ≡ [] }
{
    tokens_of(pkg, file).len()
}

/// A number of tokens of a file after which no identifier comes.
fn token_count(pkg: Package<'_>, index: &Index<'_>, file: usize) -> usize
    ensures spelled { (token : ℕ) → result ≤ token → spelled (package_of pkg.entry) file token ≡ [] }
    ensures identified { (token : ℕ) → result ≤ token → numbers_in index.now.identifiers.now file token ≡ None }
{
    let spelled = spelled_tokens(pkg, file);
    let identified = index.identifiers.width(file);
    if spelled < identified {
        identified
    } else {
        spelled
    }
}

/// Returns the names of a file, one for each token. The meanings of qualified identifiers are appended to `bounds`.
pub fn file_names<'a>(
    alloc: Global,
    pkg: Package<'a>,
    index: &Index<'_>,
    bounds: &mut MeaningTable,
    file: usize,
) -> Result<Vec<Name<'a>>, AllocError>
    requires index { IsIndexOf (package_of pkg) index.now }
    requires bounds { AreMeanings (package_of pkg) bounds.old.list.items bounds.old.of.items }
    ensures named { IfOk result (λ names. AreNames (package_of pkg.entry) file bounds.new.list.items names.items) }
    ensures bounds { OnOk result (AreMeanings (package_of pkg.entry) bounds.new.list.items bounds.new.of.items) }
{
    let tokens = tokens_of(pkg, file);
    let mut names = Vec::with_capacity(alloc, tokens.len())?;
    for token in 0..token_count(pkg, index, file) {
        names.push(name_at(alloc, pkg, index, bounds, file, token)?)?;
    }
    Ok(names)
}
