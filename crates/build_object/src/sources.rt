//! Makes the source of the code of a file, from the scopes of its package and from what checking found.
ghost use Rattle.std.specs.Prelude.{◌≡◌, ◌<◌, ◌↔◌, ℕ, List, Some, codes, length, map, option_map, slice_get, IfOk, IsTrue, MatchOption};
ghost use Rattle.go_ast.specs.SourceFile.{source_of as plain_file};
ghost use Rattle.types_declared.specs.PackageView.{package_of, IsIndexOf};
ghost use Rattle.types_declared.specs.Written.{BindsToken, IsPredeclared};
ghost use Rattle.types_declared.specs.Written.{DeclaresImport};
ghost use Rattle.build_object.specs.LineView.{global_of};
ghost use Rattle.build_object.specs.ObjectSteps.{list_of_file};
ghost use Rattle.build_object.specs.Sources.{HasQualifier, DenotesGlobal};
ghost use Rattle.build_object.specs.TablesView.{AreNameMarks, AreTexts, IsMarkAt, IsTabledSource};

use crate::instructions::GlobalName;
use crate::names::asked_in_file;
use crate::numbered::NumberedPlaces;
use crate::origin::Origin;
use crate::source::{Mark, NamedMethod, Source};
use go_ast::FileTree;
use go_scope::model::Block;
use std::alloc::{AllocError, Global};
use types_declared::{Index, Package};
use types_expr::found::{Entering, MemberUse};
use types_expr::world::World;
use types_info::is_name_after_dot;

/// The values of the string literals of a file, by their tokens.
fn texts(alloc: Global, file: &FileTree) -> Result<Vec<Option<Vec<u8>>>, AllocError>
    ensures { IfOk result (λ texts. AreTexts (plain_file file.now) texts.items) }
{
    let mut texts = Vec::new(alloc);
    for token in 0..file.pieces().tokens().len() {
        texts.push(types_declared::literal(alloc, file, token)?)?;
    }
    Ok(texts)
}

/// The tokens of uses of members.
fn used(alloc: Global, uses: &[MemberUse]) -> Result<NumberedPlaces, AllocError>
    ensures { IfOk result (λ used. used.places.items ≡ map (λ u. u.place) uses.now) }
{
    let mut places = Vec::new(alloc);
    for next in uses {
        places.push(next.place)?;
    }
    NumberedPlaces::of(alloc, places)
}

/// The tokens at which values enter interfaces.
fn entered(alloc: Global, enterings: &[Entering]) -> Result<NumberedPlaces, AllocError>
    ensures { IfOk result (λ entered. entered.places.items ≡ map (λ e. e.place) enterings.now) }
{
    let mut places = Vec::new(alloc);
    for next in enterings {
        places.push(next.place)?;
    }
    NumberedPlaces::of(alloc, places)
}

/// The tokens of the names of methods that interfaces ask for.
fn asked_at(alloc: Global, asked: &[NamedMethod<'_>]) -> Result<NumberedPlaces, AllocError>
    ensures { IfOk result (λ at. at.places.items ≡ map (λ a. a.place) asked.now) }
{
    let mut places = Vec::new(alloc);
    for next in asked {
        places.push(next.place)?;
    }
    NumberedPlaces::of(alloc, places)
}

/// The path of the import to which the name at a token is bound.
fn import_at<'i>(
    unit: Package<'_>,
    index: &'i Index<'_>,
    file: usize,
    token: usize,
) -> Option<&'i [u8]>
    requires { IsIndexOf (package_of unit) index.now }
    ensures { MatchOption result ((d : ℕ) (path : List ℕ) → BindsToken (package_of unit.entry) file token d → DeclaresImport (package_of unit.entry) d path → ⊥)
        (λ path. (d : ℕ) × (BindsToken (package_of unit.entry) file token d × DeclaresImport (package_of unit.entry) d path.now)) }
{
    match index.binding(unit, file, token) {
        None => None,
        Some(d) => index.path(unit, d),
    }
}

/// The path of the import before the selector at a token, if this stands in a qualified identifier.
fn qualifier<'i>(
    unit: Package<'_>,
    index: &'i Index<'_>,
    file: usize,
    token: usize,
) -> Option<&'i [u8]>
    requires { IsIndexOf (package_of unit) index.now }
    ensures { MatchOption result ((path : List ℕ) → HasQualifier (package_of unit.entry) file token path → ⊥) (λ path. HasQualifier (package_of unit.entry) file token path.now) }
{
    if token < 2 {
        return None;
    }
    if is_name_after_dot(unit, index, file, token) {
        import_at(unit, index, file, token - 2)
    } else {
        None
    }
}

/// Whether a declaration is the predeclared `true`.
fn is_true(unit: Package<'_>, d: usize) -> bool
    requires { d < length unit.table.now.sites }
    ensures { IsTrue result ↔ IsPredeclared (package_of unit.entry) d (codes "true") }
{
    let role = unit.table.role(d);
    role.is_implied()
        && role.block().same(Block::Universe)
        && unit.table.name(d) == b"true".as_slice()
}

/// The package-level declaration of the package itself to which the name at a token is bound, where it is bound to `d`.
fn own_global<'a>(unit: Package<'a>, file: usize, token: usize, d: usize) -> Option<GlobalName<'a>>
    requires in_range { d < length unit.table.now.sites }
    requires bound { BindsToken (package_of unit) file token d }
    requires only { (e : ℕ) → BindsToken (package_of unit) file token e → e ≡ d }
    ensures { DenotesGlobal (package_of unit.entry) file token (option_map global_of result) }
{
    let is_own = unit.table.role(d).block().same(Block::Package);
    if is_own {
        Some(GlobalName {
            path: unit.path.path(),
            name: unit.spelling(file, token),
        })
    } else {
        None
    }
}

/// The package-level declaration of an imported package to which the name at a token is bound. The name has no declaration in its own
/// package.
fn imported_global<'a>(
    unit: Package<'a>,
    index: &'a Index<'_>,
    file: usize,
    token: usize,
) -> Option<GlobalName<'a>>
    requires index { IsIndexOf (package_of unit) index.now }
    requires unbound { (d : ℕ) → BindsToken (package_of unit) file token d → ⊥ }
    ensures { DenotesGlobal (package_of unit.entry) file token (option_map global_of result) }
{
    match qualifier(unit, index, file, token) {
        None => None,
        Some(path) => Some(GlobalName {
            path,
            name: unit.spelling(file, token),
        }),
    }
}

/// The mark of the name at a token.
fn mark_at<'a>(unit: Package<'a>, index: &'a Index<'_>, file: usize, token: usize) -> Mark<'a>
    requires { IsIndexOf (package_of unit) index.now }
    ensures { IsMarkAt (package_of unit.entry) file token (Some result) }
{
    match index.binding(unit, file, token) {
        None => Mark {
            global: imported_global(unit, index, file, token),
            truth: false,
        },
        Some(d) => Mark {
            global: own_global(unit, file, token, d),
            truth: is_true(unit, d),
        },
    }
}

/// The marks of the names of a file, by their tokens.
fn marks<'a>(
    alloc: Global,
    unit: Package<'a>,
    index: &'a Index<'_>,
    file: usize,
) -> Result<Vec<Mark<'a>>, AllocError>
    requires { IsIndexOf (package_of unit) index.now }
    ensures { IfOk result (λ marks. AreNameMarks (package_of unit.entry) file marks.items) }
{
    let mut marks = Vec::new(alloc);
    for token in 0..index.identifiers.width(file) {
        marks.push(mark_at(unit, index, file, token))?;
    }
    Ok(marks)
}

/// The list of a file, and none where it is unknown.
fn list_at<T>(lists: &[Vec<T>], file: usize) -> &[T]
    ensures { result.now ≡ list_of_file (slice_get lists.now file) }
{
    match lists.get(file) {
        None => &[],
        Some(list) => list,
    }
}

/// Makes the source of the code of a file.
pub fn source<'a>(
    alloc: Global,
    origin: Origin<'a>,
    world: World<'a>,
    file: usize,
) -> Result<Source<'a>, AllocError>
    requires index { IsIndexOf (package_of origin.unit) origin.index.now }
    requires in_range { file < length origin.unit.files.now }
    ensures { IfOk result (λ s. IsTabledSource (package_of origin.entry.unit) file world.entry (list_of_file (slice_get origin.entry.members.now file)) (list_of_file (slice_get origin.entry.enterings.now file)) origin.entry.packages.now s) }
{
    let uses = list_at(origin.members, file);
    let enterings = list_at(origin.enterings, file);
    let unit = origin.unit;
    let files = unit.files;
    let types = origin.index.declared.types.as_slice();
    let asked = asked_in_file(alloc, unit.path.path(), files, types, file)?;
    let asked_at = asked_at(alloc, &asked)?;
    let marks = marks(alloc, unit, origin.index, file)?;
    let texts = texts(alloc, &files[file])?;
    let used = used(alloc, uses)?;
    let entered = entered(alloc, enterings)?;
    Ok(Source {
        world,
        uses,
        used,
        enterings,
        entered,
        asked,
        asked_at,
        marks,
        texts,
        packages: origin.packages,
    })
}
