//! A package to check, and the index of its declarations, identifiers and import paths, built once before its types are resolved.
ghost use Rattle.std.specs.Prelude.{◌≡◌, ◌<◌, ℕ, List, length, slice_get, IfOk, MatchOption};
ghost use Rattle.go_scope.specs.Named.{name_value};
ghost use Rattle.types_declared.specs.Package.{spelled};
ghost use Rattle.types_declared.specs.MeaningOf.{DeclaresVariable, DeclaresFunction};
ghost use Rattle.types_declared.specs.Written.{BindsToken, DeclaresType, DeclaresImport};
ghost use Rattle.types_declared.specs.PackageView.{package_of, path_in, IsIndexOf, ArePaths};

use crate::declared::Declared;
use crate::export_tables::ExportTable;
use crate::ranks::Ranks;
use crate::{is_import, path_of};
use go_ast::FileTree;
use go_scope::by_token::ByToken;
use go_scope::model::Position;
use go_scope::table::ScopeTable;
use std::alloc::{AllocError, Global};
use types_expr::symbol::SharedPath;

/// A package to check, with the export data of the packages that it imports. In `table` each import without a name declares the name of the
/// imported package.
#[derive(Clone, Copy)]
pub struct Package<'a> {
    pub path: &'a SharedPath,
    pub files: &'a [FileTree],
    pub table: &'a ScopeTable<'a>,
    pub export_table: &'a ExportTable,
}

/// The index of a package: its declarations with their ranks, the identifier at each token, and the path of each import by the number of
/// its declaration. The identifiers are those of the package's scope table.
#[derive(Drop)]
pub struct Index<'a> {
    pub declared: Declared<'a>,
    pub ranks: Ranks,
    pub identifiers: &'a ByToken,
    pub paths: Vec<Option<Vec<u8>>>,
}

/// Returns the path of the import that the identifier `d` declares; none where it declares no import.
fn import_path(alloc: Global, pkg: Package<'_>, d: usize) -> Result<Option<Vec<u8>>, AllocError>
    requires { d < length pkg.table.now.sites }
    ensures { IfOk result (λ path. MatchOption path ((v : List ℕ) → DeclaresImport (package_of pkg.entry) d v → ⊥) (λ v. DeclaresImport (package_of pkg.entry) d v.items)) }
{
    if is_import(pkg.table, d) {
        path_of(alloc, pkg.table, pkg.files, d)
    } else {
        Ok(None)
    }
}

/// Returns the path of each import, by the number of its declaring identifier.
fn import_paths(alloc: Global, pkg: Package<'_>) -> Result<Vec<Option<Vec<u8>>>, AllocError>
    ensures { IfOk result (λ paths. ArePaths (package_of pkg.entry) (length pkg.entry.table.now.sites) paths.items) }
{
    let mut paths = Vec::with_capacity(alloc, pkg.table.len())?;
    for d in 0..pkg.table.len() {
        paths.push(import_path(alloc, pkg, d)?)?;
    }
    Ok(paths)
}

/// The path at index `d` of a list of paths; none where `d` is out of range or declares no import.
fn path_at(paths: &[Option<Vec<u8>>], d: usize) -> Option<&[u8]>
    ensures { name_value result ≡ path_in (slice_get paths.now d) }
{
    match paths.get(d) {
        None => None,
        Some(None) => None,
        Some(Some(path)) => Some(path),
    }
}

impl<'a> Package<'a> {
    /// The spelling of a token; empty where the package has no such file or token.
    pub fn spelling(self, file: usize, token: usize) -> &'a [u8]
        ensures { result.now ≡ spelled (package_of self.entry) file token }
    {
        match self.files.get(file) {
            None => &[],
            Some(tree) => tree.spelling(token),
        }
    }
}

impl<'a> Index<'a> {
    /// Builds the index of a package.
    pub fn of(alloc: Global, pkg: Package<'a>) -> Result<Index<'a>, AllocError>
        ensures { IfOk result (λ index. IsIndexOf (package_of pkg.entry) index) }
    {
        let declared = Declared::of(alloc, pkg.files)?;
        let ranks = Ranks::of(alloc, pkg.table, &declared)?;
        Ok(Index {
            declared,
            ranks,
            identifiers: pkg.table.numbers(),
            paths: import_paths(alloc, pkg)?,
        })
    }

    /// The declaration to which the identifier at a token is bound; none where no identifier stands there or it is unbound.
    pub fn binding(&self, pkg: Package<'_>, file: usize, token: usize) -> Option<usize>
        requires { IsIndexOf (package_of pkg) self.now }
        ensures bound { MatchOption result ((d : ℕ) → BindsToken (package_of pkg.entry) file token d → ⊥) (λ d. BindsToken (package_of pkg.entry) file token d) }
        ensures only { MatchOption result (Unit {0}) (λ d. (e : ℕ) → BindsToken (package_of pkg.entry) file token e → e ≡ d) }
        ensures in_range { MatchOption result (Unit {0}) (λ d. d < length pkg.entry.table.now.sites) }
    {
        go_scope::laws::bindings_are_unique();
        pkg.table.is_well_formed();
        match self.identifiers.get(Position { file, index: token }) {
            None => None,
            Some(u) => pkg.table.binding(u),
        }
    }

    /// The rank of the package-level variable that `d` declares; none where it declares none.
    pub fn variable(&self, pkg: Package<'_>, d: usize) -> Option<usize>
        requires index { IsIndexOf (package_of pkg) self.now }
        requires in_range { d < length pkg.table.now.sites }
        ensures { MatchOption result ((r : ℕ) → DeclaresVariable (package_of pkg.entry) d r → ⊥) (λ r. DeclaresVariable (package_of pkg.entry) d r) }
    {
        self.ranks.variable(d)
    }

    /// The rank of the function or method that `d` declares; none where it declares none.
    pub fn function(&self, pkg: Package<'_>, d: usize) -> Option<usize>
        requires index { IsIndexOf (package_of pkg) self.now }
        requires in_range { d < length pkg.table.now.sites }
        ensures { MatchOption result ((r : ℕ) → DeclaresFunction (package_of pkg.entry) d r → ⊥) (λ r. DeclaresFunction (package_of pkg.entry) d r) }
    {
        self.ranks.function(d)
    }

    /// The rank of the type definition that `d` declares; none where it declares none.
    pub fn definition(&self, pkg: Package<'_>, d: usize) -> Option<usize>
        requires index { IsIndexOf (package_of pkg) self.now }
        requires in_range { d < length pkg.table.now.sites }
        ensures { MatchOption result ((r : ℕ) → DeclaresType (package_of pkg.entry) d r → ⊥) (λ r. DeclaresType (package_of pkg.entry) d r) }
    {
        self.ranks.definition(d)
    }

    /// The path of the import that `d` declares; none where it declares none.
    pub fn path(&self, pkg: Package<'_>, d: usize) -> Option<&[u8]>
        requires index { IsIndexOf (package_of pkg) self.now }
        requires in_range { d < length pkg.table.now.sites }
        ensures { MatchOption result ((v : List ℕ) → DeclaresImport (package_of pkg.entry) d v → ⊥)
            (λ v. DeclaresImport (package_of pkg.entry) d v.now × ((other : List ℕ) → DeclaresImport (package_of pkg.entry) d other → other ≡ v.now)) }
    {
        go_scanner::laws::one_string_value();
        path_at(&self.paths, d)
    }
}
