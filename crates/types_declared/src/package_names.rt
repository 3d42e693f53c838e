//! Builds the scope table of a package in which each import without a name declares the name of the imported package.
ghost use Rattle.std.specs.Prelude.{ℕ, List, Option, ◌≡◌, ◌<◌, true, IfOk, map};
ghost use Rattle.go_ast.specs.SourceFile.{source_of};
ghost use Rattle.go_scope.specs.Named.{is_unnamed_import, name_value, name_given};
ghost use Rattle.types_declared.specs.Laid.{laid_in};
ghost use Rattle.types_declared.specs.PackageNames.{IsPackageName, ArePackageNames, IsLaidOver};

use crate::paths::path_among;
use go_ast::FileTree;
use go_scope::identifiers::Identifiers;
use go_scope::named::name_imports;
use go_scope::table::ScopeTable;
use std::alloc::{AllocError, Global};

/// The names of packages, by path.
pub trait PackageNames {
    /// The name of the package at a path; none where it isn't known.
    ghost name_of: { Self → (path : List ℕ) → Option (List ℕ) };

    /// The name of the package at a path; none where it isn't known.
    fn name(&self, path: &[u8]) -> Option<&[u8]>
        ensures { name_value result ≡ name_of self.now path.now };
}

/// The name of the package that the import `u` imports; none where it isn't known or `u` has no path.
fn name_at<'a, N: PackageNames>(
    alloc: Global,
    plain: &Identifiers<'_>,
    files: &[FileTree],
    packages: &'a N,
    u: usize,
) -> Result<Option<&'a [u8]>, AllocError>
    requires { u < (laid_in plain.now).size }
    ensures { IfOk result (λ name. IsPackageName (map source_of files.now) (N.name_of packages.now) (laid_in plain.now) u (name_value name)) }
{
    go_scanner::laws::one_string_value();
    match path_among(alloc, plain, files, u)? {
        None => Ok(None),
        Some(path) => Ok(packages.name(&path)),
    }
}

/// The name of the package that the import `u` imports, if `u` is an import without a name; none otherwise.
fn package_name<'a, N: PackageNames>(
    alloc: Global,
    plain: &Identifiers<'_>,
    files: &[FileTree],
    packages: &'a N,
    u: usize,
) -> Result<Option<&'a [u8]>, AllocError>
    requires { u < (laid_in plain.now).size }
    ensures { IfOk result (λ name. is_unnamed_import ((laid_in plain.now).layout.role u) ≡ true →
        IsPackageName (map source_of files.now) (N.name_of packages.now) (laid_in plain.now) u (name_value name)) }
{
    if plain.role(u).is_unnamed_import() {
        name_at(alloc, plain, files, packages, u)
    } else {
        Ok(None)
    }
}

/// Returns for each identifier that is an import without a name the name of the imported package, by number.
fn package_names<'a, N: PackageNames>(
    alloc: Global,
    plain: &Identifiers<'_>,
    files: &[FileTree],
    packages: &'a N,
) -> Result<Vec<Option<&'a [u8]>>, AllocError>
    ensures { IfOk result (λ names. ArePackageNames (map source_of files.now) (N.name_of packages.now) (laid_in plain.now) (name_given names.items)) }
{
    let mut names = Vec::with_capacity(alloc, plain.len())?;
    for u in 0..plain.len() {
        names.push(package_name(alloc, plain, files, packages, u)?)?;
    }
    Ok(names)
}

/// Builds the scope table of a package in which each import without a name declares the name of the imported package. An import stays as it
/// is where the name of its package isn't known.
pub fn lay_names<'a, N: PackageNames>(
    alloc: Global,
    plain: Identifiers<'a>,
    files: &[FileTree],
    packages: &'a N,
) -> Result<ScopeTable<'a>, AllocError>
    ensures { IfOk result (λ laid. IsLaidOver (map source_of files.now) (N.name_of packages.now) plain.entry laid) }
{
    let names = package_names(alloc, &plain, files, packages)?;
    name_imports(alloc, plain, &names)
}
