//! The string literal of an import without a name, which stands for its declaration.
ghost use Rattle.std.specs.Prelude.{◌≡◌, ◌<◌, ◌↔◌, Some, length, map, slice_get, IsTrue, IfOk};
ghost use Rattle.go_ast.specs.SourceFile.{source_of};
ghost use Rattle.types_declared.specs.PackageView.{package_of};
ghost use Rattle.refs_binding.specs.Indexed.{IsPackageNumbered};
ghost use Rattle.refs_binding.specs.Uses.{IsCheckedPackage};
ghost use Rattle.refs_binding.specs.Workspaces.{home_path, known_in};
ghost use Rattle.refactor_rename.specs.Literals.{IsTokenOf, IsUnnamedImport, IsPathLiteralIn, IsPathLiteralOf, IsLiteralFound};

use crate::renamed::Literal;
use go_ast::FileTree;
use refs_binding::Declaration;
use refs_binding::indexed::Numbered;
use std::alloc::AllocError;
use types_declared::{Package, is_import};

/// Whether a declaration is an import without a name.
fn is_unnamed(unit: Package<'_>, d: usize) -> bool
    requires { d < length unit.table.now.sites }
    ensures { IsTrue result ↔ IsUnnamedImport (package_of unit.entry) d }
{
    is_import(unit.table, d) && types_declared::literal_of(unit.table, d) == d
}

/// The token with this number of a file, or `None` where there is no such file.
fn token_of(files: &[FileTree], file: usize, token: usize) -> Result<Option<Literal>, AllocError>
    ensures { IfOk result (IsLiteralFound (IsTokenOf (slice_get (map source_of files.now) file) token)) }
{
    match files.get(file) {
        None => Ok(None),
        Some(tree) => Ok(Some(Literal {
            path: tree.path().clone()?,
            token,
        })),
    }
}

/// The string literal of a declaration of a package, if it is an import without a name.
fn literal_in(unit: Package<'_>, d: usize) -> Result<Option<Literal>, AllocError>
    ensures { IfOk result (IsLiteralFound (IsPathLiteralIn (package_of unit.entry) d)) }
{
    if d < unit.table.len() && is_unnamed(unit, d) {
        let at = unit.table.place(d);
        token_of(unit.files, at.file, at.index)
    } else {
        Ok(None)
    }
}

/// The string literal of a declaration of the package of a number, if it is an import without a name.
pub fn literal_of(
    at: Numbered<'_>,
    unit: Package<'_>,
    declaration: &Declaration,
) -> Result<Option<Literal>, AllocError>
    requires unit { IsPackageNumbered at (package_of unit) }
    requires home { home_path declaration.now ≡ Some (package_of unit).path }
    ensures { IfOk result (IsLiteralFound (IsPathLiteralOf (IsCheckedPackage at.entry.workspace.now.graph (known_in at.entry.workspace.now.findings)) declaration.now)) }
{
    match declaration {
        Declaration::Declared(_, d) => literal_in(unit, *d),
        Declaration::Predeclared(_) | Declaration::Field(_) | Declaration::Method(_) => Ok(None),
    }
}
