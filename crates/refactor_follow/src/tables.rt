//! The names of a package that are bound to an import, without a name, of another package, by the package's scope table.
ghost use Rattle.std.specs.Prelude.{ℕ, ◌≡◌, ◌<◌, ◌↔◌, Some, true, length, slice_index_or, IsTrue, IfOk};
ghost use Rattle.go_scope.specs.Named.{name_value};
ghost use Rattle.go_ast.specs.SourceFile.{source_of};
ghost use Rattle.go_scanner.specs.CutText.{tokens_in};
ghost use Rattle.types_declared.specs.Laid.{literal_of};
ghost use Rattle.types_declared.specs.PackageView.{package_of, IsIndexOf};
ghost use Rattle.types_declared.specs.Written.{DeclaresImport};
ghost use Rattle.refactor_move.specs.FileEdits.{IsImportUse};
ghost use Rattle.refactor_move.specs.Steps.{AreMarksOf};
ghost use Rattle.refactor_follow.specs.MoveReadings.{MarksImportUses, move_from};

use go_ast::FileTree;
use std::alloc::{AllocError, Global};
use types_declared::{Index, Package, literal_of};

/// Whether a path was found and equals this one.
fn is_path(found: Option<&[u8]>, path: &[u8]) -> bool
    ensures { IsTrue result ↔ (name_value found.entry ≡ Some path.now) }
{
    match found {
        None => false,
        Some(other) => other == path,
    }
}

/// Whether a declaration is an import, without a name, of the package at a path.
fn is_import_of(unit: Package<'_>, index: &Index<'_>, path: &[u8], d: usize) -> bool
    requires index { IsIndexOf (package_of unit) index.now }
    requires in_range { d < length unit.table.now.sites }
    ensures { let p = package_of unit.entry in
        IsTrue result ↔ ((literal_of p.layout d ≡ d) × DeclaresImport p d path.now) }
{
    literal_of(unit.table, d) == d && is_path(index.path(unit, d), path)
}

/// Whether the identifier at a token is bound to an import, without a name, of the package at a path.
fn is_import_use(
    unit: Package<'_>,
    index: &Index<'_>,
    rank: usize,
    path: &[u8],
    token: usize,
) -> bool
    requires { IsIndexOf (package_of unit) index.now }
    ensures { IsTrue result ↔ IsImportUse (package_of unit.entry) rank (move_from path.now) token }
{
    match index.binding(unit, rank, token) {
        None => false,
        Some(d) => is_import_of(unit, index, path, d),
    }
}

/// The marks of the tokens of a file: set where the identifier is bound to an import, without a name, of the package at a path.
fn row_by_table(
    alloc: Global,
    unit: Package<'_>,
    index: &Index<'_>,
    rank: usize,
    file: &FileTree,
    path: &[u8],
) -> Result<Vec<bool>, AllocError>
    requires { IsIndexOf (package_of unit) index.now }
    ensures { IfOk result (λ row. AreMarksOf (IsImportUse (package_of unit.entry) rank (move_from path.now)) (length (tokens_in (source_of file.now).cut)) row.items) }
{
    let tokens = file.pieces().tokens();
    let mut row = Vec::new(alloc);
    for token in 0..tokens.len() {
        row.push(is_import_use(unit, index, rank, path, token))?;
    }
    Ok(row)
}

/// The marks of the names of a package that are bound to an import, without a name, of the package at a path.
pub(crate) fn uses_by_table(
    alloc: Global,
    unit: Package<'_>,
    path: &[u8],
) -> Result<Vec<Vec<bool>>, AllocError>
    ensures { IfOk result (λ rows. MarksImportUses (package_of unit.entry) path.now rows.items) }
{
    let index = Index::of(alloc, unit)?;
    let files = unit.files;
    let mut rows = Vec::new(alloc);
    for rank in 0..files.len() {
        let file = &files[rank];
        rows.push(row_by_table(alloc, unit, &index, rank, file, path)?)?;
    }
    Ok(rows)
}
