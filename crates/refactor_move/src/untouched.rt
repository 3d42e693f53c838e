//! Files in which a move edits nothing. Their imports and marks tell, so that their tokens aren't gone through.
ghost use Rattle.std.specs.Prelude.{◌≡◌, ◌↔◌, false, IfOk, IsTrue, slice_get};
ghost use Rattle.std.specs.List.{list_any};
ghost use Rattle.go_ast.specs.SourceFile.{source_of};
ghost use Rattle.refactor_move.specs.Uses.{marks_in_row};
ghost use Rattle.refactor_move.specs.Untouched.{HasNoMovedImport, HasNoMarkedName, HasNoMarkedEdit};

use crate::file_edits::MovedFile;
use crate::literals::new_literal;
use crate::moved::Moved;
use go_ast::FileTree;
use std::alloc::{AllocError, Global};
use workspace_graph::read_imports;

/// Whether some import of a file is of a package that moves.
fn imports_moved(alloc: Global, file: &FileTree, moved: &Moved) -> Result<bool, AllocError>
    ensures { IfOk result (λ some. some ≡ false → HasNoMovedImport (source_of file.now) moved.now) }
{
    let imports = read_imports(alloc, file)?;
    for import in &imports {
        let text = new_literal(alloc, file, import.literal, moved)?;
        if text.is_some() {
            return Ok(true);
        }
    }
    Ok(false)
}

/// Whether a file is one of the package that moves.
fn is_of_moved(of: &MovedFile<'_>) -> bool
    ensures { IsTrue result ↔ (of.now.path.now ≡ of.now.moved.now.from) }
{
    of.path.path() == of.moved.from.as_str().as_bytes()
}

/// Whether a token of a file is marked.
fn has_mark(rows: &[Vec<bool>], file: usize) -> bool
    ensures { result ≡ list_any (λ mark. mark) (marks_in_row (slice_get rows.now file)) }
{
    match rows.get(file) {
        None => false,
        Some(row) => row.iter().any(|mark| *mark),
    }
}

/// Whether some name in a file may get the new name of the package that moves.
fn may_rename(of: &MovedFile<'_>) -> bool
    ensures { result ≡ false → HasNoMarkedName of.now.path.now of.now.rank (source_of of.now.file.now) of.now.moved.now of.now.rows.now }
{
    let named = of.moved.name.is_some();
    let own = is_of_moved(of);
    let marked = has_mark(of.rows, of.rank);
    named && (own || marked)
}

/// Whether a file may have edits.
pub(crate) fn may_change(alloc: Global, of: &MovedFile<'_>) -> Result<bool, AllocError>
    ensures { IfOk result (λ may. may ≡ false → HasNoMarkedEdit of.now.path.now of.now.rank (source_of of.now.file.now) of.now.moved.now of.now.rows.now) }
{
    if may_rename(of) {
        return Ok(true);
    }
    imports_moved(alloc, of.file, of.moved)
}
