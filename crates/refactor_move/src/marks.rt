//! Marks the tokens of a file that are string literals of imports.
ghost use Rattle.std.specs.Prelude.{◌≡◌, IfOk};
ghost use Rattle.go_ast.specs.SourceFile.{source_of};
ghost use Rattle.refactor_move.specs.Steps.{NewMarks, IsLiteralAmong, AreMarksOf, AreImportMarks};

use go_ast::FileTree;
use std::alloc::{AllocError, Global};
use workspace_graph::{FileImport, read_imports};

/// Marks a token.
fn mark(marks: &mut Vec<bool>, token: usize)
    ensures { NewMarks marks.old.items marks.new.items (λ i. i ≡ token) }
{
    if token < marks.len() {
        marks[token] = true;
    }
}

/// Marks the string literals of some imports.
fn mark_all(marks: &mut Vec<bool>, imports: &[FileImport])
    ensures { NewMarks marks.old.items marks.new.items (IsLiteralAmong imports.now) }
{
    for import in imports {
        mark(marks, import.literal);
    }
}

/// A list of `count` marks, of which none is set.
fn no_marks(alloc: Global, count: usize) -> Result<Vec<bool>, AllocError>
    ensures { IfOk result (λ marks. AreMarksOf (λ i. ⊥) count marks.items) }
{
    let marks = vec![in alloc; false; count]?;
    Ok(marks)
}

/// The marks of all tokens of a file: set for the string literals of its imports.
pub(crate) fn import_marks(alloc: Global, file: &FileTree) -> Result<Vec<bool>, AllocError>
    ensures { IfOk result (λ marks. AreImportMarks (source_of file.now) marks.items) }
{
    let imports = read_imports(alloc, file)?;
    let tokens = file.pieces().tokens();
    let mut marks = no_marks(alloc, tokens.len())?;
    mark_all(&mut marks, &imports);
    Ok(marks)
}
