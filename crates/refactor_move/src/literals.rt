//! The string literals of imports whose packages move.
ghost use Rattle.std.specs.Prelude.{ℕ, List, IfOk, MatchOption};
ghost use Rattle.go_ast.specs.SourceFile.{source_of};
ghost use Rattle.refactor_move.specs.Steps.{IsNewLiteral};

use crate::moved::Moved;
use crate::quoting::quoted_path;
use base_files::FileText;
use go_ast::FileTree;
use std::alloc::{AllocError, Global};
use types_declared::literal;

/// The new path, in quotes, for the string literal at a token, if the literal stands for the path of a package that moves.
pub(crate) fn new_literal(
    alloc: Global,
    file: &FileTree,
    token: usize,
    moved: &Moved,
) -> Result<Option<FileText>, AllocError>
    ensures { IfOk result (λ text. MatchOption text ((text : List ℕ) → IsNewLiteral (source_of file.now) moved.now token text → ⊥)
        (λ text. IsNewLiteral (source_of file.now) moved.now token text)) }
{
    match literal(alloc, file, token)? {
        None => Ok(None),
        Some(path) => quoted_path(alloc, moved, &path),
    }
}
