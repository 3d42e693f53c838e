//! The package clauses and string literals of a package's files.
ghost use Rattle.std.specs.Prelude.{◌≡◌, ℕ, List, IfOk, MatchOption};
ghost use Rattle.go_ast.specs.SourceFile.{source_of};
ghost use Rattle.types_declared.specs.Files.{clause_name, HasLiteral};

use go_ast::FileTree;
use std::alloc::{AllocError, Global};

/// The value of the string literal at a token; none where the token is no string literal.
pub fn literal(alloc: Global, file: &FileTree, token: usize) -> Result<Option<Vec<u8>>, AllocError>
    ensures { IfOk result (λ value. MatchOption value ((v : List ℕ) → HasLiteral (source_of file.now) token v → ⊥) (λ v. HasLiteral (source_of file.now) token v.items)) }
{
    let pieces = file.pieces();
    if token < pieces.tokens().len() {
        pieces.string_value(alloc, token)
    } else {
        Ok(None)
    }
}

/// The token of the name in a file's package clause.
#[tactic(auto, unfolding(go_ast::specs::FileView::file_view))]
pub fn clause_token(file: &FileTree) -> usize
    ensures { result ≡ (source_of file.now).tree.name }
{
    file.file().name as usize
}

/// The name in a file's package clause.
pub fn clause_name(file: &FileTree) -> &[u8]
    ensures { result.now ≡ clause_name (source_of file.now) }
{
    file.spelling(clause_token(file))
}
