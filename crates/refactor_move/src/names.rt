//! The names that refer to the package that moves, by their marks.
ghost use Rattle.std.specs.Prelude.{◌≡◌, ◌↔◌, IsTrue};
ghost use Rattle.go_ast.specs.SourceFile.{source_of};
ghost use Rattle.refactor_move.specs.Uses.{IsRenamedToken, mark_at};

use crate::file_edits::MovedFile;
use go_ast::FileTree;
use types_declared::clause_token;

/// Whether a token of a file is marked.
pub fn is_marked(rows: &[Vec<bool>], file: usize, token: usize) -> bool
    ensures { result ≡ mark_at rows.now file token }
{
    match rows.get(file) {
        None => false,
        Some(row) => match row.get(token) {
            None => false,
            Some(mark) => *mark,
        },
    }
}

/// Whether a token is the name in the package clause of a file of the package that moves.
fn is_clause_name(of: &MovedFile<'_>, file: &FileTree, token: usize) -> bool
    ensures { IsTrue result ↔ ((of.now.path.now ≡ of.now.moved.now.from) × ((source_of file.now).tree.name ≡ token)) }
{
    of.path.path() == of.moved.from.as_str().as_bytes() && clause_token(file) == token
}

/// Whether the name at a token refers to the package that moves: in its package clause, or by its mark.
pub(crate) fn is_package_name(of: &MovedFile<'_>, token: usize) -> bool
    ensures { IsTrue result ↔ IsRenamedToken of.now.path.now of.now.rank (source_of of.now.file.now) of.now.moved.now of.now.rows.now token }
{
    is_clause_name(of, of.file, token) || is_marked(of.rows, of.rank, token)
}
