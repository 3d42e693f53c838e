//! The imports of a scope table and their paths.
ghost use Rattle.std.specs.Prelude.{ℕ, List, ◌≡◌, ◌<◌, ◌↔◌, IsTrue, IfOk, MatchOption, map};
ghost use Rattle.go_ast.specs.SourceFile.{source_of};
ghost use Rattle.go_scope.specs.Bindings.{IsImport};
ghost use Rattle.types_declared.specs.Laid.{laid_in, is_literal, literal_of, IsPathOf};

use crate::files::literal;
use go_ast::FileTree;
use go_scope::identifiers::Identifiers;
use go_scope::model::{Block, Purpose, Role};
use go_scope::table::ScopeTable;
use std::alloc::{AllocError, Global};

/// Whether an identifier declares an import: its block is that of a file.
pub fn is_import(table: &ScopeTable, u: usize) -> bool
    requires { u < (laid_in table.now).size }
    ensures { IsTrue result ↔ IsImport (laid_in table.now).layout u }
{
    match table.role(u).block() {
        Block::File(_) => true,
        Block::Universe | Block::Package | Block::Inner(_, _, _) => false,
    }
}

/// Whether a role is that of the string literal of an import with a name.
fn is_literal(role: Role) -> bool
    ensures { result ≡ is_literal role }
{
    match role {
        Role::NotLexical(Purpose::ImportPath) => true,
        _ => false,
    }
}

/// The identifier of an import's string literal: the next one where the import has a name, else `d` itself.
fn literal_among(identifiers: &Identifiers, d: usize) -> usize
    requires { d < (laid_in identifiers.now).size }
    ensures literal { result ≡ literal_of (laid_in identifiers.now).layout d }
    ensures in_range { result < (laid_in identifiers.now).size }
{
    if 1 < identifiers.len() - d && is_literal(identifiers.role(d + 1)) {
        d + 1
    } else {
        d
    }
}

/// The path of the import `d`, in a package without bindings yet; none where no string literal stands there.
pub(crate) fn path_among(
    alloc: Global,
    identifiers: &Identifiers,
    files: &[FileTree],
    d: usize,
) -> Result<Option<Vec<u8>>, AllocError>
    requires { d < (laid_in identifiers.now).size }
    ensures { IfOk result (λ path. MatchOption path ((v : List ℕ) → IsPathOf (map source_of files.now) (laid_in identifiers.now) d v → ⊥)
        (λ v. IsPathOf (map source_of files.now) (laid_in identifiers.now) d v.items)) }
{
    let file = identifiers.place(d).file;
    if file < files.len() {
        literal(
            alloc,
            &files[file],
            identifiers.place(literal_among(identifiers, d)).index,
        )
    } else {
        Ok(None)
    }
}

/// The identifier of an import's string literal: the next one where the import has a name, else `d` itself.
pub fn literal_of(table: &ScopeTable, d: usize) -> usize
    requires { d < (laid_in table.now).size }
    ensures literal { result ≡ literal_of (laid_in table.now).layout d }
    ensures in_range { result < (laid_in table.now).size }
{
    literal_among(table.identifiers(), d)
}

/// The path of the import `d`; none where no string literal stands there.
pub fn path_of(
    alloc: Global,
    table: &ScopeTable,
    files: &[FileTree],
    d: usize,
) -> Result<Option<Vec<u8>>, AllocError>
    requires { d < (laid_in table.now).size }
    ensures { IfOk result (λ path. MatchOption path ((v : List ℕ) → IsPathOf (map source_of files.now) (laid_in table.now) d v → ⊥)
        (λ v. IsPathOf (map source_of files.now) (laid_in table.now) d v.items)) }
{
    path_among(alloc, table.identifiers(), files, d)
}
