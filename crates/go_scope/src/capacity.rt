//! Estimates how many identifiers and names a package has, so that lists are made with enough room. The contracts bound what is asked for:
//! by the tokens of the files, and by the identifiers.
ghost use Rattle.std.specs.Prelude.{◌≡◌, ◌≤◌, ◌+◌, ◌*◌, [], length, sum_by, vec_capacity, IfOk};
ghost use Rattle.go_scanner.specs.CutText.{tokens_in};
ghost use Rattle.go_scope.specs.FileSites.{universe};
ghost use Rattle.go_scope.specs.Room.{token_count};

use crate::identifiers::PREDECLARED;
use crate::model::Identifier;
use go_ast::FileTree;
use go_ast::tree::{Group, ImportDecl};
use go_scanner::{Class, CompactPiece};
use std::alloc::{AllocError, Global};

/// The number of specs of an import declaration.
fn import_count(decl: &ImportDecl) -> usize {
    match &decl.group {
        Group::Single(_) => 1,
        Group::Several { items, .. } => items.len(),
    }
}

/// The number of names among tokens.
fn name_count(tokens: &[CompactPiece]) -> usize {
    let mut count: usize = 0;
    for token in tokens {
        if token.class() == Class::Name {
            count = count.saturating_add(1);
        }
    }
    count
}

/// The number of identifiers of a file: its names, and the string literals of its imports. Each is a token.
fn file_count(file: &FileTree) -> usize
    ensures { result ≤ length (tokens_in file.now.cut) }
{
    let tokens = file.pieces().tokens();
    let mut count = name_count(tokens);
    for decl in &file.file().imports {
        count = count.saturating_add(import_count(decl));
    }
    count.min(tokens.len())
}

/// The number of identifiers of a package's files, predeclared names included.
fn identifier_count(files: &[FileTree]) -> usize
    ensures { result ≤ length universe + token_count files.now }
{
    let mut count = PREDECLARED;
    for rank in 0..files.len() {
        count = count.saturating_add(file_count(&files[rank]));
    }
    count
}

/// An empty list with room for the identifiers of a package's files, predeclared names included.
pub(crate) fn list_of_identifiers<'a>(
    alloc: Global,
    files: &'a [FileTree],
) -> Result<Vec<Identifier<'a>>, AllocError>
    ensures items { IfOk result (λ list. list.items ≡ []) }
    ensures room { IfOk result (λ list. vec_capacity list ≤ length universe + token_count files.now) }
{
    Vec::with_capacity(alloc, identifier_count(files))
}

/// An estimate of how many different names identifiers have. In a large package most names are used often.
pub(crate) fn name_room(identifiers: &[Identifier]) -> usize
    ensures { result ≤ length identifiers.now + 2 * length universe }
{
    identifiers.len() / 8 + 2 * PREDECLARED
}
