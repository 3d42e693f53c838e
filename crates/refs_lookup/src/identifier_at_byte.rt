//! Finds the identifier of a package at a byte, and the identifier that a path literal stands for.
ghost use Rattle.std.specs.Prelude.{ℕ, ◌≡◌, ◌<◌, ◌↔◌, Some, length, slice_get, map, IsTrue, MatchOption};
ghost use Rattle.go_ast.specs.SourceFile.{source_of};
ghost use Rattle.types_declared.specs.PackageView.{package_of};
ghost use Rattle.refs_binding.specs.Identifiers.{HoldsByte, is_named_literal, named_by};
ghost use Rattle.law_tokens.specs.Bytes.{TokenCovers};

use base_files::Path;
use go_ast::FileTree;
use go_scope::model::{Position, Purpose, Role};
use types_declared::Package;

/// Whether the token of a file holds the byte at a path and offset.
fn token_holds(file: &FileTree, token: usize, path: &Path, offset: usize) -> bool
    ensures { IsTrue result ↔ TokenCovers (Some (source_of file.now)) token path.now offset }
{
    let begins = file.offset(token);
    begins <= offset
        && offset - begins < file.spelling(token).len()
        && file.path().as_str().as_bytes() == path.as_str().as_bytes()
}

/// Whether the token at a position holds the byte at a path and offset.
fn place_holds(files: &[FileTree], at: Position, path: &Path, offset: usize) -> bool
    ensures { IsTrue result ↔ TokenCovers (slice_get (map source_of files.now) at.file) at.index path.now offset }
{
    if at.file < files.len() {
        token_holds(&files[at.file], at.index, path, offset)
    } else {
        false
    }
}

/// Whether the identifier or path literal `u` holds the byte at a path and offset.
fn holds_byte(unit: Package<'_>, u: usize, path: &Path, offset: usize) -> bool
    requires { u < length unit.table.now.sites }
    ensures { IsTrue result ↔ HoldsByte (package_of unit.entry) path.now offset u }
{
    !unit.table.role(u).is_implied() && place_holds(unit.files, unit.table.place(u), path, offset)
}

/// Returns the identifier, or the import's path literal, that holds the byte at a path and offset.
pub fn identifier_at(unit: Package<'_>, path: &Path, offset: usize) -> Option<usize>
    ensures { MatchOption result ((u : ℕ) → HoldsByte (package_of unit.entry) path.now offset u → ⊥) (λ u. HoldsByte (package_of unit.entry) path.now offset u) }
{
    for u in 0..unit.table.len() {
        if holds_byte(unit, u, path, offset) {
            return Some(u);
        }
    }
    None
}

/// Whether a role is that of the path literal of an import with a name.
fn is_named_literal(role: Role) -> bool
    ensures { result ≡ is_named_literal role }
{
    match role {
        Role::NotLexical(Purpose::ImportPath) => true,
        _ => false,
    }
}

/// Returns the identifier that `u` stands for: the name of an import for its path literal, else `u`.
pub fn named_by(unit: Package<'_>, u: usize) -> usize
    requires { u < length unit.table.now.sites }
    ensures named { result ≡ named_by (package_of unit.entry).layout u }
    ensures in_range { result < length unit.entry.table.now.sites }
{
    if is_named_literal(unit.table.role(u)) {
        u.saturating_sub(1)
    } else {
        u
    }
}
