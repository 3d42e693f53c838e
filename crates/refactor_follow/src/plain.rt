//! Whether a package that imports the one whose name changes needs no scope table, and the names that get the new name then.
ghost use Rattle.std.specs.Prelude.{ℕ, suc, ◌≡◌, ◌<◌, ◌↔◌, true, false, map, length, slice_get, IfOk, IfSome, IsTrue};
ghost use Rattle.go_ast.specs.SourceFile.{source_of};
ghost use Rattle.go_scanner.specs.CutText.{tokens_in, token_at};
ghost use Rattle.go_scanner.specs.TokenValues.{IsStringClass};
ghost use Rattle.types_declared.specs.Package.{Package};
ghost use Rattle.refs_binding.specs.Identifiers.{IsNameToken};
ghost use Rattle.refs_binding.specs.Indexed.{IsPackageNumber, IsPackageNumbered};
ghost use Rattle.refactor_move.specs.Uses.{mark_at};
ghost use Rattle.refactor_follow.specs.PlainPackages.{ArePlainFiles, ArePlainMarks, IsPlainFile, IsPlainPackage, IsPlainToken};

use crate::imports::FollowedName;
use crate::marks::{first_listed, is_marked_before, marks_of, spelled_before};
use go_ast::FileTree;
use go_scanner::Class;
use go_scope::model::Position;
use refactor_move::is_marked;
use refs_binding::indexed::Numbered;
use refs_binding::{qualified_of, trees};
use std::alloc::{AllocError, Global};
use types_info::Qualified;

/// The new name and the old one, and the marks of tokens that name the package, by file and token.
#[derive(Clone, Copy)]
pub(crate) struct MarkedNames<'a> {
    pub(crate) name: &'a [u8],
    pub(crate) old: &'a [u8],
    pub(crate) rows: &'a [Vec<bool>],
}

/// Whether a class is that of string literals.
fn is_string_class(class: Class) -> bool
    ensures { IsTrue result ↔ IsStringClass class }
{
    class == Class::InterpretedString || class == Class::RawString
}

/// Whether a token is a string literal.
fn is_string(file: &FileTree, token: usize) -> bool
    ensures { result ≡ false → IsStringClass (token_at (source_of file.now).cut token).class → ⊥ }
{
    let tokens = file.pieces().tokens();
    match tokens.get(token) {
        None => false,
        Some(piece) => is_string_class(piece.class()),
    }
}

/// Whether a string literal is behind a token.
fn is_string_behind(file: &FileTree, token: usize) -> bool
    ensures { result ≡ false → IsStringClass (token_at (source_of file.now).cut (suc token)).class → ⊥ }
{
    match token.checked_add(1) {
        None => true,
        Some(next) => is_string(file, next),
    }
}

/// Whether a token is a name.
fn is_name(file: &FileTree, token: usize) -> bool
    requires { token < length (tokens_in (source_of file.now).cut) }
    ensures { IsTrue result ↔ IsNameToken (slice_get (tokens_in (source_of file.now).cut) token) }
{
    file.pieces().tokens()[token].class() == Class::Name
}

/// Whether a name is not the new one, and is marked exactly if it is the old one.
fn is_plain_name(file: &FileTree, of: &MarkedNames<'_>, token: usize, marked: bool) -> bool
    requires in_range { token < length (tokens_in (source_of file.now).cut) }
    requires named { IsNameToken (slice_get (tokens_in (source_of file.now).cut) token) }
    ensures { IsTrue result → IsPlainToken (source_of file.now) of.now.name.now of.now.old.now token marked }
{
    let spelling = file.spelling(token);
    if spelling == of.name {
        return false;
    }
    if marked {
        spelling == of.old && !is_string_behind(file, token)
    } else {
        spelling != of.old
    }
}

/// Whether a token is plain: if it is a name, it is not the new one, and is marked exactly if it is the old one.
fn is_plain_token(file: &FileTree, of: &MarkedNames<'_>, rank: usize, token: usize) -> bool
    requires { token < length (tokens_in (source_of file.now).cut) }
    ensures { IsTrue result → IsPlainToken (source_of file.now) of.now.name.now of.now.old.now token (mark_at of.now.rows.now rank token) }
{
    let marked = is_marked(of.rows, rank, token);
    if is_name(file, token) {
        is_plain_name(file, of, token, marked)
    } else {
        !marked
    }
}

/// Whether only tokens of the file of a rank are marked in its row.
fn is_row_inside(file: &FileTree, rows: &[Vec<bool>], rank: usize) -> bool
    ensures { IsTrue result → (i : ℕ) → mark_at rows.now rank i ≡ true → i < length (tokens_in (source_of file.now).cut) }
{
    match rows.get(rank) {
        None => true,
        Some(row) => row.len() <= file.pieces().tokens().len(),
    }
}

/// Whether each token of the file of a rank is plain.
fn is_plain_file(file: &FileTree, of: &MarkedNames<'_>, rank: usize) -> bool
    ensures { IsTrue result → IsPlainFile (source_of file.now) of.now.name.now of.now.old.now rank of.now.rows.now }
{
    if !is_row_inside(file, of.rows, rank) {
        return false;
    }
    for token in 0..file.pieces().tokens().len() {
        if !is_plain_token(file, of, rank, token) {
            return false;
        }
    }
    true
}

/// Whether each token of some files is plain.
fn are_plain(files: &[FileTree], of: &MarkedNames<'_>) -> bool
    ensures { IsTrue result → ArePlainFiles (map source_of files.now) of.now.name.now of.now.old.now of.now.rows.now }
{
    for rank in 0..files.len() {
        if !is_plain_file(&files[rank], of, rank) {
            return false;
        }
    }
    true
}

/// The marks of the names that get the new name in these files, if their tokens are plain. `first` is a position of the lists.
fn plain_marks(
    alloc: Global,
    files: &[FileTree],
    lists: &[Qualified],
    first: Position,
    new: FollowedName<'_>,
) -> Result<Option<Vec<Vec<bool>>>, AllocError>
    ensures { IfOk result (λ found. IfSome found (λ rows. ArePlainMarks lists.now (map source_of files.now) new.entry.path.now new.entry.name.now rows.items)) }
{
    let rows = marks_of(alloc, files, lists, new.path)?;
    let of = MarkedNames {
        name: new.name,
        old: spelled_before(files, first),
        rows: &rows,
    };
    if is_marked_before(&rows, first) && are_plain(files, &of) {
        Ok(Some(rows))
    } else {
        Ok(None)
    }
}

/// The marks of the names of the package of a number that get the new name, if its tokens are plain. No scope table is laid.
pub(crate) fn plain_uses(
    alloc: Global,
    at: Numbered<'_>,
    new: FollowedName<'_>,
) -> Result<Option<Vec<Vec<bool>>>, AllocError>
    requires { IsPackageNumber at }
    ensures { IfOk result (λ found. IfSome found (λ rows. (p : Package) → IsPackageNumbered at.entry p → IsPlainPackage p new.entry.path.now new.entry.name.now rows.items)) }
{
    at.workspace.has_no_faults();
    let files = trees(at.workspace, at.number);
    let lists = qualified_of(at.workspace, at.number);
    match first_listed(lists, new.path) {
        None => Ok(None),
        Some(first) => plain_marks(alloc, files, lists, first, new),
    }
}
