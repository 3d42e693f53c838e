//! Marks of the tokens that name a package in its qualified identifiers.
ghost use Rattle.std.specs.Prelude.{ℕ, ◌≡◌, ◌⊎◌, true, false, Contains, slice_index_or, IfOk, IsTrue, ◌↔◌};
ghost use Rattle.types_info.specs.Lists.{IsListedUnder, list_path as path_under};
ghost use Rattle.refactor_move.specs.Uses.{mark_at};
ghost use Rattle.refactor_follow.specs.PlainPackages.{HasMarkedToken, MarkListed, MoreMarks, behind_dot};

use go_ast::FileTree;
use go_scope::model::Position;
use refactor_move::is_marked;
use std::alloc::{AllocError, Global};
use types_info::Qualified;

/// As many marks as a file has tokens, of which none is set.
fn no_row(alloc: Global, file: &FileTree) -> Result<Vec<bool>, AllocError>
    ensures { IfOk result (λ row. (i : ℕ) → slice_index_or row.items i false ≡ false) }
{
    vec![in alloc; false; file.pieces().tokens().len()]
}

/// The marks of some files, of which none is set.
fn no_marks(alloc: Global, files: &[FileTree]) -> Result<Vec<Vec<bool>>, AllocError>
    ensures { IfOk result (λ rows. (file token : ℕ) → mark_at rows.items file token ≡ false) }
{
    let mut rows = Vec::new(alloc);
    for file in files {
        rows.push(no_row(alloc, file)?)?;
    }
    Ok(rows)
}

/// Sets the mark of a token, if there is one.
fn mark(row: &mut Vec<bool>, token: usize)
    ensures { (i : ℕ) → slice_index_or row.new.items i false ≡ true → (slice_index_or row.old.items i false ≡ true) ⊎ (i ≡ token) }
{
    if token < row.len() {
        row[token] = true;
    }
}

/// Sets the mark of the token two before a position.
fn mark_before(rows: &mut Vec<Vec<bool>>, at: Position)
    ensures { MoreMarks rows.old.items rows.new.items (λ file token. at ≡ behind_dot file token) }
{
    if at.file < rows.len() && 2 <= at.index {
        mark(&mut rows[at.file], at.index - 2);
    }
}

/// Sets the marks of the tokens two before some positions.
fn mark_places(rows: &mut Vec<Vec<bool>>, places: &[Position])
    ensures { MoreMarks rows.old.items rows.new.items (λ file token. Contains places.now (behind_dot file token)) }
{
    for k in 0..places.len() {
        mark_before(rows, places[k]);
    }
}

/// Whether a list of qualified identifiers is that of a path.
fn is_of_path(list: &Qualified, path: &[u8]) -> bool
    ensures { IsTrue result ↔ (path_under list.now ≡ path.now) }
{
    list.path.as_slice() == path
}

/// Sets the marks of the tokens two before the positions of a list, if it is that of a path.
fn mark_list(rows: &mut Vec<Vec<bool>>, list: &Qualified, path: &[u8])
    ensures { MoreMarks rows.old.items rows.new.items (λ file token. (path_under list.now ≡ path.now) × Contains list.now.places.items (behind_dot file token)) }
{
    if is_of_path(list, path) {
        mark_places(rows, &list.places);
    }
}

/// Sets the marks of the tokens two before the positions that are listed under a path.
fn mark_lists(rows: &mut Vec<Vec<bool>>, lists: &[Qualified], path: &[u8])
    ensures { MoreMarks rows.old.items rows.new.items (λ file token. IsListedUnder lists.now path.now (behind_dot file token)) }
{
    for k in 0..lists.len() {
        mark_list(rows, &lists[k], path);
    }
}

/// The marks of the tokens of some files that name a package in the qualified identifiers listed under its path.
pub(crate) fn marks_of(
    alloc: Global,
    files: &[FileTree],
    lists: &[Qualified],
    path: &[u8],
) -> Result<Vec<Vec<bool>>, AllocError>
    ensures { IfOk result (λ rows. MarkListed lists.now path.now rows.items) }
{
    let mut rows = no_marks(alloc, files)?;
    mark_lists(&mut rows, lists, path);
    Ok(rows)
}

/// The first position of a list that is that of a path.
fn first_in(list: &Qualified, path: &[u8]) -> Option<Position> {
    if is_of_path(list, path) {
        Some(*list.places.first()?)
    } else {
        None
    }
}

/// A position that is listed under a path, if one is found.
pub(crate) fn first_listed(lists: &[Qualified], path: &[u8]) -> Option<Position> {
    for k in 0..lists.len() {
        let found = first_in(&lists[k], path);
        if found.is_some() {
            return found;
        }
    }
    None
}

/// The spelling of the token two before a position. It has no bytes where there is none.
pub(crate) fn spelled_before(files: &[FileTree], at: Position) -> &[u8] {
    match (files.get(at.file), at.index.checked_sub(2)) {
        (Some(tree), Some(token)) => tree.spelling(token),
        _ => &[],
    }
}

/// Whether the token two before a position is marked.
pub(crate) fn is_marked_before(rows: &[Vec<bool>], at: Position) -> bool
    ensures { IsTrue result → HasMarkedToken rows.now }
{
    match at.index.checked_sub(2) {
        None => false,
        Some(token) => is_marked(rows, at.file, token),
    }
}
