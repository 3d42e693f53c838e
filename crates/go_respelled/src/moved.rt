//! Moves tokens by edits, in one walk over both. Tokens between two edits move by the same cursor. No offset is computed that lies behind the
//! new text, so none is too great.
ghost use Rattle.std.specs.Prelude.{◌≡◌, ◌+◌, ◌-◌, ◌^◌, ◌<◌, ◌≤◌, ℕ, length, map, vec_capacity, IfOk, OnOk};
ghost use Rattle.std.specs.List.{All};
ghost use Rattle.base_edits.specs.Edits.{AreInOrder};
ghost use Rattle.base_edits.specs.Moved.{moved_offset};
ghost use Rattle.base_edits.specs.PassedEdits.{ArePast};
ghost use Rattle.go_respelled.specs.Renamings.{moved_piece};
ghost use Rattle.go_respelled.specs.Replaced.{AreFollowing, AreMoved, FitsMoved, IsCursorAt, IsMovedBy, MovesBefore, MovesStretch, passed};

use base_edits::Edit;
use base_files::Span;
use go_scanner::{CompactPiece, Piece};
use std::alloc::{AllocError, Global};

/// The edits passed so far: their number, and where the last of them ends in the old text and in the new one.
#[derive(Clone, Copy)]
pub(crate) struct Cursor {
    pub(crate) edits: usize,
    pub(crate) old: usize,
    pub(crate) new: usize,
}

/// A cursor, with an offset before which it moves all that is behind it.
#[derive(Clone, Copy)]
pub(crate) struct Stretch {
    pub(crate) cursor: Cursor,
    pub(crate) limit: usize,
}

/// The offset in the new text of an old one, behind the edits passed and before all others.
fn moved(cursor: Cursor, offset: usize) -> usize
    requires behind { cursor.old ≤ offset }
    requires fits { cursor.new + (offset - cursor.old) < 2 ^ 64 }
    ensures { result ≡ cursor.new + (offset - cursor.old) }
{
    cursor.new + (offset - cursor.old)
}

/// Passes one more edit.
fn next(cursor: Cursor, edit: &Edit) -> Cursor
    requires more { cursor.edits + 1 < 2 ^ 64 }
    requires behind { cursor.old ≤ edit.now.span.start }
    requires fits { cursor.new + ((edit.now.span.start - cursor.old) + length edit.now.text) < 2 ^ 64 }
    ensures { result ≡ record { edits = cursor.edits + 1; old = edit.now.span.end; new = cursor.new + ((edit.now.span.start - cursor.old) + length edit.now.text) } }
{
    let added = (edit.span.start - cursor.old) + edit.text.len();
    Cursor {
        edits: cursor.edits + 1,
        old: edit.span.end,
        new: cursor.new + added,
    }
}

/// Passes the edits that end at or before an offset.
fn pass(edits: &[Edit], cursor: Cursor, offset: usize) -> Cursor
    requires past { ArePast edits.now offset (passed cursor) }
    requires fits { moved_offset edits.now offset < 2 ^ 64 }
    ensures { IsCursorAt edits.now offset result }
{
    let mut cursor = cursor;
    while cursor.edits < edits.len() {
        let edit = &edits[cursor.edits];
        if offset < edit.span.end {
            return cursor;
        }
        cursor = next(cursor, edit);
    }
    cursor
}

/// A token at the place to which the edits move it, and the cursor at its end.
fn move_token(edits: &[Edit], cursor: Cursor, token: &Piece) -> (Cursor, Piece)
    requires past { ArePast edits.now token.now.span.start (passed cursor) }
    requires order { token.now.span.start ≤ token.now.span.end }
    requires fits { FitsMoved edits.now token.now }
    ensures token { result.1 ≡ moved_piece edits.now token.now }
    ensures past { ArePast edits.now token.now.span.end (passed result.0) }
{
    let span = token.span;
    let cursor = pass(edits, cursor, span.start);
    let start = moved(cursor, span.start);
    let cursor = pass(edits, cursor, span.end);
    let end = moved(cursor, span.end);
    let span = Span { start, end };
    let class = token.class;
    (cursor, Piece { class, span })
}

/// A piece in little memory.
fn compact(piece: &Piece) -> Result<CompactPiece, AllocError>
    requires { piece.now.span.start ≤ piece.now.span.end }
    ensures { IfOk result (λ made. made ≡ piece.now) }
{
    let span = piece.span;
    let made = CompactPiece::new(piece.class, span.start, span.end - span.start)?;
    Ok(made)
}

/// A token at the place to which a cursor moves both its ends.
fn moved_by(cursor: Cursor, token: &CompactPiece) -> Result<CompactPiece, AllocError>
    requires behind { cursor.old ≤ token.now.span.start }
    requires order { token.now.span.start ≤ token.now.span.end }
    requires fits { cursor.new + (token.now.span.end - cursor.old) < 2 ^ 64 }
    ensures { IfOk result (IsMovedBy cursor token.now) }
{
    let start = moved(cursor, token.start());
    let token = token.starting_at(start)?;
    Ok(token)
}

/// Where the next edit ends. A cursor moves all offsets before that.
fn next_end(edits: &[Edit], cursor: Cursor) -> usize
    ensures { (last : ℕ) → ArePast edits.now last (passed cursor) → MovesBefore edits.now last result cursor }
{
    match edits.get(cursor.edits) {
        Some(edit) => edit.span.end,
        None => usize::MAX,
    }
}

/// Moves a token that ends before the limit.
fn move_near(edits: &[Edit], at: Stretch, token: &CompactPiece) -> Result<CompactPiece, AllocError>
    requires past { ArePast edits.now token.now.span.start (passed at.cursor) }
    requires moves { MovesStretch edits.now at }
    requires order { token.now.span.start ≤ token.now.span.end }
    requires near { token.now.span.end < at.limit }
    requires fits { FitsMoved edits.now token.now }
    ensures token { IfOk result (λ moved. moved ≡ moved_piece edits.now token.now) }
    ensures past { IfOk result (λ _. ArePast edits.now token.now.span.end (passed at.cursor)) }
{
    let moved = moved_by(at.cursor, token)?;
    Ok(moved)
}

/// Moves the next tokens, up to the first that does not end before the limit.
fn move_stretch(
    edits: &[Edit],
    tokens: &[CompactPiece],
    at: Stretch,
    moved: &mut Vec<CompactPiece>,
) -> Result<(), AllocError>
    requires moves { MovesStretch edits.now at }
    requires fits { All (FitsMoved edits.now) tokens.now }
    requires so_far { AreMoved edits.now tokens.now at.cursor moved.old.items }
    requires room { length tokens.now ≤ vec_capacity moved.old }
    ensures so_far { OnOk result (AreMoved edits.now tokens.now at.cursor moved.new.items) }
    ensures longer { OnOk result (length moved.old.items ≤ length moved.new.items) }
    ensures room { OnOk result (length tokens.now ≤ vec_capacity moved.new) }
{
    while moved.len() < tokens.len() {
        let token = &tokens[moved.len()];
        if at.limit <= token.end() {
            return Ok(());
        }
        let token = move_near(edits, at, token)?;
        moved.push_reserved(token);
    }
    Ok(())
}

/// Moves the next token, and passes the edits that end at or before its end.
fn move_next(
    edits: &[Edit],
    cursor: Cursor,
    token: &CompactPiece,
) -> Result<(Stretch, CompactPiece), AllocError>
    requires past { ArePast edits.now token.now.span.start (passed cursor) }
    requires order { token.now.span.start ≤ token.now.span.end }
    requires fits { FitsMoved edits.now token.now }
    ensures token { IfOk result (λ step. step.1 ≡ moved_piece edits.now token.now) }
    ensures past { IfOk result (λ step. ArePast edits.now token.now.span.end (passed step.0.cursor)) }
    ensures moves { IfOk result (λ step. MovesStretch edits.now step.0) }
{
    let step = move_token(edits, cursor, &token.piece());
    let limit = next_end(edits, step.0);
    let cursor = step.0;
    let token = compact(&step.1)?;
    Ok((Stretch { cursor, limit }, token))
}

/// The tokens at the places to which the edits move them. The list has no spare room.
pub(crate) fn moved_tokens(
    alloc: Global,
    tokens: &[CompactPiece],
    edits: &[Edit],
) -> Result<Vec<CompactPiece>, AllocError>
    requires order { AreInOrder 0 edits.now }
    requires tokens { AreFollowing tokens.now }
    requires fits { All (FitsMoved edits.now) tokens.now }
    ensures { IfOk result (λ moved. moved.items ≡ map (moved_piece edits.now) tokens.now) }
{
    let mut moved = Vec::with_capacity(alloc, tokens.len())?;
    let mut cursor = Cursor {
        edits: 0,
        old: 0,
        new: 0,
    };
    while moved.len() < tokens.len() {
        let token = &tokens[moved.len()];
        let step = move_next(edits, cursor, token)?;
        moved.push_reserved(step.1);
        move_stretch(edits, tokens, step.0, &mut moved)?;
        cursor = step.0.cursor;
    }
    Ok(moved)
}
