//! Whether an edit replaces a name by a name, or a string by a string, and whether all edits of a text do.
ghost use Rattle.std.specs.Prelude.{◌≡◌, ◌<◌, ◌≤◌, IfOk, IsTrue, length};
ghost use Rattle.go_scanner.specs.declared.piece.Class.TheVariants.{Name};
ghost use Rattle.go_scanner.specs.CutText.{tokens_in};
ghost use Rattle.go_scanner.specs.Pieces.{IsPiece};
ghost use Rattle.go_ast.specs.Kinds.{kind_of_name};
ghost use Rattle.go_respelled.specs.PieceEdits.{IsEncodedString, MayStandFor};
ghost use Rattle.go_respelled.specs.Replaced.{AreTokenEdits, ReplacesToken};

use base_edits::Edit;
use base_files::FileText;
use go_scanner::{Class, CompactPiece, Pieces, ScanRefusal, name_len, scan};
use std::alloc::{AllocError, Global};

/// Whether the bytes are a name, and no keyword.
fn is_name(bytes: &[u8]) -> bool
    ensures { IsTrue result → IsPiece Name bytes.now }
{
    match name_len(bytes) {
        Some(size) => size == bytes.len(),
        None => false,
    }
}

/// Whether a text is one interpreted string, with nothing about it.
fn is_one_string(pieces: &Pieces) -> bool
    ensures { IsTrue result → IsEncodedString pieces.now.text }
{
    let tokens = pieces.tokens();
    if tokens.is_empty() {
        return false;
    }
    let token = tokens[0].piece();
    let _ = pieces.text(0);
    match token.class {
        Class::InterpretedString => {
            token.span.start == 0 && token.span.end == pieces.file().bytes().len()
        }
        _ => false,
    }
}

/// Whether a text is one interpreted string by itself.
fn is_encoded_string(alloc: Global, text: &FileText) -> Result<bool, AllocError>
    ensures { IfOk result (λ is. IsTrue is → IsEncodedString text.now) }
{
    match scan(alloc, text) {
        Ok(pieces) => Ok(is_one_string(&pieces)),
        Err(ScanRefusal::Fault(_)) => Ok(false),
        Err(ScanRefusal::Memory) => Err(AllocError),
    }
}

/// Whether a text may take the place of a token of this class. Only names and interpreted strings are replaced.
fn may_stand_for(alloc: Global, class: Class, text: &FileText) -> Result<bool, AllocError>
    ensures { IfOk result (λ may. IsTrue may → MayStandFor class text.now) }
{
    match class {
        Class::Name => Ok(is_name(text.bytes())),
        Class::InterpretedString => is_encoded_string(alloc, text),
        _ => Ok(false),
    }
}

/// Whether two texts of tokens are both `_`, or neither is.
fn have_same_kind(one: &[u8], other: &[u8]) -> bool
    ensures { IsTrue result → kind_of_name one.now ≡ kind_of_name other.now }
{
    (one == b"_".as_slice()) == (other == b"_".as_slice())
}

/// Whether an edit replaces the token of this number by bytes that may take its place. Both must be `_`, or neither.
pub(crate) fn replaces_token(
    alloc: Global,
    old: &Pieces,
    number: usize,
    edit: &Edit,
) -> Result<bool, AllocError>
    requires { number < length (tokens_in old.now) }
    ensures { IfOk result (λ replaces. IsTrue replaces → ReplacesToken old.now edit.now) }
{
    let token = old.tokens()[number].piece();
    if token.span.start != edit.span.start || token.span.end != edit.span.end {
        return Ok(false);
    }
    if !have_same_kind(edit.text.bytes(), old.text(number)) {
        return Ok(false);
    }
    may_stand_for(alloc, token.class, &edit.text)
}

/// Whether an edit begins at or behind an offset, and replaces the token of this number, if there is one.
fn replaces_behind(
    alloc: Global,
    old: &Pieces,
    number: usize,
    offset: usize,
    edit: &Edit,
) -> Result<bool, AllocError>
    ensures { IfOk result (λ replaces. IsTrue replaces → (offset ≤ edit.now.span.start) × (edit.now.span.start ≤ edit.now.span.end) × ReplacesToken old.now edit.now) }
{
    let tokens = old.tokens();
    let span = edit.span;
    if tokens.len() <= number || span.start < offset || span.end < span.start {
        return Ok(false);
    }
    let replaces = replaces_token(alloc, old, number, edit)?;
    Ok(replaces)
}

/// The number of the first token, from a number on, that begins at or behind an offset.
fn token_from(tokens: &[CompactPiece], number: usize, offset: usize) -> usize
    ensures { number ≤ result }
{
    let mut from = number;
    while from < tokens.len() && tokens[from].start() < offset {
        from += 1;
    }
    from
}

/// Whether the edits are in order, and each replaces a token by bytes that may take its place. The tokens are passed once.
pub(crate) fn replace_tokens(
    alloc: Global,
    old: &Pieces,
    edits: &[Edit],
) -> Result<bool, AllocError>
    ensures { IfOk result (λ replace. IsTrue replace → AreTokenEdits old.now edits.now) }
{
    let mut number = 0;
    let mut at = 0;
    for edit in edits {
        number = token_from(old.tokens(), number, edit.span.start);
        let replaces = replaces_behind(alloc, old, number, at, edit)?;
        if !replaces {
            return Ok(false);
        }
        at = edit.span.end;
    }
    Ok(true)
}
