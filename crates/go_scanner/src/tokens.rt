//! Makes tokens of pieces: drops trivia and inserts semicolons (Go specification, "Semicolons").
ghost use Rattle.std.specs.Prelude.{◌≡◌, ◌==◌, ◌+◌, ◌≤◌, ◌∷◌, ◌++◌, [], length, IfOk, OnOk};
ghost use Rattle.std.specs.List.{list_any};
ghost use Rattle.go_scanner.specs.Tokens.{is_trivia, ends_statement, ends_line, semicolon, AddsTokensOf};

use crate::compact_piece::CompactPiece;
use crate::keywords::Keyword;
use crate::operators::Operator;
use crate::piece::{Class, Piece};
use std::alloc::AllocError;

/// Whether pieces of this class are no tokens: blanks, newlines, comments and the byte order mark.
fn is_trivia(class: Class) -> bool
    ensures { result ≡ is_trivia class }
{
    matches!(
        class,
        Class::ByteOrderMark
            | Class::Blank
            | Class::Newline
            | Class::LineComment
            | Class::GeneralComment
    )
}

/// Whether a semicolon is inserted after a token of this class at the end of a line.
fn ends_statement(class: Class) -> bool
    ensures { result ≡ ends_statement class }
{
    match class {
        Class::Name | Class::Integer | Class::InterpretedString | Class::RawString => true,
        Class::Keyword(keyword) => matches!(
            keyword,
            Keyword::Break | Keyword::Continue | Keyword::Fallthrough | Keyword::Return
        ),
        Class::Operator(operator) => matches!(
            operator,
            Operator::Increment
                | Operator::Decrement
                | Operator::RightParen
                | Operator::RightBracket
                | Operator::RightBrace
        ),
        _ => false,
    }
}

/// Whether there is a newline among the bytes.
fn has_newline(bytes: &[u8]) -> bool
    ensures { result ≡ list_any (λ b. b == 10) bytes.now }
{
    bytes.iter().any(|byte| *byte == b'\n')
}

/// Whether a piece ends a line: a newline, or a general comment that contains one.
fn ends_line(text: &[u8], piece: &Piece) -> bool
    requires order { piece.now.span.start ≤ piece.now.span.end }
    requires fits { piece.now.span.end ≤ length text.now }
    ensures { result ≡ ends_line text.now piece.now }
{
    match piece.class {
        Class::Newline => true,
        Class::GeneralComment => has_newline(&text[piece.span.start..piece.span.end]),
        _ => false,
    }
}

/// Appends the token of a class that begins at an offset and has a length.
fn keep_token(
    found: &mut Vec<CompactPiece>,
    class: Class,
    start: usize,
    len: usize,
) -> Result<(), AllocError>
    ensures { OnOk result (found.new.items ≡ found.old.items ++ (record { class = class; span = record { start = start; end = len + start } }) ∷ []) }
{
    let token = CompactPiece::new(class, start, len)?;
    found.push(token)?;
    Ok(())
}

/// Appends an inserted semicolon: an empty token at this offset.
pub fn keep_semicolon(found: &mut Vec<CompactPiece>, at: usize) -> Result<(), AllocError>
    ensures { OnOk result (found.new.items ≡ found.old.items ++ semicolon at ∷ []) }
{
    keep_token(found, Class::Operator(Operator::Semicolon), at, 0)
}

/// Appends the token of a piece.
fn keep_piece(found: &mut Vec<CompactPiece>, piece: &Piece) -> Result<(), AllocError>
    requires { piece.now.span.start ≤ piece.now.span.end }
    ensures { OnOk result (found.new.items ≡ found.old.items ++ piece.now ∷ []) }
{
    let span = piece.span;
    keep_token(found, piece.class, span.start, span.end - span.start)
}

/// Adds the token of one piece, and before it the semicolon that is due if the piece ends a line. `due` and the result are the offset at
/// which a semicolon is inserted if the line ends next.
pub fn add_piece(
    found: &mut Vec<CompactPiece>,
    due: Option<usize>,
    text: &[u8],
    piece: &Piece,
) -> Result<Option<usize>, AllocError>
    requires order { piece.now.span.start ≤ piece.now.span.end }
    requires fits { piece.now.span.end ≤ length text.now }
    ensures { IfOk result (λ next. AddsTokensOf text.now found.old.items due piece.now found.new.items next) }
{
    if !is_trivia(piece.class) {
        keep_piece(found, piece)?;
        if ends_statement(piece.class) {
            return Ok(Some(piece.span.end));
        }
        return Ok(None);
    }
    if !ends_line(text, piece) {
        return Ok(due);
    }
    match due {
        Some(at) => {
            keep_semicolon(found, at)?;
            Ok(None)
        }
        None => Ok(None),
    }
}
