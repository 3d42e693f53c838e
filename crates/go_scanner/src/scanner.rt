//! Scans a file: cuts its text into pieces, and lists the tokens.
ghost use Rattle.std.specs.Prelude.{◌≡◌, ◌≤◌, IfOk, IfErr, length};
ghost use Rattle.go_scanner.specs.Cuts.{IsCut, mark_len, mark_of};
ghost use Rattle.go_scanner.specs.CutText.{IsCutText};
ghost use Rattle.go_scanner.specs.Refusals.{IsRefusalOfCut};

use crate::compact_piece::CompactPiece;
use crate::encoding::encoding_fault;
use crate::front::front;
use crate::piece::{Class, Piece};
use crate::pieces::Pieces;
use crate::refusal::{ScanRefusal, TextFault};
use crate::tokens::{add_piece, keep_semicolon};
use crate::trail::Trail;
use crate::trivia::is_blank;
use base_files::{FaultKind, FileText, Span};
use std::alloc::Global;

/// The byte order mark U+FEFF at the start of a text as a piece, where there is one, and its length: 3 or 0.
fn mark(text: &[u8]) -> (Trail<Piece>, usize)
    ensures pieces { result.0.items ≡ mark_of text.now }
    ensures size { result.1 ≡ mark_len text.now }
    ensures fits { result.1 ≤ length text.now }
{
    let nothing = Trail::new();
    if !text.starts_with(b"\xEF\xBB\xBF") {
        return (nothing, 0);
    }
    let mark = Piece {
        class: Class::ByteOrderMark,
        span: Span { start: 0, end: 3 },
    };
    (nothing.and(&mark), 3)
}

/// The pieces and tokens of a text, or its first fault. Blanks are the most frequent pieces, and add no token.
fn cut(alloc: Global, text: &[u8]) -> Result<(Trail<Piece>, Vec<CompactPiece>), ScanRefusal>
    ensures cut { IfOk result (λ found. IsCutText text.now found.0.items found.1.items) }
    ensures refused { IfErr result (IsRefusalOfCut text.now) }
{
    if let Some(offset) = encoding_fault(text) {
        let kind = FaultKind::Encoding;
        return Err(ScanRefusal::Fault(TextFault { offset, kind }));
    }
    let mut tokens = Vec::new(alloc);
    let mut due = None;
    let (mut pieces, mut at) = mark(text);
    while at < text.len() {
        if is_blank(text[at]) {
            let end = at + 1;
            let span = Span { start: at, end };
            let class = Class::Blank;
            pieces = pieces.and(&Piece { class, span });
            at = end;
            continue;
        }
        match front(&text[at..]) {
            Ok((class, size)) => {
                let end = at + size;
                let span = Span { start: at, end };
                let piece = Piece { class, span };
                due = add_piece(&mut tokens, due, text, &piece)?;
                pieces = pieces.and(&piece);
                at = end;
            }
            Err(TextFault { offset, kind }) => {
                let offset = at + offset;
                return Err(ScanRefusal::Fault(TextFault { offset, kind }));
            }
        }
    }
    match due {
        Some(end) => {
            keep_semicolon(&mut tokens, end)?;
            Ok((pieces, tokens))
        }
        None => Ok((pieces, tokens)),
    }
}

/// Scans a Go file, or answers its first fault. The result shares the file's bytes.
pub fn scan(alloc: Global, file: &FileText) -> Result<Pieces, ScanRefusal>
    ensures cut { IfOk result (λ pieces. (pieces.text ≡ file.now) × IsCut pieces.text pieces.pieces) }
    ensures refused { IfErr result (IsRefusalOfCut file.now) }
{
    let (pieces, mut tokens) = cut(alloc, file.bytes())?;
    tokens.shrink_to_fit();
    let file = file.clone()?;
    Ok(Pieces::new(file, pieces, tokens))
}
