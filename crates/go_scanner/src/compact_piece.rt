//! Pieces whose offsets and lengths take four bytes each. Files keep their tokens so.
ghost use Rattle.std.specs.Prelude.{◌≡◌, ◌+◌, ◌-◌, ◌≤◌, ◌^◌, ◌⊎◌, IfErr, IfOk};

use crate::piece::{Class, Piece};
use base_files::Span;
use std::alloc::AllocError;
use std::marker::Model;

/// A piece whose offset and length take four bytes each, so that a move changes the offset alone. Its value in contracts is the piece.
#[derive(Clone, Copy)]
pub struct CompactPiece {
    class: Class,
    start: u32,
    len: u32,
}

impl Model for CompactPiece {
    ghost use Rattle.std.specs.Prelude.{◌+◌, ◌-◌};
    ghost use Rattle.std.proofs.Common.{add-sub_cancel};
    ghost use Rattle.go_scanner.specs.declared.piece.Piece.{Piece};
    ghost use Rattle.go_scanner.specs.contracts.piece.Piece.{the_row};

    ghost Value = { Piece };

    ghost coded = { the_row.coded };

    ghost view = { λ a. record { class = a.class; span = record { start = a.start; end = a.len + a.start } } };

    ghost inverse = { λ p. record { class = p.class; start = p.span.start; len = p.span.end - p.span.start } };

    ghost inverse_ok = { λ a h i. record { class = a.class; start = a.start; len = add-sub_cancel a.len a.start i } };
}

/// A number in four bytes. One of 2^32 or more does not fit, which counts as want of memory.
pub fn short_number(number: usize) -> Result<u32, AllocError>
    ensures fits { IfOk result (λ short. short ≡ number) }
    ensures refused { IfErr result (λ _. 2 ^ 32 ≤ number) }
{
    if number > u32::MAX as usize {
        return Err(AllocError);
    }
    Ok(number as u32)
}

impl CompactPiece {
    /// A piece in little memory: its class, where it begins, and its length. Neither may be 2^32 or more, which counts as want of memory.
    pub fn new(class: Class, start: usize, len: usize) -> Result<CompactPiece, AllocError>
        ensures fits { IfOk result (λ made. made ≡ record { class = class; span = record { start = start; end = len + start } }) }
        ensures refused { IfErr result (λ _. (2 ^ 32 ≤ start) ⊎ (2 ^ 32 ≤ len)) }
    {
        let start = short_number(start)?;
        let len = short_number(len)?;
        Ok(CompactPiece { class, start, len })
    }

    /// The piece moved to another offset. One of 2^32 or more does not fit, which counts as want of memory.
    pub fn starting_at(&self, start: usize) -> Result<CompactPiece, AllocError>
        ensures class { IfOk result (λ moved. moved.class ≡ self.now.class) }
        ensures start { IfOk result (λ moved. moved.span.start ≡ start) }
        ensures end { IfOk result (λ moved. moved.span.end ≡ (self.now.span.end - self.now.span.start) + start) }
        ensures refused { IfErr result (λ _. 2 ^ 32 ≤ start) }
    {
        let start = short_number(start)?;
        Ok(CompactPiece {
            class: self.class,
            start,
            len: self.len,
        })
    }

    /// The class of the piece.
    pub fn class(&self) -> Class
        ensures { result ≡ self.now.class }
    {
        self.class
    }

    /// The offset at which the piece begins.
    pub fn start(&self) -> usize
        ensures { result ≡ self.now.span.start }
    {
        self.start as usize
    }

    /// The offset at which the piece ends.
    pub fn end(&self) -> usize
        ensures { result ≡ self.now.span.end }
    {
        self.start as usize + self.len as usize
    }

    /// The span of the piece.
    pub fn span(&self) -> Span
        ensures { result ≡ self.now.span }
    {
        Span {
            start: self.start(),
            end: self.end(),
        }
    }

    /// The piece itself.
    pub fn piece(&self) -> Piece
        ensures { result ≡ self.now }
    {
        Piece {
            class: self.class,
            span: self.span(),
        }
    }
}
