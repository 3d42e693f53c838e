//! A file's text with its tokens.
ghost use Rattle.std.specs.Prelude.{◌≡◌, ◌<◌, ◌≤◌, ◌-◌, length, take, drop, IfOk};
ghost use Rattle.go_scanner.specs.Cuts.{IsCut, bytes_of};
ghost use Rattle.go_scanner.specs.TokenValues.{HasTokenValue};
ghost use Rattle.go_scanner.specs.Spans.{IsTokenText, AreTokensInOrder};
ghost use Rattle.go_scanner.specs.CutText.{HasTokens, IsCutText, token_at, tokens_in};

use crate::compact_piece::CompactPiece;
use crate::piece::{Class, Piece};
use crate::string_values::string_value;
use crate::trail::{Trail, pieces_of};
use base_files::{FileText, Span};
use std::alloc::{AllocError, Global};
use std::marker::Model;

/// A file's text with its tokens, inserted semicolons included. Its pieces follow from the text, so only proofs keep them.
#[derive(Drop)]
pub struct Pieces {
    file: FileText,
    pieces: Trail<Piece>,
    tokens: Vec<CompactPiece>,
}

impl Model for Pieces {
    ghost use Rattle.go_scanner.specs.CutText.{CutText, IsCutText};

    ghost Value = { CutText };

    ghost view = { λ a. record { text = a.file; pieces = a.pieces.items } };

    ghost invariant = { λ a. IsCutText a.file a.pieces.items a.tokens.items };
}

/// The bytes of a span.
fn part(text: &[u8], span: Span) -> &[u8]
    requires order { span.start ≤ span.end }
    requires fits { span.end ≤ length text.now }
    ensures { result.now ≡ take (span.end - span.start) (drop span.start text.now) }
{
    &text[span.start..span.end]
}

impl Pieces {
    /// Joins a file with its tokens, where others than `scan` know them.
    pub fn of_tokens(file: FileText, tokens: Vec<CompactPiece>) -> Pieces
        requires { HasTokens file tokens.items }
        ensures text { result.text ≡ file }
        ensures cut { IsCut result.text result.pieces }
        ensures tokens { tokens_in result ≡ tokens.items }
    {
        let pieces = pieces_of(&file, &tokens);
        Pieces::new(file, pieces, tokens)
    }

    /// Joins a file with its pieces and tokens.
    pub(crate) fn new(file: FileText, pieces: Trail<Piece>, tokens: Vec<CompactPiece>) -> Pieces
        requires { IsCutText file pieces.items tokens.items }
        ensures { result ≡ record { text = file; pieces = pieces.items } }
    {
        Pieces {
            file,
            pieces,
            tokens,
        }
    }

    /// The text that was cut.
    pub fn file(&self) -> &FileText
        ensures text { result.now ≡ self.now.text }
        ensures cut { IsCut self.now.text self.now.pieces }
    {
        &self.file
    }

    /// The tokens in order. An inserted semicolon is empty and lies at the end of the token before it.
    pub fn tokens(&self) -> &[CompactPiece]
        ensures tokens { result.now ≡ tokens_in self.now }
        ensures order { AreTokensInOrder self.now.text (tokens_in self.now) }
    {
        &self.tokens
    }

    /// The bytes of the token of this index, from 0. An inserted semicolon has none.
    pub fn text(&self, token: usize) -> &[u8]
        requires { token < length (tokens_in self.now) }
        ensures bytes { result.now ≡ bytes_of self.now.text (token_at self.now token) }
        ensures class { IsTokenText (token_at self.now token).class result.now }
    {
        let span = self.tokens[token].span();
        part(self.file.bytes(), span)
    }

    /// The value of the token of this index, from 0, where it is a string literal, else `None`.
    pub fn string_value(&self, alloc: Global, token: usize) -> Result<Option<Vec<u8>>, AllocError>
        requires { token < length (tokens_in self.now) }
        ensures { IfOk result (HasTokenValue (token_at self.now token).class (bytes_of self.now.text (token_at self.now token))) }
    {
        match self.tokens[token].class() {
            Class::InterpretedString | Class::RawString => {
                let value = string_value(alloc, self.text(token))?;
                Ok(Some(value))
            }
            _ => Ok(None),
        }
    }
}
