//! The edits of a rename at places of one file, each found by its offset.
ghost use Rattle.std.specs.Prelude.{◌≡◌, ◌↔◌, Contains, IfOk, IsTrue, MatchOption, OnOk};
ghost use Rattle.std.specs.List.Sorted.{IsStrictlySortedBy};
ghost use Rattle.std.specs.Ordering.{nat_cmp};
ghost use Rattle.go_scanner.specs.declared.piece.Class.TheVariants.{Name};
ghost use Rattle.go_scanner.specs.declared.piece.Piece.{Piece as Token};
ghost use Rattle.go_scanner.specs.Spans.{starts};
ghost use Rattle.go_ast.specs.SourceFile.{source_of};
ghost use Rattle.refactor_rename.specs.FileEdits.{AppendsEdit};
ghost use Rattle.refactor_rename.specs.Here.{OffsetsRise, ReplacesAt, AreReplacements};

use base_edits::Edit;
use base_files::{FileText, Place};
use go_ast::FileTree;
use go_scanner::{Class, CompactPiece, Piece};
use std::alloc::{AllocError, Global};

/// Returns the token that begins at an offset.
fn token_at(tokens: &[CompactPiece], offset: usize) -> Option<Piece>
    requires { IsStrictlySortedBy nat_cmp (starts tokens.now) }
    ensures { MatchOption result ((t : Token) → Contains tokens.now t → t.span.start ≡ offset → ⊥) (λ t. Contains tokens.now t × (t.span.start ≡ offset)) }
{
    match tokens.binary_search_by(|token| token.start().cmp(&offset)) {
        Ok(number) => Some(tokens[number].piece()),
        Err(_) => None,
    }
}

/// Whether a token is an identifier.
pub(crate) fn is_identifier(token: Piece) -> bool
    ensures { IsTrue result ↔ (token.class ≡ Name) }
{
    match token.class {
        Class::Name => true,
        _ => false,
    }
}

/// Appends the replacement by a name of the identifier that begins at an offset, if one does.
fn add_replacement(
    edits: &mut Vec<Edit>,
    tokens: &[CompactPiece],
    offset: usize,
    name: &FileText,
) -> Result<(), AllocError>
    requires { IsStrictlySortedBy nat_cmp (starts tokens.now) }
    ensures { OnOk result (AppendsEdit (ReplacesAt tokens.now name.now offset) edits.old.items edits.new.items) }
{
    match token_at(tokens, offset) {
        None => Ok(()),
        Some(token) => {
            if is_identifier(token) {
                let text = name.clone()?;
                edits.push(Edit {
                    span: token.span,
                    text,
                })?;
            }
            Ok(())
        }
    }
}

/// Returns the edits that replace the identifiers at places of a file by a name.
pub(crate) fn replacements(
    alloc: Global,
    file: &FileTree,
    here: &[Place],
    name: &FileText,
) -> Result<Vec<Edit>, AllocError>
    requires { OffsetsRise here.now }
    ensures { IfOk result (λ edits. AreReplacements (source_of file.now) name.now here.now edits.items) }
{
    let tokens = file.pieces().tokens();
    let mut edits = Vec::with_capacity(alloc, here.len())?;
    for k in 0..here.len() {
        add_replacement(&mut edits, tokens, here[k].offset, name)?;
    }
    Ok(edits)
}
