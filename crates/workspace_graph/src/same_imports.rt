//! Decides whether two files import the same paths by the same literals.
ghost use Rattle.std.specs.Prelude.{◌≡◌, IfOk, IsTrue, slice_get};
ghost use Rattle.std.specs.List.{All};
ghost use Rattle.go_scanner.specs.CutText.{tokens_in};
ghost use Rattle.go_scanner.specs.TokenValues.{IsStringClass};
ghost use Rattle.go_ast.specs.SourceFile.{source_of};
ghost use Rattle.workspace_graph.specs.SameImports.{AreAlikeAt, ImportSamePaths};

use crate::file_imports::import_literals;
use go_ast::FileTree;
use go_scanner::{Class, Piece};
use std::alloc::{AllocError, Global};

/// The token of that index, if there is one.
fn token_of(file: &FileTree, token: usize) -> Option<Piece>
    ensures { result ≡ slice_get (tokens_in file.now.cut) token }
{
    let piece = file.pieces().tokens().get(token)?;
    Some(piece.piece())
}

/// Whether a token is a string literal.
fn is_string(token: Piece) -> bool
    ensures { IsTrue result → IsStringClass token.class }
{
    matches!(token.class, Class::InterpretedString | Class::RawString)
}

/// Whether both tokens are string literals.
fn are_strings(one: Piece, other: Piece) -> bool
    ensures one { IsTrue result → IsStringClass one.class }
    ensures other { IsTrue result → IsStringClass other.class }
{
    is_string(one) && is_string(other)
}

/// Whether both have the same bytes.
fn have_same_bytes(one: &[u8], other: &[u8]) -> bool
    ensures { IsTrue result → one.now ≡ other.now }
{
    one == other
}

/// Whether both files have a string literal at that index, with the same bytes.
fn are_alike_at(one: &FileTree, other: &FileTree, token: usize) -> bool
    ensures { IsTrue result → AreAlikeAt (source_of one.now) (source_of other.now) token }
{
    let Some(first) = token_of(one, token) else {
        return false;
    };
    let Some(second) = token_of(other, token) else {
        return false;
    };
    are_strings(first, second) && have_same_bytes(one.spelling(token), other.spelling(token))
}

/// Whether both files have such literals at each of the indices.
fn are_all_alike(one: &FileTree, other: &FileTree, tokens: &[usize]) -> bool
    ensures { IsTrue result → All (AreAlikeAt (source_of one.now) (source_of other.now)) tokens.now }
{
    tokens.iter().all(|token| are_alike_at(one, other, *token))
}

/// Whether both lists have the same token indices.
fn are_equal(one: &[usize], other: &[usize]) -> bool
    ensures { IsTrue result → one.now ≡ other.now }
{
    one == other
}

/// Whether both files have the same import literals at the same token indices, and so import the same paths. False may be wrong.
pub(crate) fn import_alike(
    alloc: Global,
    one: &FileTree,
    other: &FileTree,
) -> Result<bool, AllocError>
    ensures { IfOk result (λ alike. IsTrue alike → ImportSamePaths (source_of one.now) (source_of other.now)) }
{
    let literals = import_literals(alloc, one.file())?;
    let others = import_literals(alloc, other.file())?;
    if !are_equal(&literals, &others) {
        return Ok(false);
    }
    Ok(are_all_alike(one, other, &literals))
}
