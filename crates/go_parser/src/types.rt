//! Parses types.
ghost use Rattle.std.specs.Prelude.{◌≡◌, ◌∷◌, [], true, IfOk};
ghost use Rattle.go_ast.specs.Grammar.{A, TypeUse, AfterTypeName, One, is, slice_type};
ghost use Rattle.go_parser.specs.Parsing.{Parses};
ghost use Rattle.go_parser.specs.Spelling.{type_spelled};
ghost use Rattle.go_ast.specs.View.{type_view};
ghost use Rattle.go_parser.specs.Grouping.{is_literal_type, is_slice};

use crate::tokens::{Parsed, at, expect, open};
use go_ast::syntax::{Kind, Token};
use go_ast::tree::TypeExpr;
use std::alloc::Global;

/// Parses the name of a type: `T` or `p.T`.
pub(crate) fn type_name(tokens: &[Token], depth: u32) -> Parsed<'_, TypeExpr>
    ensures exact { Parses (One (is Kind.Name) ∷ A AfterTypeName ∷ []) (λ x. type_spelled x.0) (λ x. x.1.now) depth tokens.now result }
    ensures named { IfOk result (λ x. is_literal_type (type_view x.0) ≡ true) }
{
    let (first, rest) = expect(tokens, Kind::Name, depth)?;
    if !at(rest, Kind::Dot) {
        return Ok((TypeExpr::Local(first), rest));
    }
    let (dot, rest) = expect(rest, Kind::Dot, depth)?;
    let (name, rest) = expect(rest, Kind::Name, depth)?;
    let package = first;
    Ok((TypeExpr::Imported { package, dot, name }, rest))
}

/// Parses a type.
#[cycle(types)]
pub(crate) fn type_expr(alloc: Global, tokens: &[Token], depth: u32) -> Parsed<'_, TypeExpr>
    ensures { Parses (A TypeUse ∷ []) (λ x. type_spelled x.0) (λ x. x.1.now) depth tokens.now result }
{
    if at(tokens, Kind::Star) {
        let ((star, inside), rest) = open(tokens, Kind::Star, depth)?;
        let (target, rest) = type_expr(alloc, rest, inside)?;
        let target = Box::new(alloc, target)?;
        return Ok((TypeExpr::Pointer { star, target }, rest));
    }
    if at(tokens, Kind::LeftBracket) {
        return slice_type(alloc, tokens, depth);
    }
    type_name(tokens, depth)
}

/// Parses a slice type `[]T`.
#[cycle(types)]
pub(crate) fn slice_type(alloc: Global, tokens: &[Token], depth: u32) -> Parsed<'_, TypeExpr>
    ensures exact { Parses (slice_type []) (λ x. type_spelled x.0) (λ x. x.1.now) depth tokens.now result }
    ensures slice { IfOk result (λ x. is_slice (type_view x.0) ≡ true) }
{
    let ((open, inside), rest) = open(tokens, Kind::LeftBracket, depth)?;
    let (close, rest) = expect(rest, Kind::RightBracket, inside)?;
    let (element, rest) = type_expr(alloc, rest, inside)?;
    let element = Box::new(alloc, element)?;
    let slice = TypeExpr::Slice {
        open,
        close,
        element,
    };
    Ok((slice, rest))
}
