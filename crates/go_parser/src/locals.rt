//! Parses declarations of local variables.
ghost use Rattle.std.specs.Prelude.{◌∷◌, ◌++◌, [], false, IfOk};
ghost use Rattle.go_ast.specs.Grammar as grammar;
ghost use Rattle.go_ast.specs.Grammar.{A, One, is, Expressions, LocalRest, LocalValues};
ghost use Rattle.go_parser.specs.Parsing.{Parses};
ghost use Rattle.go_ast.specs.Flatten.{tokens_if, value_tokens, type_tokens, expr_tokens};
ghost use Rattle.go_ast.specs.View.{option_view, type_view, exprs_view};
ghost use Rattle.go_ast.specs.FileView.{values_view, local_view};
ghost use Rattle.go_parser.specs.Spelling.{local_spelled};
ghost use Rattle.go_ast.specs.WellFormed.{IsList, IsNoneOr, IsExprIn, IsLocal};
ghost use Rattle.go_parser.specs.Listed.{HasTypeOrValues};

use crate::groups::Spec;
use crate::names::idents;
use crate::simple::exprs;
use crate::token_classes::Setting;
use crate::tokens::{Parsed, at, expect};
use crate::types::type_expr;
use go_ast::syntax::{Kind, Token};
use go_ast::tree::{LocalSpec, TypeExpr, Values};
use std::alloc::Global;

impl Spec for LocalSpec {
    ghost item = { grammar.LocalItem };

    ghost spelled = { λ x. local_spelled x };

    ghost is_formed = { λ x. IsLocal (local_view x) };

    /// Parses local variables: identifiers with a type, values, or both.
    fn parse(alloc: Global, tokens: &[Token], depth: u32) -> Parsed<'_, LocalSpec> {
        let (names, rest) = idents(alloc, tokens, depth)?;
        let ((local_type, values), rest) = type_or_values(alloc, rest, depth)?;
        let spec = LocalSpec {
            names,
            local_type,
            values,
        };
        Ok((spec, rest))
    }
}

/// Parses the type and the values of local variables, or one of the two.
fn type_or_values(
    alloc: Global,
    tokens: &[Token],
    depth: u32,
) -> Parsed<'_, (Option<TypeExpr>, Option<Values>)>
    ensures exact { Parses (A LocalRest ∷ []) (λ x. tokens_if type_tokens (option_view type_view x.0.0) ++ tokens_if (value_tokens expr_tokens) (option_view values_view x.0.1)) (λ x. x.1.now) depth tokens.now result }
    ensures formed { IfOk result (λ x. HasTypeOrValues x.0.0 x.0.1) }
{
    if at(tokens, Kind::Assign) {
        let (only_values, rest) = values(alloc, tokens, depth)?;
        return Ok(((None, Some(only_values)), rest));
    }
    let (local_type, rest) = type_expr(alloc, tokens, depth)?;
    let (values, rest) = optional_values(alloc, rest, depth)?;
    Ok(((Some(local_type), values), rest))
}

/// Parses the values of local variables after their type, if there are any.
fn optional_values(alloc: Global, tokens: &[Token], depth: u32) -> Parsed<'_, Option<Values>>
    ensures exact { Parses (A LocalValues ∷ []) (λ x. tokens_if (value_tokens expr_tokens) (option_view values_view x.0)) (λ x. x.1.now) depth tokens.now result }
    ensures formed { IfOk result (λ x. IsNoneOr (λ v. IsList (IsExprIn false) v.1) (option_view values_view x.0)) }
{
    if !at(tokens, Kind::Assign) {
        return Ok((None, tokens));
    }
    let (values, rest) = values(alloc, tokens, depth)?;
    Ok((Some(values), rest))
}

/// Parses `=` and the values of local variables.
fn values(alloc: Global, tokens: &[Token], depth: u32) -> Parsed<'_, Values>
    ensures exact { Parses (One (is Kind.Assign) ∷ A (Expressions false) ∷ []) (λ x. value_tokens expr_tokens (values_view x.0)) (λ x. x.1.now) depth tokens.now result }
    ensures formed { IfOk result (λ x. IsList (IsExprIn false) (exprs_view x.0.values.items)) }
{
    let (assign, rest) = expect(tokens, Kind::Assign, depth)?;
    let (values, rest) = exprs(alloc, rest, depth, Setting::Plain)?;
    Ok((Values { assign, values }, rest))
}
