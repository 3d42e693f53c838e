//! Parses the signature of a function: its receiver, parameters and results.
ghost use Rattle.std.specs.Prelude.{◌∷◌, ◌++◌, [], IfOk};
ghost use Rattle.go_ast.specs.Grammar as grammar;
ghost use Rattle.go_ast.specs.Grammar.{A, One, Opening, Close, is, is_ident, FuncHead, Signature, ReceiverStar, ReceiverEnd, MoreIdents, TypeUse, Params, Result, Types};
ghost use Rattle.go_parser.specs.Parsing.{Parses, LeadsTo};
ghost use Rattle.go_ast.specs.Flatten.{sign, tokens_if, receiver_tokens};
ghost use Rattle.go_ast.specs.View.{option_view, list_view, type_view};
ghost use Rattle.go_ast.specs.FileView.{receiver_view, param_view, results_view};
ghost use Rattle.go_parser.specs.Spelling.{type_spelled, receiver_spelled, param_spelled, results_spelled};
ghost use Rattle.go_parser.specs.ListSpelling.{items_spelled};
ghost use Rattle.go_ast.specs.WellFormed.{IsOpenList, Any, IsParam, IsResult};

use crate::names::idents;
use crate::short_lists::push;
use crate::token_classes::{begins_type, ident};
use crate::tokens::{Parsed, at, expect, goes_on, open, separator};
use crate::types::type_expr;
use go_ast::syntax::{Kind, Token};
use go_ast::tree::{Item, Param, Receiver, Results, TypeExpr};
use std::alloc::Global;

/// Parses the receiver of a method, if there is one. A function's name follows.
pub(crate) fn optional_receiver(tokens: &[Token], depth: u32) -> Parsed<'_, Option<Receiver>>
    ensures { LeadsTo (A FuncHead ∷ []) (One (is Kind.Name) ∷ A Signature ∷ []) (λ x. tokens_if receiver_tokens (option_view receiver_view x.0)) (λ x. x.1.now) depth tokens.now result }
{
    if !at(tokens, Kind::LeftParen) {
        return Ok((None, tokens));
    }
    let (receiver, rest) = receiver(tokens, depth)?;
    Ok((Some(receiver), rest))
}

/// Parses the receiver of a method.
fn receiver(tokens: &[Token], depth: u32) -> Parsed<'_, Receiver>
    ensures { Parses (Opening (is Kind.LeftParen) ∷ One is_ident ∷ A ReceiverStar ∷ One (is Kind.Name) ∷ A ReceiverEnd ∷ Close ∷ []) (λ x. receiver_spelled x.0) (λ x. x.1.now) depth tokens.now result }
{
    let ((open, inside), rest) = open(tokens, Kind::LeftParen, depth)?;
    let (ident, rest) = ident(rest, inside)?;
    let (star, rest) = separator(rest, Kind::Star);
    let (type_name, rest) = expect(rest, Kind::Name, inside)?;
    let (comma, rest) = separator(rest, Kind::Comma);
    let (close, rest) = expect(rest, Kind::RightParen, inside)?;
    let receiver = Receiver {
        open,
        ident,
        star,
        type_name,
        comma,
        close,
    };
    Ok((receiver, rest))
}

/// Parses the parameters of a function and the closing parenthesis.
pub(crate) fn params(
    alloc: Global,
    tokens: &[Token],
    depth: u32,
) -> Parsed<'_, (Vec<Item<Param>>, u32)>
    ensures exact { Parses (A Params ∷ []) (λ x. items_spelled Kind.Comma param_spelled x.0.0.items ++ (sign Kind.RightParen x.0.1 ∷ [])) (λ x. x.1.now) depth tokens.now result }
    ensures formed { IfOk result (λ x. IsOpenList IsParam (list_view param_view x.0.0.items)) }
{
    let mut params = Vec::new(alloc);
    let mut rest = tokens;
    let mut more = true;
    'params: while goes_on(more, rest, Kind::RightParen) {
        let (value, after) = param(alloc, rest, depth)?;
        let (separator, after) = separator(after, Kind::Comma);
        more = separator.is_some();
        push(&mut params, Item { value, separator })?;
        rest = after;
    }
    let (close, rest) = expect(rest, Kind::RightParen, depth)?;
    Ok(((params, close), rest))
}

/// Parses parameters of one type.
fn param(alloc: Global, tokens: &[Token], depth: u32) -> Parsed<'_, Param>
    ensures exact { Parses (One is_ident ∷ A MoreIdents ∷ A TypeUse ∷ []) (λ x. param_spelled x.0) (λ x. x.1.now) depth tokens.now result }
    ensures formed { IfOk result (λ x. IsParam (param_view x.0)) }
{
    let (names, rest) = idents(alloc, tokens, depth)?;
    let (param_type, rest) = type_expr(alloc, rest, depth)?;
    Ok((Param { names, param_type }, rest))
}

/// Parses the results of a function: none, one type, or types in parentheses.
pub(crate) fn results(alloc: Global, tokens: &[Token], depth: u32) -> Parsed<'_, Results>
    ensures exact { Parses (A Result ∷ []) (λ x. results_spelled x.0) (λ x. x.1.now) depth tokens.now result }
    ensures formed { IfOk result (λ x. IsResult (results_view x.0)) }
{
    if at(tokens, Kind::LeftParen) {
        let ((open, inside), rest) = open(tokens, Kind::LeftParen, depth)?;
        let ((types, close), rest) = result_types(alloc, rest, inside)?;
        return Ok((Results::Several { open, types, close }, rest));
    }
    if !begins_type(tokens) {
        return Ok((Results::None, tokens));
    }
    let (single, rest) = type_expr(alloc, tokens, depth)?;
    Ok((Results::Single(single), rest))
}

/// Parses the types of results in parentheses and the closing parenthesis.
fn result_types(
    alloc: Global,
    tokens: &[Token],
    depth: u32,
) -> Parsed<'_, (Vec<Item<TypeExpr>>, u32)>
    ensures exact { Parses (A Types ∷ []) (λ x. items_spelled Kind.Comma type_spelled x.0.0.items ++ (sign Kind.RightParen x.0.1 ∷ [])) (λ x. x.1.now) depth tokens.now result }
    ensures formed { IfOk result (λ x. IsOpenList Any (list_view type_view x.0.0.items)) }
{
    let mut types = Vec::new(alloc);
    let mut rest = tokens;
    let mut more = true;
    'types: while goes_on(more, rest, Kind::RightParen) {
        let (value, after) = type_expr(alloc, rest, depth)?;
        let (separator, after) = separator(after, Kind::Comma);
        more = separator.is_some();
        push(&mut types, Item { value, separator })?;
        rest = after;
    }
    let (close, rest) = expect(rest, Kind::RightParen, depth)?;
    Ok(((types, close), rest))
}
