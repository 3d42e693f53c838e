//! Parses interfaces: the methods that they ask for.
ghost use Rattle.std.specs.Prelude.{◌∷◌, ◌++◌, [], IfOk};
ghost use Rattle.go_ast.specs.Grammar.{A, One, Opening, Close, is, Methods, Params, Result};
ghost use Rattle.go_parser.specs.Parsing.{Parses};
ghost use Rattle.go_ast.specs.Flatten.{sign};
ghost use Rattle.go_ast.specs.View.{list_view};
ghost use Rattle.go_ast.specs.FileView.{body_view, method_view};
ghost use Rattle.go_parser.specs.Spelling.{body_spelled, method_spelled};
ghost use Rattle.go_parser.specs.ListSpelling.{items_spelled};
ghost use Rattle.go_ast.specs.WellFormed.{IsOpenList, IsBody, IsMethodSpec};

use crate::functions::{params, results};
use crate::short_lists::push;
use crate::tokens::{Parsed, expect, goes_on, open, separator};
use go_ast::syntax::{Kind, Token};
use go_ast::tree::{Item, MethodSpec, TypeBody};
use std::alloc::Global;

/// Parses an interface.
pub(crate) fn interface_body(alloc: Global, tokens: &[Token], depth: u32) -> Parsed<'_, TypeBody>
    ensures exact { Parses (One (is Kind.Interface) ∷ Opening (is Kind.LeftBrace) ∷ A Methods ∷ Close ∷ []) (λ x. body_spelled x.0) (λ x. x.1.now) depth tokens.now result }
    ensures formed { IfOk result (λ x. IsBody (body_view x.0)) }
{
    let (at, rest) = expect(tokens, Kind::Interface, depth)?;
    let ((open, inside), rest) = open(rest, Kind::LeftBrace, depth)?;
    let ((methods, close), rest) = methods(alloc, rest, inside)?;
    let body = TypeBody::Interface {
        at,
        open,
        methods,
        close,
    };
    Ok((body, rest))
}

/// Parses the methods of an interface and its closing brace.
fn methods(alloc: Global, tokens: &[Token], depth: u32) -> Parsed<'_, (Vec<Item<MethodSpec>>, u32)>
    ensures exact { Parses (A Methods ∷ []) (λ x. items_spelled Kind.Semicolon method_spelled x.0.0.items ++ (sign Kind.RightBrace x.0.1 ∷ [])) (λ x. x.1.now) depth tokens.now result }
    ensures formed { IfOk result (λ x. IsOpenList IsMethodSpec (list_view method_view x.0.0.items)) }
{
    let mut methods = Vec::new(alloc);
    let mut rest = tokens;
    let mut more = true;
    'methods: while goes_on(more, rest, Kind::RightBrace) {
        let (value, after) = method(alloc, rest, depth)?;
        let (separator, after) = separator(after, Kind::Semicolon);
        more = separator.is_some();
        push(&mut methods, Item { value, separator })?;
        rest = after;
    }
    let (close, rest) = expect(rest, Kind::RightBrace, depth)?;
    Ok(((methods, close), rest))
}

/// Parses a method that an interface asks for.
fn method(alloc: Global, tokens: &[Token], depth: u32) -> Parsed<'_, MethodSpec>
    ensures exact { Parses (One (is Kind.Name) ∷ Opening (is Kind.LeftParen) ∷ A Params ∷ Close ∷ A Result ∷ []) (λ x. method_spelled x.0) (λ x. x.1.now) depth tokens.now result }
    ensures formed { IfOk result (λ x. IsMethodSpec (method_view x.0)) }
{
    let (name, rest) = expect(tokens, Kind::Name, depth)?;
    let ((open, inside), rest) = open(rest, Kind::LeftParen, depth)?;
    let ((params, close), rest) = params(alloc, rest, inside)?;
    let (results, rest) = results(alloc, rest, depth)?;
    let method = MethodSpec {
        name,
        open,
        params,
        close,
        results,
    };
    Ok((method, rest))
}
