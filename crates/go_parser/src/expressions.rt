//! Parses expressions.
ghost use Rattle.std.specs.Prelude.{◌≡◌, ◌≢◌, ◌∷◌, ◌≤◌, ◌<◌, ◌+◌, ◌++◌, [], Bool, ℕ, length, true, false, IfOk, is_some};
ghost use Rattle.go_ast.specs.Grammar.{A, Expression, Unary, Binaries, Links, Arguments, Address, Elements, ElementList, slice_type, is};
ghost use Rattle.go_ast.specs.Grammar as grammar;
ghost use Rattle.go_parser.specs.Machine.{at};
ghost use Rattle.go_parser.specs.Parsing.{Parses, LeadsTo, LeadsBy, Continues, ContinuesTo, list_rest};
ghost use Rattle.go_ast.specs.Flatten.{sign, all_tokens};
ghost use Rattle.go_parser.specs.Spelling.{type_spelled, expr_spelled, literal_spelled, link_spelled, operand_spelled, expr_item_spelled, element_spelled};
ghost use Rattle.go_parser.specs.Strength.{strength_at};
ghost use Rattle.go_ast.specs.View.{type_view, expr_view, literal_view};
ghost use Rattle.go_ast.specs.WellFormed.{strength_of, IsExpr, IsExprIn, IsLiteral};
ghost use Rattle.go_parser.specs.Grouping.{Each, IsUnary, IsOperand, IsOperandOf, IsBinaryOf, IsLiteralIn, IsLink, AreItems, is_literal_type, literal_type_of};

use crate::lookahead::{begins_key, begins_link, literal_is_named, type_is_named};
use crate::operators::{at_leaf, at_prefix, binary_operator, leaf, open_prefix, strength_at};
use crate::short_lists::push;
use crate::tokens::{Parsed, at, expect, goes_on, open, separator};
use crate::types::{slice_type, type_name};
use go_ast::syntax::{Kind, Token};
use go_ast::tree::{CompositeLit, Element, Expr, ExprItem, Key, Link, Operand, TypeExpr};
use std::alloc::{AllocError, Global};

/// Parses an expression. In the header of an `if` or a `for`, outside brackets, no composite literal begins with a name.
#[cycle(expression)]
pub(crate) fn expression(
    alloc: Global,
    tokens: &[Token],
    depth: u32,
    header: bool,
) -> Parsed<'_, Expr>
    ensures exact { Parses (A (Expression header) ∷ []) (λ x. expr_spelled x.0) (λ x. x.1.now) depth tokens.now result }
    ensures grouped { IfOk result (λ x. IsExprIn header (expr_view x.0)) }
{
    binary(alloc, tokens, depth, header, 1)
}

/// Parses an operand with the binary operators of precedence `strength` or higher that follow it. A `strength` of 6 takes none.
#[cycle(expression)]
fn binary(
    alloc: Global,
    tokens: &[Token],
    depth: u32,
    header: bool,
    strength: u32,
) -> Parsed<'_, Expr>
    requires least { 1 ≤ strength }
    requires most { strength ≤ 6 }
    ensures exact { LeadsTo (A (Unary header) ∷ A (Binaries header) ∷ []) (A (Binaries header) ∷ []) (λ x. expr_spelled x.0) (λ x. x.1.now) depth tokens.now result }
    ensures ends { IfOk result (λ x. strength_at x.1.now < strength) }
    ensures grouped { IfOk result (λ x. IsExprIn header (expr_view x.0)) }
    ensures strong { IfOk result (λ x. strength ≤ strength_of (expr_view x.0)) }
{
    let (first, rest) = unary(alloc, tokens, depth, header)?;
    if strength_at(rest) < strength {
        return Ok((first, rest));
    }
    binary_rest(alloc, first, rest, depth, header, strength)
}

/// Parses the binary operators of precedence `strength` or higher that follow `first`, with their operands. Those of the highest precedence
/// come first, so what follows them is of a lower one.
#[cycle(expression)]
fn binary_rest(
    alloc: Global,
    first: Expr,
    tokens: &[Token],
    depth: u32,
    header: bool,
    strength: u32,
) -> Parsed<'_, Expr>
    requires least { 1 ≤ strength }
    requires formed { IsExprIn header (expr_view first) }
    requires weaker { strength_at tokens.now < strength_of (expr_view first) }
    requires strong { strength ≤ strength_of (expr_view first) }
    ensures exact { ContinuesTo (A (Binaries header) ∷ []) (A (Binaries header) ∷ []) (expr_spelled first) (λ x. expr_spelled x.0) (λ x. x.1.now) depth tokens.now result }
    ensures ends { IfOk result (λ x. strength_at x.1.now < strength) }
    ensures grouped { IfOk result (λ x. IsExprIn header (expr_view x.0)) }
    ensures strong { IfOk result (λ x. strength ≤ strength_of (expr_view x.0)) }
{
    let next = strength_at(tokens);
    if next < strength {
        return Ok((first, tokens));
    }
    let (whole, rest) = binary_level(alloc, first, tokens, depth, header, next)?;
    binary_rest(alloc, whole, rest, depth, header, strength)
}

/// Parses the binary operators of one precedence that follow `first`, with their operands.
#[cycle(expression)]
fn binary_level(
    alloc: Global,
    first: Expr,
    tokens: &[Token],
    depth: u32,
    header: bool,
    strength: u32,
) -> Parsed<'_, Expr>
    requires least { 1 ≤ strength }
    requires next { strength_at tokens.now ≡ strength }
    requires formed { IsExprIn header (expr_view first) }
    requires stronger { strength < strength_of (expr_view first) }
    ensures exact { ContinuesTo (A (Binaries header) ∷ []) (A (Binaries header) ∷ []) (expr_spelled first) (λ x. expr_spelled x.0) (λ x. x.1.now) depth tokens.now result }
    ensures ends { IfOk result (λ x. strength_at x.1.now < strength) }
    ensures grouped { IfOk result (λ x. IsBinaryOf header strength (expr_view x.0)) }
    ensures shorter { IfOk result (λ x. length x.1.now < length tokens.now) }
{
    let mut operands = Vec::new(alloc);
    let mut rest = tokens;
    'operators: while strength_at(rest) == strength {
        let ((op, at), after) = binary_operator(rest, depth)?;
        let (value, after) = binary(alloc, after, depth, header, strength + 1)?;
        push(&mut operands, Operand { op, at, value })?;
        rest = after;
    }
    let whole = joined(alloc, first, operands)?;
    Ok((whole, rest))
}

/// The binary expression of a first operand and those that follow it. A name needs no box.
fn joined(alloc: Global, first: Expr, operands: Vec<Operand>) -> Result<Expr, AllocError>
    ensures tokens { IfOk result (λ whole. expr_spelled whole ≡ expr_spelled first ++ all_tokens operand_spelled operands.items) }
    ensures grouped { IfOk result (λ whole. (h : Bool) (k : ℕ) → IsExprIn h (expr_view first) → k < strength_of (expr_view first) → Each (IsOperandOf h k) operands.items → operands.items ≢ [] → IsBinaryOf h k (expr_view whole)) }
{
    match first {
        Expr::Name(name) => Ok(Expr::NamedBinary {
            name,
            rest: operands,
        }),
        other => {
            let first = Box::new(alloc, other)?;
            Ok(Expr::Binary {
                first,
                rest: operands,
            })
        }
    }
}

/// Parses an operand with its prefix operators, selectors, indexes and calls.
#[cycle(expression)]
fn unary(alloc: Global, tokens: &[Token], depth: u32, header: bool) -> Parsed<'_, Expr>
    ensures exact { Parses (A (Unary header) ∷ []) (λ x. expr_spelled x.0) (λ x. x.1.now) depth tokens.now result }
    ensures grouped { IfOk result (λ x. IsUnary header (expr_view x.0)) }
{
    if at(tokens, Kind::Name) {
        return named(alloc, tokens, depth, header);
    }
    operand(alloc, tokens, depth, header)
}

/// Parses an operand that begins with a name: a composite literal or the name itself, and the links that follow.
#[cycle(expression)]
fn named(alloc: Global, tokens: &[Token], depth: u32, header: bool) -> Parsed<'_, Expr>
    requires { at (is Kind.Name) tokens.now ≡ true }
    ensures exact { Parses (A (Unary header) ∷ []) (λ x. expr_spelled x.0) (λ x. x.1.now) depth tokens.now result }
    ensures grouped { IfOk result (λ x. IsUnary header (expr_view x.0)) }
{
    if literal_is_named(tokens, header) {
        let (literal_type, rest) = type_name(tokens, depth)?;
        let (literal, rest) = literal(alloc, literal_type, rest, depth)?;
        return chain(alloc, Expr::Composite(literal), rest, depth, header);
    }
    let (name, rest) = expect(tokens, Kind::Name, depth)?;
    chain(alloc, Expr::Name(name), rest, depth, header)
}

/// Parses an operand that does not begin with a name.
#[cycle(expression)]
fn operand(alloc: Global, tokens: &[Token], depth: u32, header: bool) -> Parsed<'_, Expr>
    ensures exact { Parses (A (grammar.Operand header) ∷ []) (λ x. expr_spelled x.0) (λ x. x.1.now) depth tokens.now result }
    ensures grouped { IfOk result (λ x. IsUnary header (expr_view x.0)) }
{
    if at_prefix(tokens) {
        let ((op, at, inside), rest) = open_prefix(tokens, depth)?;
        let (inner, rest) = unary(alloc, rest, inside, header)?;
        let operand = Box::new(alloc, inner)?;
        return Ok((Expr::Prefix { op, at, operand }, rest));
    }
    if at(tokens, Kind::Ampersand) {
        let ((at, inside), rest) = open(tokens, Kind::Ampersand, depth)?;
        let (literal, rest) = addressed(alloc, rest, inside, header)?;
        return Ok((Expr::Address { at, literal }, rest));
    }
    if at_leaf(tokens) {
        let (first, rest) = leaf(tokens, depth)?;
        return chain(alloc, first, rest, depth, header);
    }
    if at(tokens, Kind::LeftParen) {
        let ((open, inside), rest) = open(tokens, Kind::LeftParen, depth)?;
        let (inner, rest) = expression(alloc, rest, inside, false)?;
        let (close, rest) = expect(rest, Kind::RightParen, inside)?;
        let inner = Box::new(alloc, inner)?;
        return chain(
            alloc,
            Expr::Paren { open, inner, close },
            rest,
            depth,
            header,
        );
    }
    let (literal_type, rest) = slice_type(alloc, tokens, depth)?;
    let (literal, rest) = literal(alloc, literal_type, rest, depth)?;
    chain(alloc, Expr::Composite(literal), rest, depth, header)
}

/// Parses the composite literal after a `&`.
#[cycle(expression)]
fn addressed(
    alloc: Global,
    tokens: &[Token],
    depth: u32,
    header: bool,
) -> Parsed<'_, Box<CompositeLit>>
    ensures exact { Parses (A (Address header) ∷ []) (λ x. literal_spelled x.0.value) (λ x. x.1.now) depth tokens.now result }
    ensures grouped { IfOk result (λ x. IsLiteralIn header (literal_view x.0.value)) }
{
    if type_is_named(tokens, header) {
        let (literal_type, rest) = type_name(tokens, depth)?;
        return literal(alloc, literal_type, rest, depth);
    }
    let (literal_type, rest) = slice_type(alloc, tokens, depth)?;
    literal(alloc, literal_type, rest, depth)
}

/// Parses the braces of a composite literal whose type has been parsed.
#[cycle(expression)]
fn literal(
    alloc: Global,
    literal_type: TypeExpr,
    tokens: &[Token],
    depth: u32,
) -> Parsed<'_, Box<CompositeLit>>
    requires { is_literal_type (type_view literal_type) ≡ true }
    ensures exact { Continues (A Elements ∷ []) (type_spelled literal_type) (λ x. literal_spelled x.0.value) (λ x. x.1.now) depth tokens.now result }
    ensures grouped { IfOk result (λ x. IsLiteral (literal_view x.0.value)) }
    ensures typed { IfOk result (λ x. literal_type_of (literal_view x.0.value) ≡ type_view literal_type) }
{
    let ((open, inside), start) = open(tokens, Kind::LeftBrace, depth)?;
    let mut elements = Vec::new(alloc);
    let mut rest = start;
    let mut more = true;
    'elements: while goes_on(more, rest, Kind::RightBrace) {
        let (element, after) = element(alloc, rest, inside)?;
        more = element.comma.is_some();
        push(&mut elements, element)?;
        rest = after;
    }
    let (close, rest) = expect(rest, Kind::RightBrace, inside)?;
    let literal = CompositeLit {
        literal_type,
        open,
        elements,
        close,
    };
    let boxed = Box::new(alloc, literal)?;
    Ok((boxed, rest))
}

/// Parses an element of a composite literal with its comma.
#[cycle(expression)]
fn element(alloc: Global, tokens: &[Token], depth: u32) -> Parsed<'_, Element>
    requires { at (is Kind.RightBrace) tokens.now ≡ false }
    ensures exact { LeadsBy (A ElementList ∷ []) (list_rest ElementList Kind.RightBrace) (λ x. x.0.comma) (λ x. element_spelled x.0) (λ x. x.1.now) depth tokens.now result }
    ensures grouped { IfOk result (λ x. IsExpr (expr_view x.0.value)) }
{
    if begins_key(tokens) {
        let (name, rest) = expect(tokens, Kind::Name, depth)?;
        let (colon, rest) = expect(rest, Kind::Colon, depth)?;
        let (value, rest) = expression(alloc, rest, depth, false)?;
        let (comma, rest) = separator(rest, Kind::Comma);
        let key = Some(Key { name, colon });
        return Ok((Element { key, value, comma }, rest));
    }
    let (value, rest) = expression(alloc, tokens, depth, false)?;
    let (comma, rest) = separator(rest, Kind::Comma);
    let key = None;
    Ok((Element { key, value, comma }, rest))
}

/// Parses the links that follow `first`. Without a link, the result is `first` itself.
#[cycle(expression)]
fn chain(alloc: Global, first: Expr, tokens: &[Token], depth: u32, header: bool) -> Parsed<'_, Expr>
    requires { IsOperand header (expr_view first) }
    ensures exact { Continues (A (Links header) ∷ []) (expr_spelled first) (λ x. expr_spelled x.0) (λ x. x.1.now) depth tokens.now result }
    ensures grouped { IfOk result (λ x. IsUnary header (expr_view x.0)) }
{
    let mut links = Vec::new(alloc);
    let mut rest = tokens;
    'links: while begins_link(rest) {
        let (next, after) = link(alloc, rest, depth, header)?;
        push(&mut links, next)?;
        rest = after;
    }
    if links.is_empty() {
        return Ok((first, rest));
    }
    let whole = chained(alloc, first, links)?;
    Ok((whole, rest))
}

/// The chain of an operand and the links that follow it. A name needs no box.
fn chained(alloc: Global, first: Expr, links: Vec<Link>) -> Result<Expr, AllocError>
    ensures tokens { IfOk result (λ whole. expr_spelled whole ≡ expr_spelled first ++ all_tokens link_spelled links.items) }
    ensures grouped { IfOk result (λ whole. (h : Bool) → IsOperand h (expr_view first) → Each IsLink links.items → links.items ≢ [] → IsUnary h (expr_view whole)) }
{
    match first {
        Expr::Name(name) => Ok(Expr::NamedChain { name, links }),
        other => {
            let first = Box::new(alloc, other)?;
            Ok(Expr::Chain { first, links })
        }
    }
}

/// Parses one selector, index or call.
#[cycle(expression)]
fn link(alloc: Global, tokens: &[Token], depth: u32, header: bool) -> Parsed<'_, Link>
    requires { at (is Kind.Dot) tokens.now ≡ false → at (is Kind.LeftBracket) tokens.now ≡ false → at (is Kind.LeftParen) tokens.now ≡ true }
    ensures exact { LeadsTo (A (Links header) ∷ []) (A (Links header) ∷ []) (λ x. link_spelled x.0) (λ x. x.1.now) depth tokens.now result }
    ensures shorter { IfOk result (λ x. length x.1.now < length tokens.now) }
    ensures grouped { IfOk result (λ x. IsLink x.0) }
{
    if at(tokens, Kind::Dot) {
        let (dot, rest) = expect(tokens, Kind::Dot, depth)?;
        let (name, rest) = expect(rest, Kind::Name, depth)?;
        return Ok((Link::Selector { dot, name }, rest));
    }
    if at(tokens, Kind::LeftBracket) {
        let ((open, inside), rest) = open(tokens, Kind::LeftBracket, depth)?;
        let (inner, rest) = expression(alloc, rest, inside, false)?;
        let (close, rest) = expect(rest, Kind::RightBracket, inside)?;
        let index = Box::new(alloc, inner)?;
        return Ok((Link::Index { open, index, close }, rest));
    }
    let ((open, inside), rest) = open(tokens, Kind::LeftParen, depth)?;
    let ((arguments, close), rest) = arguments(alloc, rest, inside)?;
    let call = Link::Call {
        open,
        arguments,
        close,
    };
    Ok((call, rest))
}

/// Parses the arguments of a call and the closing parenthesis.
#[cycle(expression)]
fn arguments(alloc: Global, tokens: &[Token], depth: u32) -> Parsed<'_, (Vec<ExprItem>, u32)>
    ensures exact { Parses (A Arguments ∷ []) (λ x. all_tokens expr_item_spelled x.0.0.items ++ (sign Kind.RightParen x.0.1 ∷ [])) (λ x. x.1.now) depth tokens.now result }
    ensures grouped { IfOk result (λ x. AreItems x.0.0.items) }
{
    let mut arguments = Vec::new(alloc);
    let mut rest = tokens;
    let mut more = true;
    'arguments: while goes_on(more, rest, Kind::RightParen) {
        let (value, after) = expression(alloc, rest, depth, false)?;
        let (comma, after) = separator(after, Kind::Comma);
        more = comma.is_some();
        push(&mut arguments, ExprItem { value, comma })?;
        rest = after;
    }
    let (close, rest) = expect(rest, Kind::RightParen, depth)?;
    Ok(((arguments, close), rest))
}
