//! Parses operators, and operands of one token.
ghost use Rattle.std.specs.Prelude.{◌≡◌, ◌∷◌, [], Option, Bool, IfOk};
ghost use Rattle.go_ast.specs.Grammar.{One, is_binary, is_prefix, is_leaf};
ghost use Rattle.go_parser.specs.Machine.{at};
ghost use Rattle.go_parser.specs.Parsing.{Parses, OpensAs};
ghost use Rattle.go_ast.specs.Flatten.{sign, binary_kind, prefix_kind};
ghost use Rattle.go_parser.specs.Spelling.{expr_spelled};
ghost use Rattle.go_parser.specs.Strength.{strength_at};
ghost use Rattle.go_ast.specs.WellFormed.{strength};
ghost use Rattle.go_parser.specs.Leaf.{leaf_of};
ghost use Rattle.go_ast.specs.View.{expr_view};
ghost use Rattle.go_parser.specs.Grouping.{IsOperand};

use crate::parse_error::ParseError;
use crate::tokens::{LIMIT, Parsed, bad_token, binary_op, next, prefix_op};
use go_ast::syntax::{BinaryOp, Kind, PrefixOp, Token, TokenFaultKind};
use go_ast::tree::Expr;

/// The precedence of a binary operator, from 1 to 5.
pub(crate) fn strength_of(op: BinaryOp) -> u32
    ensures { result ≡ strength op }
{
    match op {
        BinaryOp::Multiply | BinaryOp::Divide | BinaryOp::Remainder => 5,
        BinaryOp::Add | BinaryOp::Subtract => 4,
        BinaryOp::Equal
        | BinaryOp::NotEqual
        | BinaryOp::Less
        | BinaryOp::LessEqual
        | BinaryOp::Greater
        | BinaryOp::GreaterEqual => 3,
        BinaryOp::And => 2,
        BinaryOp::Or => 1,
    }
}

/// The precedence of the binary operator that comes next, or 0.
pub(crate) fn strength_at(tokens: &[Token]) -> u32
    ensures { result ≡ strength_at tokens.now }
{
    match next(tokens) {
        Some((first, _)) => match binary_op(first.kind) {
            Some(op) => strength_of(op),
            None => 0,
        },
        None => 0,
    }
}

/// Parses a binary operator: the operator and its token index.
pub(crate) fn binary_operator(tokens: &[Token], depth: u32) -> Parsed<'_, (BinaryOp, u32)>
    ensures { Parses (One is_binary ∷ []) (λ x. sign (binary_kind x.0.0) x.0.1 ∷ []) (λ x. x.1.now) depth tokens.now result }
{
    let Some((first, rest)) = next(tokens) else {
        return Err(bad_token(tokens));
    };
    let Some(op) = binary_op(first.kind) else {
        return Err(bad_token(tokens));
    };
    Ok(((op, first.place), rest))
}

/// Whether a prefix operator comes next.
pub(crate) fn at_prefix(tokens: &[Token]) -> bool
    ensures { result ≡ at is_prefix tokens.now }
{
    match next(tokens) {
        Some((first, _)) => prefix_op(first.kind).is_some(),
        None => false,
    }
}

/// Parses a prefix operator, which opens a level of nesting: the operator, its token index, and the number of levels open after it.
pub(crate) fn open_prefix(tokens: &[Token], depth: u32) -> Parsed<'_, (PrefixOp, u32, u32)>
    ensures { OpensAs is_prefix (λ x. sign (prefix_kind x.0.0) x.0.1 ∷ []) (λ x. x.0.2) (λ x. x.1.now) depth tokens.now result }
{
    let Some((first, rest)) = next(tokens) else {
        return Err(bad_token(tokens));
    };
    let Some(op) = prefix_op(first.kind) else {
        return Err(bad_token(tokens));
    };
    if depth >= LIMIT {
        return Err(ParseError::Fault(TokenFaultKind::Nesting, tokens.len()));
    }
    Ok(((op, first.place, depth + 1), rest))
}

/// The operand that a token of this kind is by itself, if any, names excepted.
fn leaf_of(kind: Kind, place: u32) -> Option<Expr>
    ensures { result ≡ leaf_of kind place }
{
    match kind {
        Kind::Number => Some(Expr::Number(place)),
        Kind::Text => Some(Expr::Text(place)),
        Kind::Blank => Some(Expr::Blank(place)),
        _ => None,
    }
}

/// Whether a token of this kind is an operand by itself, names excepted.
fn is_leaf(kind: Kind) -> bool
    ensures { result ≡ is_leaf kind }
{
    matches!(kind, Kind::Number | Kind::Text | Kind::Blank)
}

/// Whether an operand of one token comes next, names excepted.
pub(crate) fn at_leaf(tokens: &[Token]) -> bool
    ensures { result ≡ at is_leaf tokens.now }
{
    match next(tokens) {
        Some((first, _)) => is_leaf(first.kind),
        None => false,
    }
}

/// Parses a literal of one token, or `_`.
pub(crate) fn leaf(tokens: &[Token], depth: u32) -> Parsed<'_, Expr>
    ensures exact { Parses (One is_leaf ∷ []) (λ x. expr_spelled x.0) (λ x. x.1.now) depth tokens.now result }
    ensures grouped { IfOk result (λ x. (h : Bool) → IsOperand h (expr_view x.0)) }
{
    let Some((first, rest)) = next(tokens) else {
        return Err(bad_token(tokens));
    };
    let Some(operand) = leaf_of(first.kind, first.place) else {
        return Err(bad_token(tokens));
    };
    Ok((operand, rest))
}
