//! Parses one token, and tests which token comes next.

ghost use Rattle.std.specs.Prelude.{◌≡◌, ◌∷◌, ◌<◌, ◌+◌, [], length, MatchOption, true, false};
ghost use Rattle.go_ast.specs.Grammar.{number_of, One, is, binary_of, prefix_of};
ghost use Rattle.go_parser.specs.Parsing.{Parses, Opens, Separates};
ghost use Rattle.go_parser.specs.Machine.{at};
ghost use Rattle.go_ast.specs.Flatten.{sign};

use crate::parse_error::ParseError;
use go_ast::syntax::{BinaryOp, Kind, PrefixOp, Token, TokenFaultKind};

/// The limit of nesting: how many levels may be open at once.
pub const LIMIT: u32 = 200;

/// The parsed value with the tokens after it, or an error.
pub type Parsed<'a, T> = Result<(T, &'a [Token]), ParseError>;

/// The first token and the tokens after it.
pub(crate) fn next(tokens: &[Token]) -> Option<(Token, &[Token])>
    ensures { MatchOption result (tokens.now ≡ []) (λ x. tokens.now ≡ x.0 ∷ x.1.now) }
{
    let (first, rest) = tokens.split_first()?;
    Some((*first, rest))
}

/// The syntax fault at the first of the tokens, or at the end where there are none.
pub(crate) fn bad_token(tokens: &[Token]) -> ParseError
    ensures { result ≡ ParseError.Fault TokenFaultKind.Syntax (length tokens.now) }
{
    ParseError::Fault(TokenFaultKind::Syntax, tokens.len())
}

/// The kind as a number.
fn number(kind: Kind) -> u8
    ensures { result ≡ number_of kind }
{
    kind as u8
}

/// Whether `kind` is `wanted`.
pub(crate) fn is_kind(kind: Kind, wanted: Kind) -> bool
    ensures { result ≡ is wanted kind }
{
    number(wanted) == number(kind)
}

/// Parses one token of this kind: its token index.
pub(crate) fn expect(tokens: &[Token], kind: Kind, depth: u32) -> Parsed<'_, u32>
    ensures { Parses (One (is kind) ∷ []) (λ x. sign kind x.0 ∷ []) (λ x. x.1.now) depth tokens.now result }
{
    match next(tokens) {
        Some((first, rest)) if is_kind(first.kind, kind) => Ok((first.place, rest)),
        _ => Err(bad_token(tokens)),
    }
}

/// Whether a token of this kind comes next.
pub(crate) fn at(tokens: &[Token], kind: Kind) -> bool
    ensures { result ≡ at (is kind) tokens.now }
{
    match next(tokens) {
        Some((first, _)) => is_kind(first.kind, kind),
        None => false,
    }
}

/// Parses one token of this kind, which opens a level of nesting: its token index, and the number of levels open after it.
pub(crate) fn open(tokens: &[Token], kind: Kind, depth: u32) -> Parsed<'_, (u32, u32)>
    ensures { Opens kind (λ x. x.0.0) (λ x. x.0.1) (λ x. x.1.now) depth tokens.now result }
{
    let Some((first, rest)) = next(tokens) else {
        return Err(bad_token(tokens));
    };
    if !is_kind(first.kind, kind) {
        return Err(bad_token(tokens));
    }
    if depth >= LIMIT {
        return Err(ParseError::Fault(TokenFaultKind::Nesting, tokens.len()));
    }
    Ok(((first.place, depth + 1), rest))
}

/// The binary operator that a token of this kind is, if any.
pub(crate) fn binary_op(kind: Kind) -> Option<BinaryOp>
    ensures { result ≡ binary_of kind }
{
    Some(match kind {
        Kind::Star => BinaryOp::Multiply,
        Kind::Slash => BinaryOp::Divide,
        Kind::Percent => BinaryOp::Remainder,
        Kind::Plus => BinaryOp::Add,
        Kind::Minus => BinaryOp::Subtract,
        Kind::Equal => BinaryOp::Equal,
        Kind::NotEqual => BinaryOp::NotEqual,
        Kind::Less => BinaryOp::Less,
        Kind::LessEqual => BinaryOp::LessEqual,
        Kind::Greater => BinaryOp::Greater,
        Kind::GreaterEqual => BinaryOp::GreaterEqual,
        Kind::AndAnd => BinaryOp::And,
        Kind::OrOr => BinaryOp::Or,
        _ => return None,
    })
}

/// The prefix operator that a token of this kind is, if any.
pub(crate) fn prefix_op(kind: Kind) -> Option<PrefixOp>
    ensures { result ≡ prefix_of kind }
{
    Some(match kind {
        Kind::Plus => PrefixOp::Plus,
        Kind::Minus => PrefixOp::Minus,
        Kind::Not => PrefixOp::Not,
        Kind::Star => PrefixOp::Deref,
        _ => return None,
    })
}

/// Parses a separator of this kind, if one comes next: its token index, and the tokens after it.
pub(crate) fn separator(tokens: &[Token], kind: Kind) -> (Option<u32>, &[Token])
    ensures { Separates kind result.0 tokens.now result.1.now }
{
    match next(tokens) {
        Some((first, rest)) if is_kind(first.kind, kind) => (Some(first.place), rest),
        _ => (None, tokens),
    }
}

/// Whether a list in brackets has another item: its last item had a separator (`more`), and its closing bracket does not come next.
pub(crate) fn goes_on(more: bool, tokens: &[Token], closer: Kind) -> bool
    ensures ends { result ≡ false → more ≡ true → at (is closer) tokens.now ≡ true }
    ensures separated { result ≡ true → more ≡ true }
    ensures open { result ≡ true → at (is closer) tokens.now ≡ false }
{
    more && !at(tokens, closer)
}
