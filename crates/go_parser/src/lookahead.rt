//! Tests of the next tokens, at most four, that decide how to parse.
ghost use Rattle.std.specs.Prelude.{◌≡◌, true, false, cond};
ghost use Rattle.go_ast.specs.Grammar.{is, begins_expression};
ghost use Rattle.go_parser.specs.Machine.{at};
ghost use Rattle.go_parser.specs.Lookahead.{the_rest, names_literal, begins_key};

use crate::operators::{at_leaf, at_prefix};
use crate::tokens::{at, next};
use go_ast::syntax::{Kind, Token};

/// The tokens after the first.
fn the_rest(tokens: &[Token]) -> &[Token]
    ensures { result.now ≡ the_rest tokens.now }
{
    match next(tokens) {
        Some((_, rest)) => rest,
        None => tokens,
    }
}

/// Whether a composite literal such as `T{` or `p.T{` begins with the name that comes next.
fn names_literal(tokens: &[Token]) -> bool
    ensures { result ≡ names_literal tokens.now }
{
    let second = the_rest(tokens);
    let third = the_rest(second);
    at(second, Kind::LeftBrace)
        || at(second, Kind::Dot) && at(third, Kind::Name) && at(the_rest(third), Kind::LeftBrace)
}

/// Whether a composite literal begins with the name that comes next. In a header none does.
pub(crate) fn literal_is_named(tokens: &[Token], header: bool) -> bool
    ensures { result ≡ cond header false (names_literal tokens.now) }
{
    !header && names_literal(tokens)
}

/// Whether the type of a composite literal may begin with the name that comes next. In a header none may.
pub(crate) fn type_is_named(tokens: &[Token], header: bool) -> bool
    ensures { result ≡ cond header false (at (is Kind.Name) tokens.now) }
{
    !header && at(tokens, Kind::Name)
}

/// Whether the key of an element comes next: a name and a colon.
pub(crate) fn begins_key(tokens: &[Token]) -> bool
    ensures { result ≡ begins_key tokens.now }
{
    at(tokens, Kind::Name) && at(the_rest(tokens), Kind::Colon)
}

/// Whether a selector, index or call comes next.
pub(crate) fn begins_link(tokens: &[Token]) -> bool
    ensures begins { result ≡ true → at (is Kind.Dot) tokens.now ≡ false → at (is Kind.LeftBracket) tokens.now ≡ false → at (is Kind.LeftParen) tokens.now ≡ true }
    ensures dot { result ≡ false → at (is Kind.Dot) tokens.now ≡ false }
    ensures bracket { result ≡ false → at (is Kind.LeftBracket) tokens.now ≡ false }
    ensures paren { result ≡ false → at (is Kind.LeftParen) tokens.now ≡ false }
{
    at(tokens, Kind::Dot) || at(tokens, Kind::LeftBracket) || at(tokens, Kind::LeftParen)
}

/// Whether an expression may begin with the next token.
pub(crate) fn begins_expression(tokens: &[Token]) -> bool
    ensures { result ≡ at begins_expression tokens.now }
{
    at(tokens, Kind::Name)
        || at_prefix(tokens)
        || at_leaf(tokens)
        || at(tokens, Kind::Ampersand)
        || at(tokens, Kind::LeftParen)
        || at(tokens, Kind::LeftBracket)
}
