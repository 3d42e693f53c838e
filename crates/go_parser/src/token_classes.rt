//! Parses tokens of several kinds: identifiers, literals, and the operators of statements.
ghost use Rattle.std.specs.Prelude.{◌≡◌, ◌∷◌, ◌++◌, [], IfOk};
ghost use Rattle.go_ast.specs.Grammar.{One, is_ident, is_literal, is_step, is_update, may_set, in_head, begins_type};
ghost use Rattle.go_parser.specs.Machine.{at};
ghost use Rattle.go_parser.specs.Parsing.{Parses};
ghost use Rattle.go_ast.specs.Flatten.{sign, step_kind, update_kind};
ghost use Rattle.go_parser.specs.Spelling.{ident_spelled, basic_spelled};
ghost use Rattle.go_parser.specs.TokenClasses.{step_of, update_of, set_of, set_kind, setting_of, IsAllowed, ident_of, basic_of};

use crate::tokens::{Parsed, bad_token, next};
use go_ast::syntax::{Kind, StepOp, Token, UpdateOp};
use go_ast::tree::{BasicLit, Ident};

/// The position of a simple statement: by itself, first in the header of an `if` or a `for`, or last in the header of a `for`.
#[derive(Clone, Copy, PartialEq, Eq, Debug)]
pub enum Setting {
    Plain,
    Head,
    Post,
}

/// The operator between the sides of an assignment: `=` or `:=`.
#[derive(Clone, Copy, PartialEq, Eq, Debug)]
pub enum SetOp {
    Assign,
    Define,
}

/// Whether the statement is in the header of an `if` or a `for`.
pub(crate) fn in_header(setting: Setting) -> bool
    ensures { result ≡ in_head (setting_of setting) }
{
    match setting {
        Setting::Plain => false,
        Setting::Head | Setting::Post => true,
    }
}

/// The identifier of this kind and token index, if the kind is one of identifiers.
fn ident_of(kind: Kind, place: u32) -> Option<Ident>
    ensures { result ≡ ident_of kind place }
{
    match kind {
        Kind::Name => Some(Ident::Named(place)),
        Kind::Blank => Some(Ident::Blank(place)),
        _ => None,
    }
}

/// Parses an identifier: a name or `_`.
pub(crate) fn ident(tokens: &[Token], depth: u32) -> Parsed<'_, Ident>
    ensures { Parses (One is_ident ∷ []) (λ x. ident_spelled x.0) (λ x. x.1.now) depth tokens.now result }
{
    let Some((first, rest)) = next(tokens) else {
        return Err(bad_token(tokens));
    };
    let Some(ident) = ident_of(first.kind, first.place) else {
        return Err(bad_token(tokens));
    };
    Ok((ident, rest))
}

/// The literal of this kind and token index, if the kind is one of literals.
fn basic_of(kind: Kind, place: u32) -> Option<BasicLit>
    ensures { result ≡ basic_of kind place }
{
    match kind {
        Kind::Number => Some(BasicLit::Number(place)),
        Kind::Text => Some(BasicLit::Text(place)),
        _ => None,
    }
}

/// Parses a literal of one token.
pub(crate) fn basic_lit(tokens: &[Token], depth: u32) -> Parsed<'_, BasicLit>
    ensures { Parses (One is_literal ∷ []) (λ x. basic_spelled x.0) (λ x. x.1.now) depth tokens.now result }
{
    let Some((first, rest)) = next(tokens) else {
        return Err(bad_token(tokens));
    };
    let Some(literal) = basic_of(first.kind, first.place) else {
        return Err(bad_token(tokens));
    };
    Ok((literal, rest))
}

/// The `++` or `--` that a token of this kind is, if any.
fn step_op(kind: Kind) -> Option<StepOp>
    ensures { result ≡ step_of kind }
{
    match kind {
        Kind::Increment => Some(StepOp::Increment),
        Kind::Decrement => Some(StepOp::Decrement),
        _ => None,
    }
}

/// Parses a `++` or `--`: the operator and its token index.
pub(crate) fn step(tokens: &[Token], depth: u32) -> Parsed<'_, (StepOp, u32)>
    ensures { Parses (One is_step ∷ []) (λ x. sign (step_kind x.0.0) x.0.1 ∷ []) (λ x. x.1.now) depth tokens.now result }
{
    let Some((first, rest)) = next(tokens) else {
        return Err(bad_token(tokens));
    };
    let Some(op) = step_op(first.kind) else {
        return Err(bad_token(tokens));
    };
    Ok(((op, first.place), rest))
}

/// Whether `++` or `--` comes next.
pub(crate) fn at_step(tokens: &[Token]) -> bool
    ensures { result ≡ at is_step tokens.now }
{
    match next(tokens) {
        Some((first, _)) => step_op(first.kind).is_some(),
        None => false,
    }
}

/// The operator such as `+=` that a token of this kind is, if any.
fn update_op(kind: Kind) -> Option<UpdateOp>
    ensures { result ≡ update_of kind }
{
    match kind {
        Kind::AddAssign => Some(UpdateOp::Add),
        Kind::SubAssign => Some(UpdateOp::Subtract),
        Kind::MulAssign => Some(UpdateOp::Multiply),
        Kind::DivAssign => Some(UpdateOp::Divide),
        Kind::RemAssign => Some(UpdateOp::Remainder),
        _ => None,
    }
}

/// Parses an operator such as `+=`: the operator and its token index.
pub(crate) fn update(tokens: &[Token], depth: u32) -> Parsed<'_, (UpdateOp, u32)>
    ensures { Parses (One is_update ∷ []) (λ x. sign (update_kind x.0.0) x.0.1 ∷ []) (λ x. x.1.now) depth tokens.now result }
{
    let Some((first, rest)) = next(tokens) else {
        return Err(bad_token(tokens));
    };
    let Some(op) = update_op(first.kind) else {
        return Err(bad_token(tokens));
    };
    Ok(((op, first.place), rest))
}

/// Whether an operator such as `+=` comes next.
pub(crate) fn at_update(tokens: &[Token]) -> bool
    ensures { result ≡ at is_update tokens.now }
{
    match next(tokens) {
        Some((first, _)) => update_op(first.kind).is_some(),
        None => false,
    }
}

/// The `=` or `:=` that a token of this kind is, if any. In the last clause of a `for` only `=` is allowed.
fn set_op(kind: Kind, setting: Setting) -> Option<SetOp>
    ensures { result ≡ set_of setting kind }
{
    match setting {
        Setting::Plain | Setting::Head => match kind {
            Kind::Assign => Some(SetOp::Assign),
            Kind::Define => Some(SetOp::Define),
            _ => None,
        },
        Setting::Post => match kind {
            Kind::Assign => Some(SetOp::Assign),
            _ => None,
        },
    }
}

/// Parses a `=` or `:=`: the operator and its token index.
pub(crate) fn set(tokens: &[Token], depth: u32, setting: Setting) -> Parsed<'_, (SetOp, u32)>
    ensures allowed { IfOk result (λ x. IsAllowed setting x.0.0) }
    ensures exact { Parses (One (may_set (setting_of setting)) ∷ []) (λ x. sign (set_kind x.0.0) x.0.1 ∷ []) (λ x. x.1.now) depth tokens.now result }
{
    let Some((first, rest)) = next(tokens) else {
        return Err(bad_token(tokens));
    };
    let Some(op) = set_op(first.kind, setting) else {
        return Err(bad_token(tokens));
    };
    Ok(((op, first.place), rest))
}

/// Whether `=` or `:=` comes next, as allowed at this position.
pub(crate) fn at_set(tokens: &[Token], setting: Setting) -> bool
    ensures { result ≡ at (may_set (setting_of setting)) tokens.now }
{
    match next(tokens) {
        Some((first, _)) => set_op(first.kind, setting).is_some(),
        None => false,
    }
}

/// Whether a token of this kind may begin a type.
fn is_type_start(kind: Kind) -> bool
    ensures { result ≡ begins_type kind }
{
    matches!(kind, Kind::Name | Kind::Star | Kind::LeftBracket)
}

/// Whether a type may begin with the next token.
pub(crate) fn begins_type(tokens: &[Token]) -> bool
    ensures { result ≡ at begins_type tokens.now }
{
    match next(tokens) {
        Some((first, _)) => is_type_start(first.kind),
        None => false,
    }
}
