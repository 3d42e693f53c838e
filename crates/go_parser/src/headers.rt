//! Parses the headers of `if` and `for`, up to the block. Where parsing fails, trees that were parsed are dropped by a call of `drop`: an
//! implicit drop is proved field by field.
ghost use Rattle.std.specs.Prelude.{◌≡◌, ◌∷◌, ◌++◌, [], IfOk, false, true};
ghost use Rattle.go_ast.specs.Grammar as grammar;
ghost use Rattle.go_ast.specs.Grammar.{A, One, is, IfHead, IfBody, SimpleRest, ForHead, ForRest, ForCondition, ForPost};
ghost use Rattle.go_parser.specs.Machine.{at};
ghost use Rattle.go_parser.specs.Parsing.{Parses, LeadsTo, Continues};
ghost use Rattle.go_ast.specs.Flatten.{sign, tokens_if, init_tokens, expr_tokens, simple_tokens};
ghost use Rattle.go_ast.specs.View.{option_view, expr_view};
ghost use Rattle.go_ast.specs.FileView.{init_view, simple_view, for_view};
ghost use Rattle.go_parser.specs.Spelling.{expr_spelled, init_spelled, for_spelled};
ghost use Rattle.go_ast.specs.WellFormed.{IsNoneOr, IsExprIn, IsInit, IsFor, IsPost};

use crate::lookahead::begins_expression;
use crate::simple::{expr, simple, simple_rest};
use crate::token_classes::Setting;
use crate::tokens::{Parsed, at, expect};
use go_ast::syntax::{Kind, Token};
use go_ast::tree::{Expr, ForHeader, IfInit, SimpleStmt};
use std::alloc::Global;
use std::mem::drop;

/// Parses the header of an `if`: a clause with its semicolon, if there is one, and the condition.
pub(crate) fn if_header(
    alloc: Global,
    tokens: &[Token],
    depth: u32,
) -> Parsed<'_, (Option<IfInit>, Expr)>
    ensures exact { LeadsTo (A IfHead ∷ []) (A IfBody ∷ []) (λ x. tokens_if init_tokens (option_view init_view x.0.0) ++ expr_spelled x.0.1) (λ x. x.1.now) depth tokens.now result }
    ensures formed { IfOk result (λ x. IsNoneOr IsInit (option_view init_view x.0.0) × IsExprIn true (expr_view x.0.1)) }
{
    if at(tokens, Kind::Semicolon) {
        return bare_header(alloc, tokens, depth);
    }
    let (first, rest) = expr(alloc, tokens, depth, Setting::Head)?;
    if at(rest, Kind::LeftBrace) {
        return Ok(((None, first), rest));
    }
    let (init, rest) = init(alloc, first, rest, depth)?;
    match expr(alloc, rest, depth, Setting::Head) {
        Ok((condition, rest)) => Ok(((Some(init), condition), rest)),
        Err(error) => {
            drop(init);
            Err(error)
        }
    }
}

/// Parses the header of an `if` that begins with a semicolon.
fn bare_header(alloc: Global, tokens: &[Token], depth: u32) -> Parsed<'_, (Option<IfInit>, Expr)>
    requires { at (is Kind.Semicolon) tokens.now ≡ true }
    ensures exact { LeadsTo (A IfHead ∷ []) (A IfBody ∷ []) (λ x. tokens_if init_tokens (option_view init_view x.0.0) ++ expr_spelled x.0.1) (λ x. x.1.now) depth tokens.now result }
    ensures formed { IfOk result (λ x. IsNoneOr IsInit (option_view init_view x.0.0) × IsExprIn true (expr_view x.0.1)) }
{
    let (semicolon, rest) = expect(tokens, Kind::Semicolon, depth)?;
    let (condition, rest) = expr(alloc, rest, depth, Setting::Head)?;
    let init = IfInit {
        statement: None,
        semicolon,
    };
    Ok(((Some(init), condition), rest))
}

/// Parses the clause before the condition of an `if` and its semicolon, where its first expression has been parsed.
fn init(alloc: Global, first: Expr, tokens: &[Token], depth: u32) -> Parsed<'_, IfInit>
    requires { IsExprIn true (expr_view first) }
    ensures exact { Continues (A (SimpleRest grammar.Head) ∷ One (is Kind.Semicolon) ∷ []) (expr_spelled first) (λ x. init_spelled x.0) (λ x. x.1.now) depth tokens.now result }
    ensures formed { IfOk result (λ x. IsInit (init_view x.0)) }
{
    let (statement, rest) = simple_rest(alloc, first, tokens, depth, Setting::Head)?;
    match expect(rest, Kind::Semicolon, depth) {
        Ok((semicolon, rest)) => {
            let init = IfInit {
                statement: Some(statement),
                semicolon,
            };
            Ok((init, rest))
        }
        Err(error) => {
            drop(statement);
            Err(error)
        }
    }
}

/// Parses the header of a `for`: none, a condition, or three clauses.
pub(crate) fn for_header(alloc: Global, tokens: &[Token], depth: u32) -> Parsed<'_, ForHeader>
    ensures exact { LeadsTo (A ForHead ∷ []) (A grammar.Block ∷ []) (λ x. for_spelled x.0) (λ x. x.1.now) depth tokens.now result }
    ensures formed { IfOk result (λ x. IsFor (for_view x.0)) }
{
    if at(tokens, Kind::LeftBrace) {
        return Ok((ForHeader::Forever, tokens));
    }
    if at(tokens, Kind::Semicolon) {
        return bare_clauses(alloc, tokens, depth);
    }
    let (first, rest) = expr(alloc, tokens, depth, Setting::Head)?;
    if at(rest, Kind::LeftBrace) {
        return Ok((ForHeader::While(first), rest));
    }
    let (init, rest) = simple_rest(alloc, first, rest, depth, Setting::Head)?;
    match for_clauses(alloc, rest, depth) {
        Ok((further, rest)) => {
            let whole = further.header(Some(init));
            Ok((whole, rest))
        }
        Err(error) => {
            drop(init);
            Err(error)
        }
    }
}

/// Parses the header of a `for` that begins with a semicolon.
fn bare_clauses(alloc: Global, tokens: &[Token], depth: u32) -> Parsed<'_, ForHeader>
    requires brace { at (is Kind.LeftBrace) tokens.now ≡ false }
    requires semicolon { at (is Kind.Semicolon) tokens.now ≡ true }
    ensures exact { LeadsTo (A ForHead ∷ []) (A grammar.Block ∷ []) (λ x. for_spelled x.0) (λ x. x.1.now) depth tokens.now result }
    ensures formed { IfOk result (λ x. IsFor (for_view x.0)) }
{
    let (clauses, rest) = for_clauses(alloc, tokens, depth)?;
    let bare = clauses.header(None);
    Ok((bare, rest))
}

/// The clauses of a `for` after the first: a condition between two semicolons, and the last clause.
#[derive(Drop)]
struct Clauses {
    first: u32,
    condition: Option<Expr>,
    second: u32,
    post: Option<SimpleStmt>,
}

impl Clauses {
    /// The header with the first clause `init` and these clauses.
    fn header(self, init: Option<SimpleStmt>) -> ForHeader
        ensures { result ≡ ForHeader.Clauses init self.first self.condition self.second self.post }
    {
        let Clauses {
            first,
            condition,
            second,
            post,
        } = self;
        ForHeader::Clauses {
            init,
            first,
            condition,
            second,
            post,
        }
    }
}

/// Parses the clauses of a `for` after the first.
fn for_clauses(alloc: Global, tokens: &[Token], depth: u32) -> Parsed<'_, Clauses>
    ensures exact { LeadsTo (A ForRest ∷ []) (A grammar.Block ∷ []) (λ x. sign Kind.Semicolon x.0.first ∷ (tokens_if expr_tokens (option_view expr_view x.0.condition) ++ (sign Kind.Semicolon x.0.second ∷ tokens_if simple_tokens (option_view simple_view x.0.post)))) (λ x. x.1.now) depth tokens.now result }
    ensures formed { IfOk result (λ x. IsNoneOr (IsExprIn true) (option_view expr_view x.0.condition) × IsNoneOr IsPost (option_view simple_view x.0.post)) }
{
    let ((first, condition), rest) = condition_clause(alloc, tokens, depth)?;
    match post_clause(alloc, rest, depth) {
        Ok((last, rest)) => {
            let (second, post) = last;
            let clauses = Clauses {
                first,
                condition,
                second,
                post,
            };
            Ok((clauses, rest))
        }
        Err(error) => {
            drop(condition);
            Err(error)
        }
    }
}

/// Parses the semicolon before the condition of a `for`, and the condition, if there is one.
fn condition_clause(alloc: Global, tokens: &[Token], depth: u32) -> Parsed<'_, (u32, Option<Expr>)>
    ensures exact { Parses (One (is Kind.Semicolon) ∷ A ForCondition ∷ []) (λ x. sign Kind.Semicolon x.0.0 ∷ tokens_if expr_tokens (option_view expr_view x.0.1)) (λ x. x.1.now) depth tokens.now result }
    ensures formed { IfOk result (λ x. IsNoneOr (IsExprIn true) (option_view expr_view x.0.1)) }
{
    let (semicolon, rest) = expect(tokens, Kind::Semicolon, depth)?;
    if !begins_expression(rest) {
        return Ok(((semicolon, None), rest));
    }
    let (condition, rest) = expr(alloc, rest, depth, Setting::Head)?;
    Ok(((semicolon, Some(condition)), rest))
}

/// Parses the semicolon before the last clause of a `for`, and the clause, if there is one.
fn post_clause(alloc: Global, tokens: &[Token], depth: u32) -> Parsed<'_, (u32, Option<SimpleStmt>)>
    ensures exact { Parses (One (is Kind.Semicolon) ∷ A ForPost ∷ []) (λ x. sign Kind.Semicolon x.0.0 ∷ tokens_if simple_tokens (option_view simple_view x.0.1)) (λ x. x.1.now) depth tokens.now result }
    ensures formed { IfOk result (λ x. IsNoneOr IsPost (option_view simple_view x.0.1)) }
{
    let (semicolon, rest) = expect(tokens, Kind::Semicolon, depth)?;
    if !begins_expression(rest) {
        return Ok(((semicolon, None), rest));
    }
    let (post, rest) = simple(alloc, rest, depth, Setting::Post)?;
    Ok(((semicolon, Some(post)), rest))
}
