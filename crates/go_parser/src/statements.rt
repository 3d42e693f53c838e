//! Parses statements and blocks. Where parsing fails, trees that were parsed are dropped by a call of `drop`: an implicit drop is proved
//! field by field.
ghost use Rattle.std.specs.Prelude.{◌≡◌, ◌∷◌, ◌++◌, [], false, IfOk};
ghost use Rattle.go_ast.specs.Grammar as grammar;
ghost use Rattle.go_ast.specs.Grammar.{A, One, is, IfHead, IfBody, ForHead, ElsePart, Statement, ReturnValues};
ghost use Rattle.go_parser.specs.Machine.{at};
ghost use Rattle.go_parser.specs.Parsing.{Parses, Continues};
ghost use Rattle.go_ast.specs.Flatten.{sign};
ghost use Rattle.go_parser.specs.Spelling.{exprs_spelled, stmt_spelled, block_spelled, if_spelled, else_spelled};
ghost use Rattle.go_ast.specs.WellFormed.{IsStatement, IsBlock, IsIf, IsElse};
ghost use Rattle.go_ast.specs.View.{exprs_view};
ghost use Rattle.go_ast.specs.FileView.{stmt_view, block_view, if_view, else_view};
ghost use Rattle.go_parser.specs.Listed.{AreReturnValues};

use crate::groups::group;
use crate::headers::{for_header, if_header};
use crate::lookahead::begins_expression;
use crate::short_lists::push;
use crate::simple::{exprs, simple};
use crate::token_classes::Setting;
use crate::tokens::{Parsed, at, expect, open, separator};
use go_ast::syntax::{Kind, Token};
use go_ast::tree::{BlockItem, BlockStmt, Else, ExprItem, IfStmt, LocalSpec, Stmt};
use std::alloc::Global;
use std::mem::drop;

/// Parses a block in braces.
#[cycle(statement)]
pub(crate) fn block(alloc: Global, tokens: &[Token], depth: u32) -> Parsed<'_, BlockStmt>
    ensures exact { Parses (A grammar.Block ∷ []) (λ x. block_spelled x.0) (λ x. x.1.now) depth tokens.now result }
    ensures formed { IfOk result (λ x. IsBlock (block_view x.0)) }
{
    let ((open, inside), start) = open(tokens, Kind::LeftBrace, depth)?;
    let mut statements = Vec::new(alloc);
    let mut rest = start;
    let mut more = true;
    'statements: while more {
        let (statement, after) = statement(alloc, rest, inside)?;
        let (semicolon, after) = separator(after, Kind::Semicolon);
        more = semicolon.is_some();
        push(
            &mut statements,
            BlockItem {
                statement,
                semicolon,
            },
        )?;
        rest = after;
    }
    let (close, rest) = expect(rest, Kind::RightBrace, inside)?;
    let block = BlockStmt {
        open,
        statements,
        close,
    };
    Ok((block, rest))
}

/// Parses a statement, which may be empty.
#[cycle(statement)]
fn statement(alloc: Global, tokens: &[Token], depth: u32) -> Parsed<'_, Stmt>
    ensures exact { Parses (A Statement ∷ []) (λ x. stmt_spelled x.0) (λ x. x.1.now) depth tokens.now result }
    ensures formed { IfOk result (λ x. IsStatement (stmt_view x.0)) }
{
    if at(tokens, Kind::Var) {
        let (var, rest) = expect(tokens, Kind::Var, depth)?;
        let (locals, rest) = group::<LocalSpec>(alloc, rest, depth)?;
        let group = Box::new(alloc, locals)?;
        return Ok((Stmt::Var { at: var, group }, rest));
    }
    if at(tokens, Kind::LeftBrace) {
        let (inner, rest) = block(alloc, tokens, depth)?;
        return Ok((Stmt::Block(inner), rest));
    }
    if at(tokens, Kind::If) {
        let (keyword, rest) = expect(tokens, Kind::If, depth)?;
        let (branch, rest) = if_stmt(alloc, keyword, rest, depth)?;
        return Ok((Stmt::If(branch), rest));
    }
    if at(tokens, Kind::For) {
        return for_stmt(alloc, tokens, depth);
    }
    plain_statement(alloc, tokens, depth)
}

/// Parses a `for` statement.
#[cycle(statement)]
fn for_stmt(alloc: Global, tokens: &[Token], depth: u32) -> Parsed<'_, Stmt>
    ensures exact { Parses (One (is Kind.For) ∷ A ForHead ∷ []) (λ x. stmt_spelled x.0) (λ x. x.1.now) depth tokens.now result }
    ensures formed { IfOk result (λ x. IsStatement (stmt_view x.0)) }
{
    let (at, rest) = expect(tokens, Kind::For, depth)?;
    let (clauses, rest) = for_header(alloc, rest, depth)?;
    let header = Box::new(alloc, clauses)?;
    match block(alloc, rest, depth) {
        Ok((body, rest)) => Ok((Stmt::For { at, header, body }, rest)),
        Err(error) => {
            drop(header);
            Err(error)
        }
    }
}

/// Parses an `if` statement whose `if` has been parsed.
#[cycle(statement)]
fn if_stmt(alloc: Global, at: u32, tokens: &[Token], depth: u32) -> Parsed<'_, Box<IfStmt>>
    ensures exact { Continues (A IfHead ∷ []) (sign Kind.If at ∷ []) (λ x. if_spelled x.0.value) (λ x. x.1.now) depth tokens.now result }
    ensures formed { IfOk result (λ x. IsIf (if_view x.0.value)) }
{
    let ((init, condition), rest) = if_header(alloc, tokens, depth)?;
    match branches(alloc, rest, depth) {
        Ok((branches, rest)) => {
            let (body, otherwise) = branches;
            let statement = IfStmt {
                at,
                init,
                condition,
                body,
                otherwise,
            };
            let boxed = Box::new(alloc, statement)?;
            Ok((boxed, rest))
        }
        Err(error) => {
            drop(init);
            drop(condition);
            Err(error)
        }
    }
}

/// Parses the block of an `if` and its `else` branch, if there is one.
#[cycle(statement)]
fn branches(alloc: Global, tokens: &[Token], depth: u32) -> Parsed<'_, (BlockStmt, Else)>
    ensures exact { Parses (A IfBody ∷ []) (λ x. block_spelled x.0.0 ++ else_spelled x.0.1) (λ x. x.1.now) depth tokens.now result }
    ensures formed { IfOk result (λ x. IsBlock (block_view x.0.0) × IsElse (else_view x.0.1)) }
{
    let (body, rest) = block(alloc, tokens, depth)?;
    match else_part(alloc, rest, depth) {
        Ok((otherwise, rest)) => Ok(((body, otherwise), rest)),
        Err(error) => {
            drop(body);
            Err(error)
        }
    }
}

/// Parses the `else` branch of an `if`, if there is one.
#[cycle(statement)]
fn else_part(alloc: Global, tokens: &[Token], depth: u32) -> Parsed<'_, Else>
    ensures exact { Parses (A ElsePart ∷ []) (λ x. else_spelled x.0) (λ x. x.1.now) depth tokens.now result }
    ensures formed { IfOk result (λ x. IsElse (else_view x.0)) }
{
    if !at(tokens, Kind::Else) {
        return Ok((Else::None, tokens));
    }
    let (word, rest) = expect(tokens, Kind::Else, depth)?;
    if at(rest, Kind::If) {
        let ((place, inside), rest) = open(rest, Kind::If, depth)?;
        let (branch, rest) = if_stmt(alloc, place, rest, inside)?;
        return Ok((Else::If { at: word, branch }, rest));
    }
    let (block, rest) = block(alloc, rest, depth)?;
    Ok((Else::Block { at: word, block }, rest))
}

/// Parses a statement that contains no other statement, or an empty one.
fn plain_statement(alloc: Global, tokens: &[Token], depth: u32) -> Parsed<'_, Stmt>
    requires var { at (is Kind.Var) tokens.now ≡ false }
    requires block { at (is Kind.LeftBrace) tokens.now ≡ false }
    requires branch { at (is Kind.If) tokens.now ≡ false }
    requires loops { at (is Kind.For) tokens.now ≡ false }
    ensures exact { Parses (A Statement ∷ []) (λ x. stmt_spelled x.0) (λ x. x.1.now) depth tokens.now result }
    ensures formed { IfOk result (λ x. IsStatement (stmt_view x.0)) }
{
    if at(tokens, Kind::Break) {
        let (at, rest) = expect(tokens, Kind::Break, depth)?;
        return Ok((Stmt::Break(at), rest));
    }
    if at(tokens, Kind::Continue) {
        let (place, rest) = expect(tokens, Kind::Continue, depth)?;
        return Ok((Stmt::Continue(place), rest));
    }
    if at(tokens, Kind::Return) {
        let (word, rest) = expect(tokens, Kind::Return, depth)?;
        let (values, rest) = return_values(alloc, rest, depth)?;
        return Ok((Stmt::Return { at: word, values }, rest));
    }
    if begins_expression(tokens) {
        let (simple, rest) = simple(alloc, tokens, depth, Setting::Plain)?;
        return Ok((Stmt::Simple(simple), rest));
    }
    Ok((Stmt::Empty, tokens))
}

/// Parses the values of a `return`, if there are any.
fn return_values(alloc: Global, tokens: &[Token], depth: u32) -> Parsed<'_, Vec<ExprItem>>
    ensures exact { Parses (A ReturnValues ∷ []) (λ x. exprs_spelled x.0.items) (λ x. x.1.now) depth tokens.now result }
    ensures formed { IfOk result (λ x. AreReturnValues (exprs_view x.0.items)) }
{
    if !begins_expression(tokens) {
        return Ok((Vec::new(alloc), tokens));
    }
    exprs(alloc, tokens, depth, Setting::Plain)
}
