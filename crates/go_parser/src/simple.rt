//! Parses simple statements and lists of expressions. Where parsing fails, trees that were parsed are dropped by a call of `drop`: an
//! implicit drop is proved field by field.
ghost use Rattle.std.specs.Prelude.{◌≡◌, ◌∷◌, ◌++◌, [], IfOk, true};
ghost use Rattle.go_ast.specs.Grammar.{A, One, in_head, is, is_step, is_update, may_set, Expression, Expressions, SimpleRest};
ghost use Rattle.go_parser.specs.Parsing.{Parses, Continues};
ghost use Rattle.go_ast.specs.Flatten.{sign, sign_if, update_kind};
ghost use Rattle.go_parser.specs.Spelling.{expr_spelled, exprs_spelled, simple_spelled};
ghost use Rattle.go_parser.specs.TokenClasses.{setting_of};
ghost use Rattle.go_ast.specs.WellFormed.{IsList, IsExprIn};
ghost use Rattle.go_ast.specs.View.{expr_view, exprs_view, expr_item_view};
ghost use Rattle.go_ast.specs.FileView.{simple_view};
ghost use Rattle.go_parser.specs.Listed.{IsSimpleIn, IsListed};

use crate::expressions::expression;
use crate::short_lists::push;
use crate::token_classes::{
    SetOp, Setting, at_set, at_step, at_update, in_header, set, step, update,
};
use crate::tokens::{Parsed, at, expect, separator};
use go_ast::syntax::{Kind, Token, UpdateOp};
use go_ast::tree::{Expr, ExprItem, SimpleStmt};
use std::alloc::{AllocError, Global};
use std::mem::drop;

/// Parses an expression in a statement at this position.
pub(crate) fn expr(
    alloc: Global,
    tokens: &[Token],
    depth: u32,
    setting: Setting,
) -> Parsed<'_, Expr>
    ensures exact { Parses (A (Expression (in_head (setting_of setting))) ∷ []) (λ x. expr_spelled x.0) (λ x. x.1.now) depth tokens.now result }
    ensures formed { IfOk result (λ x. IsExprIn (in_head (setting_of setting)) (expr_view x.0)) }
{
    expression(alloc, tokens, depth, in_header(setting))
}

/// Parses one or more expressions, separated by commas, and appends them to `begun`.
fn more_exprs(
    alloc: Global,
    begun: Vec<ExprItem>,
    tokens: &[Token],
    depth: u32,
    setting: Setting,
) -> Parsed<'_, Vec<ExprItem>>
    requires { IsListed (IsExprIn (in_head (setting_of setting))) expr_item_view true begun.items }
    ensures exact { Continues (A (Expressions (in_head (setting_of setting))) ∷ []) (exprs_spelled begun.items) (λ x. exprs_spelled x.0.items) (λ x. x.1.now) depth tokens.now result }
    ensures formed { IfOk result (λ x. IsList (IsExprIn (in_head (setting_of setting))) (exprs_view x.0.items)) }
{
    let mut exprs = begun;
    let mut rest = tokens;
    let mut more = true;
    'exprs: while more {
        let (value, after) = expr(alloc, rest, depth, setting)?;
        let (comma, after) = separator(after, Kind::Comma);
        more = comma.is_some();
        push(&mut exprs, ExprItem { value, comma })?;
        rest = after;
    }
    Ok((exprs, rest))
}

/// Parses one or more expressions, separated by commas.
pub(crate) fn exprs(
    alloc: Global,
    tokens: &[Token],
    depth: u32,
    setting: Setting,
) -> Parsed<'_, Vec<ExprItem>>
    ensures exact { Parses (A (Expressions (in_head (setting_of setting))) ∷ []) (λ x. exprs_spelled x.0.items) (λ x. x.1.now) depth tokens.now result }
    ensures formed { IfOk result (λ x. IsList (IsExprIn (in_head (setting_of setting))) (exprs_view x.0.items)) }
{
    more_exprs(alloc, Vec::new(alloc), tokens, depth, setting)
}

/// The list of one expression, with its comma.
fn first_expr(alloc: Global, value: Expr, comma: Option<u32>) -> Result<Vec<ExprItem>, AllocError>
    ensures spelled { IfOk result (λ v. exprs_spelled v.items ≡ expr_spelled value ++ sign_if Kind.Comma comma) }
    ensures alone { IfOk result (λ v. v.items ≡ record { value = value; comma = comma } ∷ []) }
{
    let mut exprs = Vec::new(alloc);
    push(&mut exprs, ExprItem { value, comma })?;
    Ok(exprs)
}

/// Parses a simple statement.
pub(crate) fn simple(
    alloc: Global,
    tokens: &[Token],
    depth: u32,
    setting: Setting,
) -> Parsed<'_, SimpleStmt>
    ensures exact { Parses (A (Expression (in_head (setting_of setting))) ∷ A (SimpleRest (setting_of setting)) ∷ []) (λ x. simple_spelled x.0) (λ x. x.1.now) depth tokens.now result }
    ensures formed { IfOk result (λ x. IsSimpleIn setting (simple_view x.0)) }
{
    let (first, rest) = expr(alloc, tokens, depth, setting)?;
    simple_rest(alloc, first, rest, depth, setting)
}

/// Parses a simple statement whose first expression has been parsed.
pub(crate) fn simple_rest(
    alloc: Global,
    first: Expr,
    tokens: &[Token],
    depth: u32,
    setting: Setting,
) -> Parsed<'_, SimpleStmt>
    requires { IsExprIn (in_head (setting_of setting)) (expr_view first) }
    ensures exact { Continues (A (SimpleRest (setting_of setting)) ∷ []) (expr_spelled first) (λ x. simple_spelled x.0) (λ x. x.1.now) depth tokens.now result }
    ensures formed { IfOk result (λ x. IsSimpleIn setting (simple_view x.0)) }
{
    if at_step(tokens) {
        return stepped(first, tokens, depth, setting);
    }
    if at_update(tokens) {
        return updated(alloc, first, tokens, depth, setting);
    }
    if at_set(tokens, setting) {
        return one_set(alloc, first, tokens, depth, setting);
    }
    if at(tokens, Kind::Comma) {
        return several_set(alloc, first, tokens, depth, setting);
    }
    Ok((SimpleStmt::Expr(first), tokens))
}

/// Parses the `++` or `--` that follows `operand`.
fn stepped(operand: Expr, tokens: &[Token], depth: u32, setting: Setting) -> Parsed<'_, SimpleStmt>
    requires { IsExprIn (in_head (setting_of setting)) (expr_view operand) }
    ensures exact { Continues (One is_step ∷ []) (expr_spelled operand) (λ x. simple_spelled x.0) (λ x. x.1.now) depth tokens.now result }
    ensures formed { IfOk result (λ x. IsSimpleIn setting (simple_view x.0)) }
{
    match step(tokens, depth) {
        Ok(((op, at), rest)) => Ok((SimpleStmt::Step { operand, op, at }, rest)),
        Err(error) => {
            drop(operand);
            Err(error)
        }
    }
}

/// Parses an operator such as `+=` and the right side, which follow `left`.
fn updated(
    alloc: Global,
    left: Expr,
    tokens: &[Token],
    depth: u32,
    setting: Setting,
) -> Parsed<'_, SimpleStmt>
    requires { IsExprIn (in_head (setting_of setting)) (expr_view left) }
    ensures exact { Continues (One is_update ∷ A (Expression (in_head (setting_of setting))) ∷ []) (expr_spelled left) (λ x. simple_spelled x.0) (λ x. x.1.now) depth tokens.now result }
    ensures formed { IfOk result (λ x. IsSimpleIn setting (simple_view x.0)) }
{
    match change(alloc, tokens, depth, setting) {
        Ok((change, rest)) => {
            let (op, at, right) = change;
            let statement = SimpleStmt::Update {
                left,
                op,
                at,
                right,
            };
            Ok((statement, rest))
        }
        Err(error) => {
            drop(left);
            Err(error)
        }
    }
}

/// Parses an operator such as `+=` and the right side: the operator, its token index, and the expression in a box.
fn change(
    alloc: Global,
    tokens: &[Token],
    depth: u32,
    setting: Setting,
) -> Parsed<'_, (UpdateOp, u32, Box<Expr>)>
    ensures exact { Parses (One is_update ∷ A (Expression (in_head (setting_of setting))) ∷ []) (λ x. sign (update_kind x.0.0) x.0.1 ∷ expr_spelled x.0.2.value) (λ x. x.1.now) depth tokens.now result }
    ensures formed { IfOk result (λ x. IsExprIn (in_head (setting_of setting)) (expr_view x.0.2.value)) }
{
    let ((op, at), rest) = update(tokens, depth)?;
    let (value, rest) = expr(alloc, rest, depth, setting)?;
    let right = Box::new(alloc, value)?;
    Ok(((op, at, right), rest))
}

/// Parses the `=` or `:=` and the right side that follow the one expression `first`.
fn one_set(
    alloc: Global,
    first: Expr,
    tokens: &[Token],
    depth: u32,
    setting: Setting,
) -> Parsed<'_, SimpleStmt>
    requires { IsExprIn (in_head (setting_of setting)) (expr_view first) }
    ensures exact { Continues (One (may_set (setting_of setting)) ∷ A (Expressions (in_head (setting_of setting))) ∷ []) (expr_spelled first) (λ x. simple_spelled x.0) (λ x. x.1.now) depth tokens.now result }
    ensures formed { IfOk result (λ x. IsSimpleIn setting (simple_view x.0)) }
{
    let single = first_expr(alloc, first, None)?;
    assignment(alloc, single, tokens, depth, setting)
}

/// Parses a comma, more expressions, the `=` or `:=` and the right side, which follow `first`.
fn several_set(
    alloc: Global,
    first: Expr,
    tokens: &[Token],
    depth: u32,
    setting: Setting,
) -> Parsed<'_, SimpleStmt>
    requires { IsExprIn (in_head (setting_of setting)) (expr_view first) }
    ensures exact { Continues (One (is Kind.Comma) ∷ A (Expressions (in_head (setting_of setting))) ∷ One (may_set (setting_of setting)) ∷ A (Expressions (in_head (setting_of setting))) ∷ []) (expr_spelled first) (λ x. simple_spelled x.0) (λ x. x.1.now) depth tokens.now result }
    ensures formed { IfOk result (λ x. IsSimpleIn setting (simple_view x.0)) }
{
    let (comma, rest) = expect(tokens, Kind::Comma, depth)?;
    let begun = first_expr(alloc, first, Some(comma))?;
    let (left, rest) = more_exprs(alloc, begun, rest, depth, setting)?;
    assignment(alloc, left, rest, depth, setting)
}

/// Parses the `=` or `:=` and the right side that follow the list `left`.
fn assignment(
    alloc: Global,
    left: Vec<ExprItem>,
    tokens: &[Token],
    depth: u32,
    setting: Setting,
) -> Parsed<'_, SimpleStmt>
    requires { IsList (IsExprIn (in_head (setting_of setting))) (exprs_view left.items) }
    ensures exact { Continues (One (may_set (setting_of setting)) ∷ A (Expressions (in_head (setting_of setting))) ∷ []) (exprs_spelled left.items) (λ x. simple_spelled x.0) (λ x. x.1.now) depth tokens.now result }
    ensures formed { IfOk result (λ x. IsSimpleIn setting (simple_view x.0)) }
{
    let ((op, at), rest) = set(tokens, depth, setting)?;
    let (right, rest) = exprs(alloc, rest, depth, setting)?;
    match op {
        SetOp::Assign => Ok((SimpleStmt::Assign { left, at, right }, rest)),
        SetOp::Define => Ok((SimpleStmt::Define { left, at, right }, rest)),
    }
}
