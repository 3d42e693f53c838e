//! Makes the code of simple statements and of declarations of locals.
ghost use Rattle.std.specs.Prelude.{◌≡◌, ◌∷◌, ◌++◌, [], length, OnOk};
ghost use Rattle.std.specs.List.{flat_map};
ghost use Rattle.go_ast.specs.View.{expr_view, exprs_view, option_view, list_view, group_view, ident_view, type_view};
ghost use Rattle.go_ast.specs.FileView.{simple_view, local_view, init_view};
ghost use Rattle.types_declared.specs.Files.{group_items};
ghost use Rattle.types_stmt.specs.Simple.{binary_of};
ghost use Rattle.types_expr.specs.Judge.{judge_type};
ghost use Rattle.build_object.specs.Lines.{line_if_known};
ghost use Rattle.build_object.specs.Lines as line;
ghost use Rattle.build_object.specs.LineView.{Puts};
ghost use Rattle.build_object.specs.Expressions.{address_lines, value_lines};
ghost use Rattle.build_object.specs.SourceView.{source_of};
ghost use Rattle.build_object.specs.Statements.{lines_of_values, from_last, set_name, set_left, target_lines, targets_of, update_lines, step_op, simple_lines, optional_lines, init_lines, first_values, local_lines};

use crate::code::Code;
use crate::expressions::{arguments, operand};
use crate::instructions::Instruction;
use crate::operands::Wanted;
use crate::scope::SlotScope;
use crate::types::written_type;
use go_ast::syntax::{BinaryOp, StepOp, UpdateOp};
use go_ast::tree::{Expr, ExprItem, Group, Ident, IfInit, Item, LocalSpec, SimpleStmt, TypeExpr};
use std::alloc::{AllocError, Global};
use types_expr::world::Bound;

/// Puts the lines of the values of expressions, in order.
#[tactic(auto, using(crate::proofs::Values::values_are_arguments))]
pub fn values<'a>(
    alloc: Global,
    scope: SlotScope<'a>,
    list: &[ExprItem],
    code: &mut Code<'a>,
) -> Result<(), AllocError>
    ensures { OnOk result (Puts (lines_of_values (source_of scope.entry.source.now) scope.entry.slots.now.places.items (exprs_view list.now)) code.old code.new) }
{
    arguments(alloc, scope, list, code)
}

/// Puts the line that gives a declared local its value. A `_` drops the value.
#[tactic(auto, unfolding(crate::specs::LineView::line_of))]
fn put_set_name<'a>(
    scope: SlotScope<'a>,
    ident: &Ident,
    code: &mut Code<'a>,
) -> Result<(), AllocError>
    ensures { OnOk result (Puts (set_name scope.entry.slots.now.places.items (ident_view ident.now)) code.old code.new) }
{
    match ident {
        Ident::Named(place) => scope.put_set(*place as usize, code),
        Ident::Blank(_) => code.put(Instruction::Pop),
    }
}

/// Puts the lines that give declared locals their values, the last local first.
fn put_set_names<'a>(
    scope: SlotScope<'a>,
    names: &[Item<Ident>],
    code: &mut Code<'a>,
) -> Result<(), AllocError>
    ensures { OnOk result (Puts (from_last (set_name scope.entry.slots.now.places.items) (list_view ident_view names.now)) code.old code.new) }
{
    for name in names {
        put_set_name(scope, &name.value, code)?;
    }
    Ok(())
}

/// Puts the line that gives a left side of `:=` its value. A `_` drops the value.
#[tactic(auto, unfolding(crate::specs::LineView::line_of, crate::specs::Statements::set_left, go_ast::specs::View::expr_view, types_expr::specs::WorldView::bound_of))]
fn put_set_left<'a>(
    scope: SlotScope<'a>,
    left: &Expr,
    code: &mut Code<'a>,
) -> Result<(), AllocError>
    ensures { OnOk result (Puts (set_left (source_of scope.entry.source.now) scope.entry.slots.now.places.items (expr_view left.now)) code.old code.new) }
{
    match left {
        Expr::Name(place) => match scope.source.world.bound(*place as usize) {
            Some(Bound::Local(declared)) => scope.put_set(*declared, code),
            _ => Ok(()),
        },
        Expr::Blank(_) => code.put(Instruction::Pop),
        _ => Ok(()),
    }
}

/// Puts the lines that give the left sides of `:=` their values, the last one first.
fn put_set_lefts<'a>(
    scope: SlotScope<'a>,
    left: &[ExprItem],
    code: &mut Code<'a>,
) -> Result<(), AllocError>
    ensures { OnOk result (Puts (from_last (set_left (source_of scope.entry.source.now) scope.entry.slots.now.places.items) (exprs_view left.now)) code.old code.new) }
{
    for item in left {
        put_set_left(scope, &item.value, code)?;
    }
    Ok(())
}

/// Puts the lines of the address of a left side of `=`.
#[tactic(auto, unfolding(crate::specs::LineView::line_of, crate::specs::Statements::target_lines, go_ast::specs::View::expr_view))]
fn target<'a>(
    alloc: Global,
    scope: SlotScope<'a>,
    left: &Expr,
    code: &mut Code<'a>,
) -> Result<(), AllocError>
    ensures { OnOk result (Puts (target_lines (source_of scope.entry.source.now) scope.entry.slots.now.places.items (expr_view left.now)) code.old code.new) }
{
    match left {
        Expr::Blank(_) => code.put(Instruction::BlankAddress),
        _ => operand(alloc, scope, left, Wanted::Address, code),
    }
}

/// Puts the lines of the addresses of the left sides of `=`.
fn targets<'a>(
    alloc: Global,
    scope: SlotScope<'a>,
    left: &[ExprItem],
    code: &mut Code<'a>,
) -> Result<(), AllocError>
    ensures { OnOk result (Puts (targets_of (source_of scope.entry.source.now) scope.entry.slots.now.places.items (exprs_view left.now)) code.old code.new) }
{
    for i in (0..left.len()).rev() {
        target(alloc, scope, &left[i].value, code)?;
    }
    Ok(())
}

/// The binary operator of `++` or `--`.
fn step_op(op: StepOp) -> BinaryOp
    ensures { result ≡ step_op op }
{
    match op {
        StepOp::Increment => BinaryOp::Add,
        StepOp::Decrement => BinaryOp::Subtract,
    }
}

/// The binary operator of `+=`, `-=`, `*=`, `/=` or `%=`.
fn binary_of(op: UpdateOp) -> BinaryOp
    ensures { result ≡ binary_of op }
{
    match op {
        UpdateOp::Add => BinaryOp::Add,
        UpdateOp::Subtract => BinaryOp::Subtract,
        UpdateOp::Multiply => BinaryOp::Multiply,
        UpdateOp::Divide => BinaryOp::Divide,
        UpdateOp::Remainder => BinaryOp::Remainder,
    }
}

/// Puts the last lines of an update: the binary operator and the assignment.
#[tactic(auto, unfolding(crate::specs::LineView::line_of))]
fn put_operation(op: BinaryOp, code: &mut Code<'_>) -> Result<(), AllocError>
    ensures { OnOk result (Puts (line.Operate op ∷ line.Assign 1 ∷ []) code.old code.new) }
{
    code.put(Instruction::Assign(1))?;
    code.put(Instruction::Operate(op))
}

/// Puts the lines behind the address in an update: the address is kept, and its value loaded.
#[tactic(auto, unfolding(crate::specs::LineView::line_of))]
fn put_load(code: &mut Code<'_>) -> Result<(), AllocError>
    ensures { OnOk result (Puts (line.Duplicate ∷ line.Load ∷ []) code.old code.new) }
{
    code.put(Instruction::Load)?;
    code.put(Instruction::Duplicate)
}

/// Puts the lines of `x++` or `x--`.
#[tactic(auto, unfolding(crate::specs::LineView::line_of))]
fn step<'a>(
    alloc: Global,
    scope: SlotScope<'a>,
    operand_expr: &Expr,
    op: StepOp,
    code: &mut Code<'a>,
) -> Result<(), AllocError>
    ensures { OnOk result (Puts (update_lines (address_lines (source_of scope.entry.source.now) scope.entry.slots.now.places.items (expr_view operand_expr.now)) (line.Integer 1 ∷ []) (step_op op)) code.old code.new) }
{
    put_operation(step_op(op), code)?;
    code.put(Instruction::Integer(1))?;
    put_load(code)?;
    operand(alloc, scope, operand_expr, Wanted::Address, code)
}

/// Puts the lines of `x op= y`.
fn update<'a>(
    alloc: Global,
    scope: SlotScope<'a>,
    left: &Expr,
    op: UpdateOp,
    right: &Expr,
    code: &mut Code<'a>,
) -> Result<(), AllocError>
    ensures { OnOk result (Puts (update_lines (address_lines (source_of scope.entry.source.now) scope.entry.slots.now.places.items (expr_view left.now))
        (value_lines (source_of scope.entry.source.now) scope.entry.slots.now.places.items (expr_view right.now)) (binary_of op)) code.old code.new) }
{
    put_operation(binary_of(op), code)?;
    operand(alloc, scope, right, Wanted::Value, code)?;
    put_load(code)?;
    operand(alloc, scope, left, Wanted::Address, code)
}

/// Puts the lines of `x, y = a, b`.
#[tactic(auto, unfolding(crate::specs::LineView::line_of))]
fn assign<'a>(
    alloc: Global,
    scope: SlotScope<'a>,
    left: &[ExprItem],
    right: &[ExprItem],
    code: &mut Code<'a>,
) -> Result<(), AllocError>
    ensures { OnOk result (Puts (targets_of (source_of scope.entry.source.now) scope.entry.slots.now.places.items (exprs_view left.now)
        ++ (lines_of_values (source_of scope.entry.source.now) scope.entry.slots.now.places.items (exprs_view right.now) ++ (line.Assign (length left.now) ∷ []))) code.old code.new) }
{
    code.put(Instruction::Assign(left.len()))?;
    values(alloc, scope, right, code)?;
    targets(alloc, scope, left, code)
}

/// Puts the lines of `x, y := a, b`.
fn define<'a>(
    alloc: Global,
    scope: SlotScope<'a>,
    left: &[ExprItem],
    right: &[ExprItem],
    code: &mut Code<'a>,
) -> Result<(), AllocError>
    ensures { OnOk result (Puts (lines_of_values (source_of scope.entry.source.now) scope.entry.slots.now.places.items (exprs_view right.now)
        ++ from_last (set_left (source_of scope.entry.source.now) scope.entry.slots.now.places.items) (exprs_view left.now)) code.old code.new) }
{
    put_set_lefts(scope, left, code)?;
    values(alloc, scope, right, code)
}

/// Puts the lines of a simple statement.
#[tactic(auto, unfolding(go_ast::specs::FileView::simple_view, crate::specs::Statements::simple_lines))]
pub fn simple<'a>(
    alloc: Global,
    scope: SlotScope<'a>,
    statement: &SimpleStmt,
    code: &mut Code<'a>,
) -> Result<(), AllocError>
    ensures { OnOk result (Puts (simple_lines (source_of scope.entry.source.now) scope.entry.slots.now.places.items (simple_view statement.now)) code.old code.new) }
{
    match statement {
        SimpleStmt::Expr(e) => {
            code.put_pops(scope.mode(e).values())?;
            operand(alloc, scope, e, Wanted::Value, code)
        }
        SimpleStmt::Step {
            operand: stepped,
            op,
            ..
        } => step(alloc, scope, stepped, *op, code),
        SimpleStmt::Update {
            left,
            op,
            right,
            ..
        } => update(alloc, scope, left, *op, right, code),
        SimpleStmt::Assign { left, right, .. } => assign(alloc, scope, left, right, code),
        SimpleStmt::Define { left, right, .. } => define(alloc, scope, left, right, code),
    }
}

/// Puts the lines of an optional simple statement.
pub fn optional<'a>(
    alloc: Global,
    scope: SlotScope<'a>,
    statement: &Option<SimpleStmt>,
    code: &mut Code<'a>,
) -> Result<(), AllocError>
    ensures { OnOk result (Puts (optional_lines (source_of scope.entry.source.now) scope.entry.slots.now.places.items (option_view simple_view statement.now)) code.old code.new) }
{
    match statement {
        None => Ok(()),
        Some(statement) => simple(alloc, scope, statement, code),
    }
}

/// Puts the lines of the simple statement before the condition of an `if`.
#[tactic(auto, unfolding(go_ast::specs::FileView::init_view))]
pub fn init<'a>(
    alloc: Global,
    scope: SlotScope<'a>,
    init: &Option<IfInit>,
    code: &mut Code<'a>,
) -> Result<(), AllocError>
    ensures { OnOk result (Puts (init_lines (source_of scope.entry.source.now) scope.entry.slots.now.places.items (option_view init_view init.now)) code.old code.new) }
{
    match init {
        None => Ok(()),
        Some(init) => optional(alloc, scope, &init.statement, code),
    }
}

/// Puts the line of the zero value of a type, if the type is not broken.
#[tactic(auto, unfolding(crate::specs::LineView::line_of))]
fn put_zero<'a>(
    alloc: Global,
    scope: SlotScope<'a>,
    written: &TypeExpr,
    code: &mut Code<'a>,
) -> Result<(), AllocError>
    ensures { OnOk result (Puts (line_if_known line.Zero (judge_type (source_of scope.entry.source.now).world (type_view written.now)).type_of) code.old code.new) }
{
    match written_type(alloc, &scope.source.world, written)? {
        None => Ok(()),
        Some(own) => code.put(Instruction::Zero(own)),
    }
}

/// Puts the line of the zero value of a type, once for each name.
fn put_zeros<'a>(
    alloc: Global,
    scope: SlotScope<'a>,
    written: &TypeExpr,
    names: &[Item<Ident>],
    code: &mut Code<'a>,
) -> Result<(), AllocError>
    ensures { OnOk result (Puts (flat_map (λ i. line_if_known line.Zero (judge_type (source_of scope.entry.source.now).world (type_view written.now)).type_of) (list_view ident_view names.now)) code.old code.new) }
{
    for _i in (0..names.len()).rev() {
        put_zero(alloc, scope, written, code)?;
    }
    Ok(())
}

/// Puts the lines of the values with which locals begin.
#[tactic(auto, unfolding(go_ast::specs::FileView::local_view, crate::specs::Statements::first_values, crate::specs::Statements::zeros))]
fn first_values<'a>(
    alloc: Global,
    scope: SlotScope<'a>,
    local: &LocalSpec,
    code: &mut Code<'a>,
) -> Result<(), AllocError>
    ensures { OnOk result (Puts (first_values (source_of scope.entry.source.now) scope.entry.slots.now.places.items (local_view local.now) (local_view local.now).values) code.old code.new) }
{
    match &local.values {
        Some(given) => values(alloc, scope, &given.values, code),
        None => match &local.local_type {
            None => Ok(()),
            Some(written) => put_zeros(alloc, scope, written, &local.names, code),
        },
    }
}

/// Puts the lines of a `var` line of locals.
#[tactic(auto, unfolding(go_ast::specs::FileView::local_view, crate::specs::Statements::local_lines))]
fn local<'a>(
    alloc: Global,
    scope: SlotScope<'a>,
    local: &LocalSpec,
    code: &mut Code<'a>,
) -> Result<(), AllocError>
    ensures { OnOk result (Puts (local_lines (source_of scope.entry.source.now) scope.entry.slots.now.places.items (local_view local.now)) code.old code.new) }
{
    put_set_names(scope, &local.names, code)?;
    first_values(alloc, scope, local, code)
}

/// Puts the lines of several `var` lines of locals.
fn each_local<'a>(
    alloc: Global,
    scope: SlotScope<'a>,
    items: &[Item<LocalSpec>],
    code: &mut Code<'a>,
) -> Result<(), AllocError>
    ensures { OnOk result (Puts (flat_map (λ i. local_lines (source_of scope.entry.source.now) scope.entry.slots.now.places.items i.value) (list_view local_view items.now)) code.old code.new) }
{
    for i in (0..items.len()).rev() {
        local(alloc, scope, &items[i].value, code)?;
    }
    Ok(())
}

/// Puts the lines of the declarations of a `var`.
#[tactic(auto, unfolding(go_ast::specs::View::group_view))]
pub fn locals<'a>(
    alloc: Global,
    scope: SlotScope<'a>,
    group: &Group<LocalSpec>,
    code: &mut Code<'a>,
) -> Result<(), AllocError>
    ensures { OnOk result (Puts (flat_map (local_lines (source_of scope.entry.source.now) scope.entry.slots.now.places.items) (group_items (group_view local_view group.now))) code.old code.new) }
{
    match group {
        Group::Single(spec) => local(alloc, scope, spec, code),
        Group::Several { items, .. } => each_local(alloc, scope, items, code),
    }
}
