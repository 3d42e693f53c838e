//! Makes the code of statements, from its last line to its first.
ghost use Rattle.std.specs.Prelude.{◌≤◌, ◌-◌, ◌++◌, ◌∷◌, [], IfOk, OnOk, length};
ghost use Rattle.go_ast.specs.View.{expr_view, exprs_view};
ghost use Rattle.go_ast.specs.FileView.{for_view, stmt_view, block_view, if_view, else_view};
ghost use Rattle.build_object.specs.Lines.{Jump, JumpUnless, Return};
ghost use Rattle.build_object.specs.LineView.{lines_in, Puts};
ghost use Rattle.build_object.specs.Expressions.{value_lines};
ghost use Rattle.build_object.specs.SourceView.{source_of};
ghost use Rattle.build_object.specs.Statements.{lines_of_values, body_exits, loop_lines, loop_condition, for_init, for_post, for_condition, statement_lines, block_lines, if_lines, else_lines};
ghost use Rattle.build_object.specs.ExitsView.{else_jump, exits_of, lines_of_each, AreExitsWithin, PutsElse};

use crate::code::Code;
use crate::expressions::operand;
use crate::instructions::Instruction;
use crate::operands::Wanted;
use crate::scope::SlotScope;
use crate::simple::{init, locals, optional, simple, values};
use go_ast::tree::{BlockItem, BlockStmt, Else, Expr, ExprItem, ForHeader, IfStmt, Stmt};
use std::alloc::{AllocError, Global};

/// The targets of `continue` (`next`) and `break` (`out`), each by the number of lines from it to the end of the code.
#[derive(Clone, Copy)]
pub struct JumpMarks {
    pub next: usize,
    pub out: usize,
}

/// Puts the lines of a condition, which jumps to the last `end` lines where it is false.
#[tactic(auto, unfolding(crate::specs::LineView::line_of))]
fn test<'a>(
    alloc: Global,
    scope: SlotScope<'a>,
    tested: &Expr,
    end: usize,
    code: &mut Code<'a>,
) -> Result<(), AllocError>
    requires { end ≤ length (lines_in code.old) }
    ensures { OnOk result (Puts (value_lines (source_of scope.entry.source.now) scope.entry.slots.now.places.items (expr_view tested.now) ++ (JumpUnless (length (lines_in code.old) - end) ∷ [])) code.old code.new) }
{
    let passed = code.len() - end;
    code.put(Instruction::JumpUnless(passed))?;
    operand(alloc, scope, tested, Wanted::Value, code)
}

/// Puts the lines of the post statement of a `for`.
#[tactic(auto, unfolding(go_ast::specs::FileView::for_view))]
fn post<'a>(
    alloc: Global,
    scope: SlotScope<'a>,
    header: &ForHeader,
    code: &mut Code<'a>,
) -> Result<(), AllocError>
    ensures { OnOk result (Puts (for_post (source_of scope.entry.source.now) scope.entry.slots.now.places.items (for_view header.now)) code.old code.new) }
{
    match header {
        ForHeader::Forever | ForHeader::While(_) => Ok(()),
        ForHeader::Clauses { post, .. } => optional(alloc, scope, post, code),
    }
}

/// Puts the lines of a loop's condition, if it has one. Where it is false, it jumps to the last `end` lines.
#[tactic(auto, unfolding(go_ast::specs::FileView::for_view))]
fn header_condition<'a>(
    alloc: Global,
    scope: SlotScope<'a>,
    header: &ForHeader,
    end: usize,
    code: &mut Code<'a>,
) -> Result<(), AllocError>
    requires { end ≤ length (lines_in code.old) }
    ensures { OnOk result (Puts (loop_condition (source_of scope.entry.source.now) scope.entry.slots.now.places.items (for_condition (for_view header.now)) (length (lines_in code.old) - end)) code.old code.new) }
{
    match header {
        ForHeader::Forever => Ok(()),
        ForHeader::While(tested) => test(alloc, scope, tested, end, code),
        ForHeader::Clauses {
            condition: None,
            ..
        } => Ok(()),
        ForHeader::Clauses {
            condition: Some(tested),
            ..
        } => test(alloc, scope, tested, end, code),
    }
}

/// Puts the lines of the init statement of a `for`.
#[tactic(auto, unfolding(go_ast::specs::FileView::for_view))]
fn header_init<'a>(
    alloc: Global,
    scope: SlotScope<'a>,
    header: &ForHeader,
    code: &mut Code<'a>,
) -> Result<(), AllocError>
    ensures { OnOk result (Puts (for_init (source_of scope.entry.source.now) scope.entry.slots.now.places.items (for_view header.now)) code.old code.new) }
{
    match header {
        ForHeader::Forever | ForHeader::While(_) => Ok(()),
        ForHeader::Clauses { init, .. } => optional(alloc, scope, init, code),
    }
}

/// Puts the jump over the lines behind `else`, if there is an `else`. The code had `end` lines before these were put.
#[tactic(auto, unfolding(crate::specs::LineView::line_of))]
fn put_jump_over(has_else: bool, end: usize, code: &mut Code<'_>) -> Result<(), AllocError>
    requires { end ≤ length (lines_in code.old) }
    ensures { OnOk result (Puts (else_jump has_else (length (lines_in code.old) - end)) code.old code.new) }
{
    if has_else {
        let passed = code.len() - end;
        code.put(Instruction::Jump(passed))?;
    }
    Ok(())
}

/// Puts a jump to the last `mark` lines.
#[tactic(auto, unfolding(crate::specs::LineView::line_of))]
fn put_exit(mark: usize, code: &mut Code<'_>) -> Result<(), AllocError>
    requires { mark ≤ length (lines_in code.old) }
    ensures { OnOk result (Puts (Jump (length (lines_in code.old) - mark) ∷ []) code.old code.new) }
{
    let passed = code.len() - mark;
    code.put(Instruction::Jump(passed))
}

/// Puts the lines of a `return`.
#[tactic(auto, unfolding(crate::specs::LineView::line_of))]
fn returned<'a>(
    alloc: Global,
    scope: SlotScope<'a>,
    list: &[ExprItem],
    results: usize,
    code: &mut Code<'a>,
) -> Result<(), AllocError>
    ensures { OnOk result (Puts (lines_of_values (source_of scope.entry.source.now) scope.entry.slots.now.places.items (exprs_view list.now) ++ (Return results ∷ [])) code.old code.new) }
{
    code.put(Instruction::Return(results))?;
    values(alloc, scope, list, code)
}

/// Puts the lines of a statement of a function with so many results.
#[cycle(statement)]
fn statement<'a>(
    alloc: Global,
    scope: SlotScope<'a>,
    next: &Stmt,
    results: usize,
    marks: JumpMarks,
    code: &mut Code<'a>,
) -> Result<(), AllocError>
    requires { AreExitsWithin marks (length (lines_in code.old)) }
    ensures { OnOk result (Puts (statement_lines (source_of scope.entry.source.now) scope.entry.slots.now.places.items results (exits_of marks (length (lines_in code.old))) (stmt_view next.now)) code.old code.new) }
{
    match next {
        Stmt::Empty => Ok(()),
        Stmt::Var { group, .. } => locals(alloc, scope, group, code),
        Stmt::Simple(statement) => simple(alloc, scope, statement, code),
        Stmt::Block(inner) => block(alloc, scope, inner, results, marks, code),
        Stmt::If(branch) => branches(alloc, scope, branch, results, marks, code),
        Stmt::For { header, body, .. } => {
            turns(alloc, scope, body, header, results, code)?;
            header_init(alloc, scope, header, code)
        }
        Stmt::Break(_) => put_exit(marks.out, code),
        Stmt::Continue(_) => put_exit(marks.next, code),
        Stmt::Return { values: list, .. } => returned(alloc, scope, list, results, code),
    }
}

/// Puts the lines of a loop: its condition, its body, its post statement, and the jump back to the condition.
#[cycle(statement)]
fn turns<'a>(
    alloc: Global,
    scope: SlotScope<'a>,
    body: &BlockStmt,
    header: &ForHeader,
    results: usize,
    code: &mut Code<'a>,
) -> Result<(), AllocError>
    ensures { OnOk result (Puts (loop_lines (source_of scope.entry.source.now) scope.entry.slots.now.places.items (for_condition (for_view header.now))
        (block_lines (source_of scope.entry.source.now) scope.entry.slots.now.places.items results (body_exits (for_post (source_of scope.entry.source.now) scope.entry.slots.now.places.items (for_view header.now))) (block_view body.now))
        (for_post (source_of scope.entry.source.now) scope.entry.slots.now.places.items (for_view header.now))) code.old code.new) }
{
    let out = code.len();
    code.put(Instruction::JumpBack(0))?;
    post(alloc, scope, header, code)?;
    let next = code.len();
    block(alloc, scope, body, results, JumpMarks { next, out }, code)?;
    header_condition(alloc, scope, header, out, code)?;
    code.turn_back(out);
    Ok(())
}

/// Puts the lines of a block of a function with so many results.
#[cycle(statement)]
pub fn block<'a>(
    alloc: Global,
    scope: SlotScope<'a>,
    inner: &BlockStmt,
    results: usize,
    marks: JumpMarks,
    code: &mut Code<'a>,
) -> Result<(), AllocError>
    requires { AreExitsWithin marks (length (lines_in code.old)) }
    ensures { OnOk result (Puts (block_lines (source_of scope.entry.source.now) scope.entry.slots.now.places.items results (exits_of marks (length (lines_in code.old))) (block_view inner.now)) code.old code.new) }
{
    each(alloc, scope, &inner.statements, results, marks, code)
}

/// Puts the lines of a list of statements, of a function with so many results.
#[cycle(statement)]
fn each<'a>(
    alloc: Global,
    scope: SlotScope<'a>,
    list: &[BlockItem],
    results: usize,
    marks: JumpMarks,
    code: &mut Code<'a>,
) -> Result<(), AllocError>
    requires { AreExitsWithin marks (length (lines_in code.old)) }
    ensures { OnOk result (Puts (lines_of_each (source_of scope.entry.source.now) scope.entry.slots.now.places.items results (exits_of marks (length (lines_in code.old))) list.now) code.old code.new) }
{
    for i in (0..list.len()).rev() {
        statement(alloc, scope, &list[i].statement, results, marks, code)?;
    }
    Ok(())
}

/// Puts the lines of an `if` of a function with so many results.
#[cycle(statement)]
fn branches<'a>(
    alloc: Global,
    scope: SlotScope<'a>,
    branch: &IfStmt,
    results: usize,
    marks: JumpMarks,
    code: &mut Code<'a>,
) -> Result<(), AllocError>
    requires { AreExitsWithin marks (length (lines_in code.old)) }
    ensures { OnOk result (Puts (if_lines (source_of scope.entry.source.now) scope.entry.slots.now.places.items results (exits_of marks (length (lines_in code.old))) (if_view branch.now)) code.old code.new) }
{
    let end = code.len();
    let has_else = otherwise(alloc, scope, &branch.otherwise, results, marks, code)?;
    let skipped = code.len();
    put_jump_over(has_else, end, code)?;
    block(alloc, scope, &branch.body, results, marks, code)?;
    test(alloc, scope, &branch.condition, skipped, code)?;
    init(alloc, scope, &branch.init, code)
}

/// Puts the lines behind an `else`. Returns whether there is an `else`.
#[cycle(statement)]
fn otherwise<'a>(
    alloc: Global,
    scope: SlotScope<'a>,
    other: &Else,
    results: usize,
    marks: JumpMarks,
    code: &mut Code<'a>,
) -> Result<bool, AllocError>
    requires { AreExitsWithin marks (length (lines_in code.old)) }
    ensures { IfOk result (λ has_else. PutsElse (else_lines (source_of scope.entry.source.now) scope.entry.slots.now.places.items results (exits_of marks (length (lines_in code.old))) (else_view other.now)) has_else code.old code.new) }
{
    match other {
        Else::None => Ok(false),
        Else::If { branch, .. } => {
            branches(alloc, scope, branch, results, marks, code)?;
            Ok(true)
        }
        Else::Block { block: inner, .. } => {
            block(alloc, scope, inner, results, marks, code)?;
            Ok(true)
        }
    }
}
