//! Finds the faults of statements that need no types: a `:=` that declares no new variable, and a `break` or `continue` outside a `for`.
ghost use Rattle.std.specs.Prelude.{◌↔◌, ◌∷◌, [], IsTrue, OnOk, map};
ghost use Rattle.types_declared.specs.Listing.{AddsFaults, AddsEach};
ghost use Rattle.go_ast.specs.View.{expr_view, exprs_view, option_view};
ghost use Rattle.go_ast.specs.FileView.{simple_view, init_view, for_view, stmt_view, block_view, if_view, else_view, decl_view};
ghost use Rattle.go_ast.specs.SourceFile.{source_of};
ghost use Rattle.types_declared.specs.Laid.{laid_in};
ghost use Rattle.types_resolve.specs.StatementMarks.{Defines, DeclaresName, SomeDeclares, IsFaultOfMark, IsFaultOfMarks, IsMarkFault, decl_marks, simple_marks, optional_marks, init_marks, for_marks, stray, statement_marks, block_marks, if_marks, else_marks};

use crate::table::declares_at;
use base_files::FaultKind;
use go_ast::FileTree;
use go_ast::tree::{
    BlockStmt, Decl, Else, Expr, ExprItem, ForHeader, IfInit, IfStmt, SimpleStmt, Stmt,
};
use go_scope::table::ScopeTable;
use std::alloc::AllocError;
use types_declared::{Fault, push, push_if};

/// A file by its rank, with the scope table of its package.
#[derive(Clone, Copy)]
pub struct FileScope<'a> {
    pub table: &'a ScopeTable<'a>,
    pub rank: usize,
}

/// Whether a left operand of `:=` is a name that declares a variable.
fn declares_name(scope: FileScope<'_>, left: &Expr) -> bool
    ensures { IsTrue result ↔ DeclaresName (laid_in scope.entry.table.now) scope.entry.rank (expr_view left.now) }
{
    match left {
        Expr::Name(token) => declares_at(scope.table, scope.rank, *token as usize),
        _ => false,
    }
}

/// Whether no left operand of `:=` declares a variable.
fn is_old(scope: FileScope<'_>, left: &[ExprItem]) -> bool
    ensures { IsTrue result ↔ (SomeDeclares (laid_in scope.entry.table.now) scope.entry.rank (exprs_view left.now) → ⊥) }
{
    for item in left {
        if declares_name(scope, &item.value) {
            return false;
        }
    }
    true
}

/// Adds the fault of a `:=` that declares no variable.
fn add_define(
    found: &mut Vec<Fault>,
    scope: FileScope<'_>,
    left: &[ExprItem],
    at: usize,
) -> Result<(), AllocError>
    ensures { OnOk result (AddsEach (IsFaultOfMark (laid_in scope.entry.table.now) scope.entry.rank) found.old.items found.new.items (Defines (exprs_view left.now) at ∷ [])) }
{
    let fault = Fault {
        file: scope.rank,
        token: at,
        kind: FaultKind::NoNew,
    };
    push_if(found, is_old(scope, left), fault)
}

/// Adds the fault of a simple statement, if it is a `:=` that declares no variable.
fn add_simple(
    found: &mut Vec<Fault>,
    scope: FileScope<'_>,
    statement: &SimpleStmt,
) -> Result<(), AllocError>
    ensures { OnOk result (AddsEach (IsFaultOfMark (laid_in scope.entry.table.now) scope.entry.rank) found.old.items found.new.items (simple_marks (simple_view statement.now))) }
{
    match statement {
        SimpleStmt::Define { left, at, .. } => add_define(found, scope, left, *at as usize),
        SimpleStmt::Expr(_) => Ok(()),
        SimpleStmt::Step { .. } => Ok(()),
        SimpleStmt::Update { .. } => Ok(()),
        SimpleStmt::Assign { .. } => Ok(()),
    }
}

/// Adds the fault of a simple statement, if there is one.
fn add_optional(
    found: &mut Vec<Fault>,
    scope: FileScope<'_>,
    statement: &Option<SimpleStmt>,
) -> Result<(), AllocError>
    ensures { OnOk result (AddsEach (IsFaultOfMark (laid_in scope.entry.table.now) scope.entry.rank) found.old.items found.new.items (optional_marks (option_view simple_view statement.now))) }
{
    match statement {
        None => Ok(()),
        Some(simple) => add_simple(found, scope, simple),
    }
}

/// Adds the fault of a `break` or `continue`, unless it is in a `for`.
fn add_stray(
    found: &mut Vec<Fault>,
    scope: FileScope<'_>,
    in_for: bool,
    at: usize,
) -> Result<(), AllocError>
    ensures { OnOk result (AddsEach (IsFaultOfMark (laid_in scope.entry.table.now) scope.entry.rank) found.old.items found.new.items (stray in_for at)) }
{
    if in_for {
        return Ok(());
    }
    let fault = Fault {
        file: scope.rank,
        token: at,
        kind: FaultKind::Loop,
    };
    push(found, fault)
}

/// Adds the faults of the statement before an `if` condition.
fn add_init(
    found: &mut Vec<Fault>,
    scope: FileScope<'_>,
    init: &Option<IfInit>,
) -> Result<(), AllocError>
    ensures { OnOk result (AddsEach (IsFaultOfMark (laid_in scope.entry.table.now) scope.entry.rank) found.old.items found.new.items (init_marks (option_view init_view init.now))) }
{
    match init {
        None => Ok(()),
        Some(init) => add_optional(found, scope, &init.statement),
    }
}

/// Adds the faults of the init and post statements of a `for`.
fn add_header(
    found: &mut Vec<Fault>,
    scope: FileScope<'_>,
    header: &ForHeader,
) -> Result<(), AllocError>
    ensures { OnOk result (AddsEach (IsFaultOfMark (laid_in scope.entry.table.now) scope.entry.rank) found.old.items found.new.items (for_marks (for_view header.now))) }
{
    match header {
        ForHeader::Forever => Ok(()),
        ForHeader::While(_) => Ok(()),
        ForHeader::Clauses { init, post, .. } => {
            add_optional(found, scope, init)?;
            add_optional(found, scope, post)
        }
    }
}

/// Adds the faults of a statement, which is in the body of a `for` where `in_for` is true.
#[cycle(statement)]
fn add_statement(
    found: &mut Vec<Fault>,
    scope: FileScope<'_>,
    in_for: bool,
    statement: &Stmt,
) -> Result<(), AllocError>
    ensures { OnOk result (AddsEach (IsFaultOfMark (laid_in scope.entry.table.now) scope.entry.rank) found.old.items found.new.items (statement_marks in_for (stmt_view statement.now))) }
{
    match statement {
        Stmt::Empty => Ok(()),
        Stmt::Var { .. } => Ok(()),
        Stmt::Simple(simple) => add_simple(found, scope, simple),
        Stmt::Block(block) => add_block(found, scope, in_for, block),
        Stmt::If(branch) => add_if(found, scope, in_for, branch),
        Stmt::For { header, body, .. } => {
            add_header(found, scope, header)?;
            add_block(found, scope, true, body)
        }
        Stmt::Break(at) => add_stray(found, scope, in_for, *at as usize),
        Stmt::Continue(at) => add_stray(found, scope, in_for, *at as usize),
        Stmt::Return { .. } => Ok(()),
    }
}

/// Adds the faults of the statements of a block.
#[cycle(statement)]
fn add_block(
    found: &mut Vec<Fault>,
    scope: FileScope<'_>,
    in_for: bool,
    block: &BlockStmt,
) -> Result<(), AllocError>
    ensures { OnOk result (AddsEach (IsFaultOfMark (laid_in scope.entry.table.now) scope.entry.rank) found.old.items found.new.items (block_marks in_for (block_view block.now))) }
{
    for item in &block.statements {
        add_statement(found, scope, in_for, &item.statement)?;
    }
    Ok(())
}

/// Adds the faults of an `if` statement with its branches.
#[cycle(statement)]
fn add_if(
    found: &mut Vec<Fault>,
    scope: FileScope<'_>,
    in_for: bool,
    branch: &IfStmt,
) -> Result<(), AllocError>
    ensures { OnOk result (AddsEach (IsFaultOfMark (laid_in scope.entry.table.now) scope.entry.rank) found.old.items found.new.items (if_marks in_for (if_view branch.now))) }
{
    add_init(found, scope, &branch.init)?;
    add_block(found, scope, in_for, &branch.body)?;
    add_else(found, scope, in_for, &branch.otherwise)
}

/// Adds the faults of an `else` branch.
#[cycle(statement)]
fn add_else(
    found: &mut Vec<Fault>,
    scope: FileScope<'_>,
    in_for: bool,
    otherwise: &Else,
) -> Result<(), AllocError>
    ensures { OnOk result (AddsEach (IsFaultOfMark (laid_in scope.entry.table.now) scope.entry.rank) found.old.items found.new.items (else_marks in_for (else_view otherwise.now))) }
{
    match otherwise {
        Else::None => Ok(()),
        Else::If { branch, .. } => add_if(found, scope, in_for, branch),
        Else::Block { block, .. } => add_block(found, scope, in_for, block),
    }
}

/// Adds the faults of a function's body; other declarations have none.
fn add_decl(found: &mut Vec<Fault>, scope: FileScope<'_>, decl: &Decl) -> Result<(), AllocError>
    ensures { OnOk result (AddsEach (IsFaultOfMark (laid_in scope.entry.table.now) scope.entry.rank) found.old.items found.new.items (decl_marks (decl_view decl.now))) }
{
    match decl {
        Decl::Var { .. } => Ok(()),
        Decl::Type { .. } => Ok(()),
        Decl::Func { func, .. } => add_block(found, scope, false, &func.body),
    }
}

/// Adds the faults of the statements of a file.
fn add_file(found: &mut Vec<Fault>, scope: FileScope<'_>, file: &FileTree) -> Result<(), AllocError>
    ensures { OnOk result (AddsFaults found.old.items found.new.items (IsFaultOfMarks (laid_in scope.entry.table.now) (scope.entry.rank, source_of file.now))) }
{
    let tree = file.file();
    for decl in &tree.decls {
        add_decl(found, scope, decl)?;
    }
    Ok(())
}

/// Adds the faults of a package's statements that need no types.
pub(crate) fn add_marks(
    found: &mut Vec<Fault>,
    table: &ScopeTable,
    files: &[FileTree],
) -> Result<(), AllocError>
    ensures { OnOk result (AddsFaults found.old.items found.new.items (IsMarkFault (map source_of files.now) (laid_in table.now))) }
{
    for rank in 0..files.len() {
        add_file(
            found,
            FileScope {
                table: &*table,
                rank,
            },
            &files[rank],
        )?;
    }
    Ok(())
}
