//! Collects the identifiers of statements and blocks.
ghost use Rattle.std.specs.Prelude.{OnOk};
ghost use Rattle.go_scope.specs.StatementSites.{statement_sites, block_sites, if_sites, else_sites};
ghost use Rattle.go_scope.specs.IdentifierViews.{as_source, AddsTo};
ghost use Rattle.go_ast.specs.FileView.{stmt_view, block_view, if_view, else_view};

use crate::expressions::add_expr;
use crate::model::{Block, Identifier};
use crate::simple::{add_exprs, add_header, add_init, add_locals, add_simple};
use crate::source::RankedFile;
use go_ast::tree;
use go_ast::tree::{Else, IfStmt, Stmt};
use std::alloc::AllocError;

/// Adds the identifiers of a statement in a block. The token `following` comes after the statement.
#[cycle(statement)]
pub(crate) fn add_statement<'a>(
    source: &RankedFile<'a>,
    found: &mut Vec<Identifier<'a>>,
    block: Block,
    following: usize,
    statement: &Stmt,
) -> Result<(), AllocError>
    ensures { OnOk result (AddsTo found.old.items found.new.items (statement_sites (as_source source.now) block following (stmt_view statement.now))) }
{
    match statement {
        Stmt::Empty => Ok(()),
        Stmt::Var { group, .. } => add_locals(source, found, block, following, group),
        Stmt::Simple(simple) => add_simple(source, found, block, following, simple),
        Stmt::Block(inner) => add_block(source, found, inner),
        Stmt::If(branch) => add_if(source, found, following, branch),
        Stmt::For { at, header, body } => {
            let round = Block::Inner(source.rank, *at as usize, following);
            add_header(source, found, round, body.open as usize, header)?;
            add_block(source, found, body)
        }
        Stmt::Break(_) => Ok(()),
        Stmt::Continue(_) => Ok(()),
        Stmt::Return { values, .. } => add_exprs(source, found, values),
    }
}

/// Adds the identifiers of a block in braces.
#[cycle(statement)]
pub(crate) fn add_block<'a>(
    source: &RankedFile<'a>,
    found: &mut Vec<Identifier<'a>>,
    block: &tree::BlockStmt,
) -> Result<(), AllocError>
    ensures { OnOk result (AddsTo found.old.items found.new.items (block_sites (as_source source.now) (block_view block.now))) }
{
    let inner = Block::Inner(source.rank, block.open as usize, block.close as usize);
    for item in &block.statements {
        let behind = item.semicolon.unwrap_or(block.close);
        add_statement(source, found, inner, behind as usize, &item.statement)?;
    }
    Ok(())
}

/// Adds the identifiers of an `if`. The token `following` comes after the statement, where the block of the `if` ends.
#[cycle(statement)]
fn add_if<'a>(
    source: &RankedFile<'a>,
    found: &mut Vec<Identifier<'a>>,
    following: usize,
    branch: &IfStmt,
) -> Result<(), AllocError>
    ensures { OnOk result (AddsTo found.old.items found.new.items (if_sites (as_source source.now) following (if_view branch.now))) }
{
    let round = Block::Inner(source.rank, branch.at as usize, following);
    add_init(source, found, round, &branch.init)?;
    add_expr(source, found, &branch.condition)?;
    add_block(source, found, &branch.body)?;
    add_else(source, found, following, &branch.otherwise)
}

/// Adds the identifiers of the `else` branch of an `if`, if there is one.
#[cycle(statement)]
fn add_else<'a>(
    source: &RankedFile<'a>,
    found: &mut Vec<Identifier<'a>>,
    following: usize,
    otherwise: &Else,
) -> Result<(), AllocError>
    ensures { OnOk result (AddsTo found.old.items found.new.items (else_sites (as_source source.now) following (else_view otherwise.now))) }
{
    match otherwise {
        Else::None => Ok(()),
        Else::If { branch, .. } => add_if(source, found, following, branch),
        Else::Block { block, .. } => add_block(source, found, block),
    }
}
