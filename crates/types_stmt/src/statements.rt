//! The check of statements and blocks.
ghost use Rattle.std.specs.Prelude.{◌≡◌, OnOk, map};
ghost use Rattle.go_ast.specs.View.{expr_view, exprs_view, option_view, group_view};
ghost use Rattle.go_ast.specs.FileView.{simple_view, local_view, init_view, for_view, stmt_view, block_view, if_view, else_view};
ghost use Rattle.types_expr.specs.WorldView.{world_of};
ghost use Rattle.types_stmt.specs.Checked.{check_group};
ghost use Rattle.types_stmt.specs.Simple.{check_optional_simple, check_optional_condition, check_local};
ghost use Rattle.types_stmt.specs.Statements.{check_return, check_init, check_for_header, check_statement, check_block, check_if, check_else};
ghost use Rattle.types_stmt.specs.View.{checked_of, target_of};

use crate::checked::CheckedBody;
use crate::sides::{Target, returned, rhs};
use go_ast::tree::{
    BlockStmt, Else, Expr, ExprItem, ForHeader, Group, IfInit, IfStmt, LocalSpec, SimpleStmt, Stmt,
};
use std::alloc::{AllocError, Global};
use types_expr::found::LocalScope;
use types_expr::world::World;

impl CheckedBody {
    /// Checks a `return` at token `place`.
    fn check_return(
        &mut self,
        alloc: Global,
        world: &World<'_>,
        place: usize,
        results: &[Target],
        values: &[ExprItem],
    ) -> Result<(), AllocError>
        ensures { OnOk result (checked_of self.new ≡ check_return (world_of world.now) (checked_of self.old) place (map target_of results.now) (exprs_view values.now)) }
    {
        let scope = LocalScope {
            world: &*world,
            locals: &self.locals,
        };
        let given = rhs(alloc, scope, values, &mut self.found)?;
        returned(
            alloc,
            world,
            place,
            values,
            &given,
            results,
            &mut self.found,
        )
    }

    /// Checks a simple statement, if there is one.
    fn check_optional_simple(
        &mut self,
        alloc: Global,
        world: &World<'_>,
        simple: &Option<SimpleStmt>,
    ) -> Result<(), AllocError>
        ensures { OnOk result (checked_of self.new ≡ check_optional_simple (world_of world.now) (checked_of self.old) (option_view simple_view simple.now)) }
    {
        match simple {
            None => Ok(()),
            Some(simple) => self.check_simple(alloc, world, simple),
        }
    }

    /// Checks a condition, if there is one.
    fn check_optional_condition(
        &mut self,
        alloc: Global,
        world: &World<'_>,
        condition: &Option<Expr>,
    ) -> Result<(), AllocError>
        ensures { OnOk result (checked_of self.new ≡ check_optional_condition (world_of world.now) (checked_of self.old) (option_view expr_view condition.now)) }
    {
        match condition {
            None => Ok(()),
            Some(condition) => self.check_condition(alloc, world, condition),
        }
    }

    /// Checks the statement before the condition of an `if`, if there is one.
    #[tactic(auto, unfolding(go_ast::specs::FileView::init_view))]
    fn check_init(
        &mut self,
        alloc: Global,
        world: &World<'_>,
        init: &Option<IfInit>,
    ) -> Result<(), AllocError>
        ensures { OnOk result (checked_of self.new ≡ check_init (world_of world.now) (checked_of self.old) (option_view init_view init.now)) }
    {
        match init {
            None => Ok(()),
            Some(init) => self.check_optional_simple(alloc, world, &init.statement),
        }
    }

    /// Checks the header of a `for`: the part before its block.
    fn check_for_header(
        &mut self,
        alloc: Global,
        world: &World<'_>,
        header: &ForHeader,
    ) -> Result<(), AllocError>
        ensures { OnOk result (checked_of self.new ≡ check_for_header (world_of world.now) (checked_of self.old) (for_view header.now)) }
    {
        match header {
            ForHeader::Forever => Ok(()),
            ForHeader::While(condition) => self.check_condition(alloc, world, condition),
            ForHeader::Clauses {
                init,
                condition,
                post,
                ..
            } => {
                self.check_optional_simple(alloc, world, init)?;
                self.check_optional_condition(alloc, world, condition)?;
                self.check_optional_simple(alloc, world, post)
            }
        }
    }

    /// Checks one or several declarations of locals.
    fn check_local_group(
        &mut self,
        alloc: Global,
        world: &World<'_>,
        group: &Group<LocalSpec>,
    ) -> Result<(), AllocError>
        ensures { OnOk result (checked_of self.new ≡ check_group (check_local (world_of world.now)) (checked_of self.old) (group_view local_view group.now)) }
    {
        match group {
            Group::Single(local) => self.check_local(alloc, world, local),
            Group::Several { items, .. } => {
                for item in items {
                    self.check_local(alloc, world, &item.value)?;
                }
                Ok(())
            }
        }
    }

    /// Checks a statement of a function with these results.
    #[cycle(statement)]
    fn check_statement(
        &mut self,
        alloc: Global,
        world: &World<'_>,
        results: &[Target],
        statement: &Stmt,
    ) -> Result<(), AllocError>
        ensures { OnOk result (checked_of self.new ≡ check_statement (world_of world.now) (map target_of results.now) (checked_of self.old) (stmt_view statement.now)) }
    {
        match statement {
            Stmt::Empty => Ok(()),
            Stmt::Var { group, .. } => self.check_local_group(alloc, world, group),
            Stmt::Simple(simple) => self.check_simple(alloc, world, simple),
            Stmt::Block(inner) => self.check_block(alloc, world, results, inner),
            Stmt::If(branch) => self.check_if(alloc, world, results, branch),
            Stmt::For { header, body, .. } => {
                self.check_for_header(alloc, world, header)?;
                self.check_block(alloc, world, results, body)
            }
            Stmt::Break(_) => Ok(()),
            Stmt::Continue(_) => Ok(()),
            Stmt::Return { at, values } => self.check_return(
                alloc,
                world,
                *at as usize,
                results,
                values,
            ),
        }
    }

    /// Checks a block of a function with these results.
    #[cycle(statement)]
    pub(crate) fn check_block(
        &mut self,
        alloc: Global,
        world: &World<'_>,
        results: &[Target],
        block: &BlockStmt,
    ) -> Result<(), AllocError>
        ensures { OnOk result (checked_of self.new ≡ check_block (world_of world.now) (map target_of results.now) (checked_of self.old) (block_view block.now)) }
    {
        for item in &block.statements {
            self.check_statement(alloc, world, results, &item.statement)?;
        }
        Ok(())
    }

    /// Checks an `if` of a function with these results.
    #[cycle(statement)]
    fn check_if(
        &mut self,
        alloc: Global,
        world: &World<'_>,
        results: &[Target],
        branch: &IfStmt,
    ) -> Result<(), AllocError>
        ensures { OnOk result (checked_of self.new ≡ check_if (world_of world.now) (map target_of results.now) (checked_of self.old) (if_view branch.now)) }
    {
        self.check_init(alloc, world, &branch.init)?;
        self.check_condition(alloc, world, &branch.condition)?;
        self.check_block(alloc, world, results, &branch.body)?;
        self.check_else(alloc, world, results, &branch.otherwise)
    }

    /// Checks the `else` of an `if`, if there is one.
    #[cycle(statement)]
    fn check_else(
        &mut self,
        alloc: Global,
        world: &World<'_>,
        results: &[Target],
        otherwise: &Else,
    ) -> Result<(), AllocError>
        ensures { OnOk result (checked_of self.new ≡ check_else (world_of world.now) (map target_of results.now) (checked_of self.old) (else_view otherwise.now)) }
    {
        match otherwise {
            Else::None => Ok(()),
            Else::If { branch, .. } => self.check_if(alloc, world, results, branch),
            Else::Block { block, .. } => self.check_block(alloc, world, results, block),
        }
    }
}
