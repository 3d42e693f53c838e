//! The check of simple statements, of conditions, and of declarations of locals.
ghost use Rattle.std.specs.Prelude.{◌≡◌, IfOk, OnOk, map, option_map};
ghost use Rattle.go_ast.specs.View.{expr_view, exprs_view, option_view, list_view, ident_view, type_view};
ghost use Rattle.go_ast.specs.FileView.{simple_view, local_view, values_view};
ghost use Rattle.types_expr.specs.Judge.{judge_type};
ghost use Rattle.types_expr.specs.View.{kind_of, type_of};
ghost use Rattle.types_expr.specs.WorldView.{world_of};
ghost use Rattle.types_stmt.specs.Simple.{condition_faults, check_condition, step_faults, check_step, update_faults, binary_of, check_update, check_assign, check_define, check_simple, check_typed_local, check_untyped_local, check_local};
ghost use Rattle.types_stmt.specs.View.{checked_of, target_of, AddsFaultsAt};
ghost use Rattle.types_stmt.specs.Sides.{Takes, Wants};

use crate::checked::CheckedBody;
use crate::locals::{
    all_named, copied, declare_broken, declare_inferred, declare_written, defined_names,
    first_of_exprs, first_of_idents,
};
use crate::sides::{Target, assigned, defined, given_faults, operand, rhs};
use go_ast::syntax::{BinaryOp, UpdateOp};
use go_ast::tree::{Expr, ExprItem, Ident, Item, LocalSpec, SimpleStmt, TypeExpr, Values};
use std::alloc::{AllocError, Global};
use types_expr::found::{FoundInFile, LocalScope};
use types_expr::judge::judge_value;
use types_expr::places::{first_token, place_of};
use types_expr::types::{GoType, ValueKind};
use types_expr::world::World;

/// Notes a condition that is no bool.
#[tactic(auto, unfolding(crate::specs::Simple::condition_faults))]
fn require_bool(
    world: &World<'_>,
    place: usize,
    kind: &Option<ValueKind>,
    found: &mut FoundInFile,
) -> Result<(), AllocError>
    ensures { OnOk result (AddsFaultsAt (condition_faults (world_of world.now) place (option_map kind_of kind.now)) found.old found.new) }
{
    let Some(kind) = kind else {
        return Ok(());
    };
    if !world.class_of(kind).is_bool() {
        found.faults.push(place)?;
    }
    Ok(())
}

/// Notes an operand of `++` or `--` that is no int.
#[tactic(auto, unfolding(crate::specs::Simple::step_faults))]
fn require_int(
    world: &World<'_>,
    place: usize,
    kind: &Option<ValueKind>,
    found: &mut FoundInFile,
) -> Result<(), AllocError>
    ensures { OnOk result (AddsFaultsAt (step_faults (world_of world.now) place (option_map kind_of kind.now)) found.old found.new) }
{
    let Some(kind) = kind else {
        return Ok(());
    };
    if !world.class_of(kind).is_int() {
        found.faults.push(place)?;
    }
    Ok(())
}

/// Returns the binary operator op of an assignment `op=`.
fn binary_of(op: UpdateOp) -> BinaryOp
    ensures { result ≡ binary_of op }
{
    match op {
        UpdateOp::Add => BinaryOp::Add,
        UpdateOp::Subtract => BinaryOp::Subtract,
        UpdateOp::Multiply => BinaryOp::Multiply,
        UpdateOp::Divide => BinaryOp::Divide,
        UpdateOp::Remainder => BinaryOp::Remainder,
    }
}

/// Notes a binary operation that breaks a rule.
#[tactic(auto, unfolding(crate::specs::Simple::update_faults))]
fn require_operation(
    world: &World<'_>,
    start: usize,
    op: BinaryOp,
    left: Option<ValueKind>,
    right: Option<ValueKind>,
    found: &mut FoundInFile,
) -> Result<(), AllocError>
    ensures { OnOk result (AddsFaultsAt (update_faults (world_of world.now) start op (option_map kind_of left) (option_map kind_of right)) found.old found.new) }
{
    let Some(left) = left else {
        return Ok(());
    };
    let Some(right) = right else {
        return Ok(());
    };
    if world.operate(op, left, right).is_none() {
        found.faults.push(start)?;
    }
    Ok(())
}

impl CheckedBody {
    /// Checks the condition of an `if` or `for`.
    pub(crate) fn check_condition(
        &mut self,
        alloc: Global,
        world: &World<'_>,
        expr: &Expr,
    ) -> Result<(), AllocError>
        ensures { OnOk result (checked_of self.new ≡ check_condition (world_of world.now) (checked_of self.old) (expr_view expr.now)) }
    {
        let scope = LocalScope {
            world: &*world,
            locals: &self.locals,
        };
        let place = place_of(expr);
        let kind = judge_value(alloc, scope, expr, &mut self.found)?.into_kind();
        require_bool(world, place, &kind, &mut self.found)
    }

    /// Checks `++` and `--`.
    fn check_step(
        &mut self,
        alloc: Global,
        world: &World<'_>,
        expr: &Expr,
    ) -> Result<(), AllocError>
        ensures { OnOk result (checked_of self.new ≡ check_step (world_of world.now) (checked_of self.old) (expr_view expr.now)) }
    {
        let scope = LocalScope {
            world: &*world,
            locals: &self.locals,
        };
        let place = place_of(expr);
        let kind = operand(alloc, scope, expr, &mut self.found)?.into_kind();
        require_int(world, place, &kind, &mut self.found)
    }

    /// Checks an assignment `x op= y`.
    fn check_update(
        &mut self,
        alloc: Global,
        world: &World<'_>,
        op: BinaryOp,
        left: &Expr,
        right: &Expr,
    ) -> Result<(), AllocError>
        ensures { OnOk result (checked_of self.new ≡ check_update (world_of world.now) (checked_of self.old) op (expr_view left.now) (expr_view right.now)) }
    {
        let scope = LocalScope {
            world: &*world,
            locals: &self.locals,
        };
        let start = first_token(left);
        let assigned = operand(alloc, scope, left, &mut self.found)?.into_kind();
        let given = judge_value(alloc, scope, right, &mut self.found)?.into_kind();
        require_operation(world, start, op, assigned, given, &mut self.found)
    }

    /// Checks `=`.
    fn check_assign(
        &mut self,
        alloc: Global,
        world: &World<'_>,
        left: &[ExprItem],
        right: &[ExprItem],
    ) -> Result<(), AllocError>
        ensures { OnOk result (checked_of self.new ≡ check_assign (world_of world.now) (checked_of self.old) (exprs_view left.now) (exprs_view right.now)) }
    {
        let scope = LocalScope {
            world: &*world,
            locals: &self.locals,
        };
        let place = first_of_exprs(left);
        let targets = assigned(alloc, scope, left, &mut self.found)?;
        let values = rhs(alloc, scope, right, &mut self.found)?;
        given_faults(
            alloc,
            world,
            place,
            right,
            &values,
            &targets,
            &mut self.found,
        )
    }

    /// Checks `:=`.
    fn check_define(
        &mut self,
        alloc: Global,
        world: &World<'_>,
        left: &[ExprItem],
        right: &[ExprItem],
    ) -> Result<(), AllocError>
        ensures { OnOk result (checked_of self.new ≡ check_define (world_of world.now) (checked_of self.old) (exprs_view left.now) (exprs_view right.now)) }
    {
        let scope = LocalScope {
            world: &*world,
            locals: &self.locals,
        };
        let place = first_of_exprs(left);
        let names = defined_names(alloc, world, left)?;
        let targets = defined(alloc, scope, left, &mut self.found)?;
        let values = rhs(alloc, scope, right, &mut self.found)?;
        given_faults(
            alloc,
            world,
            place,
            right,
            &values,
            &targets,
            &mut self.found,
        )?;
        declare_inferred(alloc, &mut self.locals, &names, &values)
    }

    /// Checks a simple statement.
    pub(crate) fn check_simple(
        &mut self,
        alloc: Global,
        world: &World<'_>,
        simple: &SimpleStmt,
    ) -> Result<(), AllocError>
        ensures { OnOk result (checked_of self.new ≡ check_simple (world_of world.now) (checked_of self.old) (simple_view simple.now)) }
    {
        match simple {
            SimpleStmt::Expr(expr) => self.check_expr_statement(alloc, world, expr),
            SimpleStmt::Step { operand, .. } => self.check_step(alloc, world, operand),
            SimpleStmt::Update {
                left,
                op,
                right,
                ..
            } => self.check_update(alloc, world, binary_of(*op), left, right),
            SimpleStmt::Assign { left, right, .. } => self.check_assign(alloc, world, left, right),
            SimpleStmt::Define { left, right, .. } => self.check_define(alloc, world, left, right),
        }
    }

    /// Checks a declaration of locals with a written type.
    fn check_typed_local(
        &mut self,
        alloc: Global,
        world: &World<'_>,
        names: &[Item<Ident>],
        written: &TypeExpr,
        values: &Option<Values>,
    ) -> Result<(), AllocError>
        ensures { OnOk result (checked_of self.new ≡ check_typed_local (world_of world.now) (checked_of self.old) (list_view ident_view names.now) (judge_type (world_of world.now) (type_view written.now)) (option_view values_view values.now)) }
    {
        let own = self.found.judge_type(alloc, world, written)?;
        match values {
            None => declare_written(alloc, &mut self.locals, names, &own),
            Some(values) => {
                let scope = LocalScope {
                    world: &*world,
                    locals: &self.locals,
                };
                let place = first_of_idents(names);
                let targets = written_targets(alloc, names, &own)?;
                let given = rhs(alloc, scope, &values.values, &mut self.found)?;
                given_faults(
                    alloc,
                    world,
                    place,
                    &values.values,
                    &given,
                    &targets,
                    &mut self.found,
                )?;
                declare_written(alloc, &mut self.locals, names, &own)
            }
        }
    }

    /// Checks a declaration of locals without a written type.
    fn check_untyped_local(
        &mut self,
        alloc: Global,
        world: &World<'_>,
        idents: &[Item<Ident>],
        values: &Option<Values>,
    ) -> Result<(), AllocError>
        ensures { OnOk result (checked_of self.new ≡ check_untyped_local (world_of world.now) (checked_of self.old) (list_view ident_view idents.now) (option_view values_view values.now)) }
    {
        let names = all_named(alloc, idents)?;
        let Some(values) = values else {
            return declare_broken(&mut self.locals, &names);
        };
        let scope = LocalScope {
            world: &*world,
            locals: &self.locals,
        };
        let place = first_of_idents(idents);
        let targets = name_targets(alloc, idents)?;
        let given = rhs(alloc, scope, &values.values, &mut self.found)?;
        given_faults(
            alloc,
            world,
            place,
            &values.values,
            &given,
            &targets,
            &mut self.found,
        )?;
        declare_inferred(alloc, &mut self.locals, &names, &given)
    }

    /// Checks a declaration of locals.
    #[tactic(auto, unfolding(crate::specs::Simple::check_local, go_ast::specs::FileView::local_view))]
    pub(crate) fn check_local(
        &mut self,
        alloc: Global,
        world: &World<'_>,
        local: &LocalSpec,
    ) -> Result<(), AllocError>
        ensures { OnOk result (checked_of self.new ≡ check_local (world_of world.now) (checked_of self.old) (local_view local.now)) }
    {
        match &local.local_type {
            Some(written) => self.check_typed_local(
                alloc,
                world,
                &local.names,
                written,
                &local.values,
            ),
            None => self.check_untyped_local(alloc, world, &local.names, &local.values),
        }
    }
}

/// Returns the targets of a declaration with a written type, one for each name.
fn written_targets(
    alloc: Global,
    names: &[Item<Ident>],
    own: &Option<GoType>,
) -> Result<Vec<Target>, AllocError>
    ensures { IfOk result (λ ts. map target_of ts.items ≡ map (λ i. Wants (option_map type_of own.now)) (list_view ident_view names.now)) }
{
    let mut targets = Vec::new(alloc);
    for _item in names {
        targets.push(Target::Wants(copied(alloc, own)?))?;
    }
    Ok(targets)
}

/// Returns the targets of a declaration without a written type, one for each name.
fn name_targets(alloc: Global, names: &[Item<Ident>]) -> Result<Vec<Target>, AllocError>
    ensures { IfOk result (λ ts. map target_of ts.items ≡ map (λ i. Takes) (list_view ident_view names.now)) }
{
    let mut targets = Vec::new(alloc);
    for _item in names {
        targets.push(Target::Takes)?;
    }
    Ok(targets)
}
