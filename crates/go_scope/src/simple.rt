//! Collects the identifiers of simple statements and of declarations of local variables.
ghost use Rattle.std.specs.Prelude.{OnOk};
ghost use Rattle.go_scope.specs.ExpressionSites.{sites_if, list_sites, type_sites, expr_sites, exprs_sites};
ghost use Rattle.go_scope.specs.StatementSites.{ident_sites, left_sites, assigned_sites, simple_sites, value_sites, local_sites, group_sites, init_sites, for_sites};
ghost use Rattle.go_scope.specs.IdentifierViews.{as_source, AddsTo};
ghost use Rattle.go_ast.specs.View.{option_view, group_view, list_view, ident_view, type_view, expr_view, exprs_view};
ghost use Rattle.go_ast.specs.FileView.{local_view, values_view, simple_view, init_view, for_view};

use crate::expressions::{add_expr, add_type};
use crate::model::{Block, Identifier, Purpose, Role};
use crate::source::RankedFile;
use go_ast::tree::{
    Expr, ExprItem, ForHeader, Group, Ident, IfInit, Item, LocalSpec, SimpleStmt, TypeExpr, Values,
};
use std::alloc::AllocError;

/// Adds the identifiers of several expressions.
pub(crate) fn add_exprs<'a>(
    source: &RankedFile<'a>,
    found: &mut Vec<Identifier<'a>>,
    exprs: &[ExprItem],
) -> Result<(), AllocError>
    ensures { OnOk result (AddsTo found.old.items found.new.items (exprs_sites (as_source source.now) (exprs_view exprs.now))) }
{
    for item in exprs {
        add_expr(source, found, &item.value)?;
    }
    Ok(())
}

/// Adds declared identifiers, each with this role.
pub(crate) fn add_idents<'a>(
    source: &RankedFile<'a>,
    found: &mut Vec<Identifier<'a>>,
    role: Role,
    idents: &[Item<Ident>],
) -> Result<(), AllocError>
    ensures { OnOk result (AddsTo found.old.items found.new.items (list_sites (ident_sites (as_source source.now) role) (list_view ident_view idents.now))) }
{
    for item in idents {
        add_ident(source, found, role, &item.value)?;
    }
    Ok(())
}

/// Adds a declared identifier with this role. A `_` declares nothing.
pub(crate) fn add_ident<'a>(
    source: &RankedFile<'a>,
    found: &mut Vec<Identifier<'a>>,
    role: Role,
    ident: &Ident,
) -> Result<(), AllocError>
    ensures { OnOk result (AddsTo found.old.items found.new.items (ident_sites (as_source source.now) role (ident_view ident.now))) }
{
    match ident {
        Ident::Named(name) => source.add(found, *name, role),
        Ident::Blank(name) => source.add(found, *name, Role::NotLexical(Purpose::Blank)),
    }
}

/// Adds the identifiers of a left side of `:=`. The scope of a variable that it declares begins at the token `following`.
fn add_left<'a>(
    source: &RankedFile<'a>,
    found: &mut Vec<Identifier<'a>>,
    block: Block,
    following: usize,
    left: &Expr,
) -> Result<(), AllocError>
    ensures { OnOk result (AddsTo found.old.items found.new.items (left_sites (as_source source.now) block following (expr_view left.now))) }
{
    match left {
        Expr::Name(name) => source.add(found, *name, Role::LeftName(block, following)),
        Expr::Blank(name) => source.add(found, *name, Role::NotLexical(Purpose::Blank)),
        _ => add_expr(source, found, left),
    }
}

/// Adds the identifiers of all left sides of `:=`.
fn add_lefts<'a>(
    source: &RankedFile<'a>,
    found: &mut Vec<Identifier<'a>>,
    block: Block,
    following: usize,
    lefts: &[ExprItem],
) -> Result<(), AllocError>
    ensures { OnOk result (AddsTo found.old.items found.new.items (list_sites (left_sites (as_source source.now) block following) (exprs_view lefts.now))) }
{
    for item in lefts {
        add_left(source, found, block, following, &item.value)?;
    }
    Ok(())
}

/// Adds the identifiers of a left side of `=`. A `_` is no use.
fn add_assigned<'a>(
    source: &RankedFile<'a>,
    found: &mut Vec<Identifier<'a>>,
    left: &Expr,
) -> Result<(), AllocError>
    ensures { OnOk result (AddsTo found.old.items found.new.items (assigned_sites (as_source source.now) (expr_view left.now))) }
{
    match left {
        Expr::Blank(name) => source.add(found, *name, Role::NotLexical(Purpose::Blank)),
        _ => add_expr(source, found, left),
    }
}

/// Adds the identifiers of all left sides of `=`.
fn add_all_assigned<'a>(
    source: &RankedFile<'a>,
    found: &mut Vec<Identifier<'a>>,
    lefts: &[ExprItem],
) -> Result<(), AllocError>
    ensures { OnOk result (AddsTo found.old.items found.new.items (list_sites (assigned_sites (as_source source.now)) (exprs_view lefts.now))) }
{
    for item in lefts {
        add_assigned(source, found, &item.value)?;
    }
    Ok(())
}

/// Adds the identifiers of a simple statement in a block. The token `following` comes after the statement.
pub(crate) fn add_simple<'a>(
    source: &RankedFile<'a>,
    found: &mut Vec<Identifier<'a>>,
    block: Block,
    following: usize,
    simple: &SimpleStmt,
) -> Result<(), AllocError>
    ensures { OnOk result (AddsTo found.old.items found.new.items (simple_sites (as_source source.now) block following (simple_view simple.now))) }
{
    match simple {
        SimpleStmt::Expr(expr) => add_expr(source, found, expr),
        SimpleStmt::Step { operand, .. } => add_expr(source, found, operand),
        SimpleStmt::Update { left, right, .. } => {
            add_expr(source, found, left)?;
            add_expr(source, found, right)
        }
        SimpleStmt::Assign { left, right, .. } => {
            add_all_assigned(source, found, left)?;
            add_exprs(source, found, right)
        }
        SimpleStmt::Define { left, right, .. } => {
            add_lefts(source, found, block, following, left)?;
            add_exprs(source, found, right)
        }
    }
}

/// Adds the identifiers of a simple statement, if there is one.
pub(crate) fn add_optional<'a>(
    source: &RankedFile<'a>,
    found: &mut Vec<Identifier<'a>>,
    block: Block,
    following: usize,
    simple: &Option<SimpleStmt>,
) -> Result<(), AllocError>
    ensures { OnOk result (AddsTo found.old.items found.new.items (sites_if (simple_sites (as_source source.now) block following) (option_view simple_view simple.now))) }
{
    match simple {
        None => Ok(()),
        Some(statement) => add_simple(source, found, block, following, statement),
    }
}

/// Adds the identifiers of a type, if there is one.
fn add_optional_type<'a>(
    source: &RankedFile<'a>,
    found: &mut Vec<Identifier<'a>>,
    local_type: &Option<TypeExpr>,
) -> Result<(), AllocError>
    ensures { OnOk result (AddsTo found.old.items found.new.items (sites_if (type_sites (as_source source.now)) (option_view type_view local_type.now))) }
{
    match local_type {
        None => Ok(()),
        Some(type_expr) => add_type(source, found, type_expr),
    }
}

/// Adds the identifiers of the values of a declaration, if there are any.
fn add_values<'a>(
    source: &RankedFile<'a>,
    found: &mut Vec<Identifier<'a>>,
    values: &Option<Values>,
) -> Result<(), AllocError>
    ensures { OnOk result (AddsTo found.old.items found.new.items (sites_if (value_sites (as_source source.now)) (option_view values_view values.now))) }
{
    match values {
        None => Ok(()),
        Some(list) => add_exprs(source, found, &list.values),
    }
}

/// Adds the identifiers of a declaration of local variables in a block. The token `following` comes after it.
pub(crate) fn add_local<'a>(
    source: &RankedFile<'a>,
    found: &mut Vec<Identifier<'a>>,
    block: Block,
    following: usize,
    local: &LocalSpec,
) -> Result<(), AllocError>
    ensures { OnOk result (AddsTo found.old.items found.new.items (local_sites (as_source source.now) block following (local_view local.now))) }
{
    add_idents(
        source,
        found,
        Role::Declaring(block, following),
        &local.names,
    )?;
    add_optional_type(source, found, &local.local_type)?;
    add_values(source, found, &local.values)
}

/// Adds the identifiers of one or several declarations of local variables in a block. The token `following` comes after them.
pub(crate) fn add_locals<'a>(
    source: &RankedFile<'a>,
    found: &mut Vec<Identifier<'a>>,
    block: Block,
    following: usize,
    group: &Group<LocalSpec>,
) -> Result<(), AllocError>
    ensures { OnOk result (AddsTo found.old.items found.new.items (group_sites (local_sites (as_source source.now) block) following (group_view local_view group.now))) }
{
    match group {
        Group::Single(local) => add_local(source, found, block, following, local),
        Group::Several { items, close, .. } => {
            for item in items {
                let behind = item.separator.unwrap_or(*close);
                add_local(source, found, block, behind as usize, &item.value)?;
            }
            Ok(())
        }
    }
}

/// Adds the identifiers of the clause before the condition of an `if`, in the block of the `if`.
pub(crate) fn add_init<'a>(
    source: &RankedFile<'a>,
    found: &mut Vec<Identifier<'a>>,
    block: Block,
    init: &Option<IfInit>,
) -> Result<(), AllocError>
    ensures { OnOk result (AddsTo found.old.items found.new.items (sites_if (init_sites (as_source source.now) block) (option_view init_view init.now))) }
{
    match init {
        None => Ok(()),
        Some(init) => add_optional(
            source,
            found,
            block,
            init.semicolon as usize,
            &init.statement,
        ),
    }
}

/// Adds the identifiers of an expression, if there is one.
fn add_condition<'a>(
    source: &RankedFile<'a>,
    found: &mut Vec<Identifier<'a>>,
    condition: &Option<Expr>,
) -> Result<(), AllocError>
    ensures { OnOk result (AddsTo found.old.items found.new.items (sites_if (expr_sites (as_source source.now)) (option_view expr_view condition.now))) }
{
    match condition {
        None => Ok(()),
        Some(expr) => add_expr(source, found, expr),
    }
}

/// Adds the identifiers of the header of a `for`, in the block of the `for`. `brace` is the opening brace of its body.
pub(crate) fn add_header<'a>(
    source: &RankedFile<'a>,
    found: &mut Vec<Identifier<'a>>,
    block: Block,
    brace: usize,
    header: &ForHeader,
) -> Result<(), AllocError>
    ensures { OnOk result (AddsTo found.old.items found.new.items (for_sites (as_source source.now) block brace (for_view header.now))) }
{
    match header {
        ForHeader::Forever => Ok(()),
        ForHeader::While(condition) => add_expr(source, found, condition),
        ForHeader::Clauses {
            init,
            first,
            condition,
            post,
            ..
        } => {
            add_optional(source, found, block, *first as usize, init)?;
            add_condition(source, found, condition)?;
            add_optional(source, found, block, brace, post)
        }
    }
}
