//! Collects the identifiers of types and expressions.
ghost use Rattle.std.specs.Prelude.{OnOk};
ghost use Rattle.std.specs.List.{flat_map};
ghost use Rattle.go_scope.specs.ExpressionSites.{type_sites, expr_sites, link_sites, literal_sites};
ghost use Rattle.go_scope.specs.IdentifierViews.{as_source, AddsTo};
ghost use Rattle.go_ast.specs.View.{type_view, expr_view, link_view, literal_view};
ghost use Rattle.go_ast.specs.Tree.{no_link};

use crate::model::{Identifier, Purpose, Role};
use crate::source::RankedFile;
use go_ast::tree::{CompositeLit, Expr, Link, Operand, TypeExpr};
use std::alloc::AllocError;

/// Adds the identifiers of a type.
pub(crate) fn add_type<'a>(
    source: &RankedFile<'a>,
    found: &mut Vec<Identifier<'a>>,
    type_expr: &TypeExpr,
) -> Result<(), AllocError>
    ensures { OnOk result (AddsTo found.old.items found.new.items (type_sites (as_source source.now) (type_view type_expr.now))) }
{
    match type_expr {
        TypeExpr::Local(name) => source.add(found, *name, Role::Use),
        TypeExpr::Imported { package, name, .. } => {
            source.add(found, *package, Role::Use)?;
            source.add(found, *name, Role::NotLexical(Purpose::Selected))
        }
        TypeExpr::Pointer { target, .. } => add_type(source, found, target),
        TypeExpr::Slice { element, .. } => add_type(source, found, element),
    }
}

/// Adds the identifiers of an expression.
#[cycle(expression)]
pub(crate) fn add_expr<'a>(
    source: &RankedFile<'a>,
    found: &mut Vec<Identifier<'a>>,
    expr: &Expr,
) -> Result<(), AllocError>
    ensures { OnOk result (AddsTo found.old.items found.new.items (expr_sites (as_source source.now) (expr_view expr.now))) }
{
    match expr {
        Expr::Number(_) | Expr::Text(_) => Ok(()),
        Expr::Name(name) => source.add(found, *name, Role::Use),
        Expr::Blank(name) => source.add(found, *name, Role::Use),
        Expr::Composite(literal) => add_literal(source, found, literal),
        Expr::Paren { inner, .. } => add_expr(source, found, inner),
        Expr::Prefix { operand, .. } => add_expr(source, found, operand),
        Expr::Address { literal, .. } => add_literal(source, found, literal),
        Expr::Chain { first, links } => {
            add_expr(source, found, first)?;
            add_links(source, found, links)
        }
        Expr::NamedChain { name, links } => {
            source.add(found, *name, Role::Use)?;
            add_links(source, found, links)
        }
        Expr::Binary { first, rest } => {
            add_expr(source, found, first)?;
            add_operands(source, found, rest)
        }
        Expr::NamedBinary { name, rest } => {
            source.add(found, *name, Role::Use)?;
            add_operands(source, found, rest)
        }
    }
}

/// Adds the identifiers of links.
#[cycle(expression)]
fn add_links<'a>(
    source: &RankedFile<'a>,
    found: &mut Vec<Identifier<'a>>,
    links: &[Link],
) -> Result<(), AllocError>
    ensures { OnOk result (AddsTo found.old.items found.new.items (flat_map (λ link. link_sites (as_source source.now) (link_view link no_link)) links.now)) }
{
    for link in links {
        add_link(source, found, link)?;
    }
    Ok(())
}

/// Adds the identifiers of operands.
#[cycle(expression)]
fn add_operands<'a>(
    source: &RankedFile<'a>,
    found: &mut Vec<Identifier<'a>>,
    operands: &[Operand],
) -> Result<(), AllocError>
    ensures { OnOk result (AddsTo found.old.items found.new.items (flat_map (λ operand. expr_sites (as_source source.now) (expr_view operand.value)) operands.now)) }
{
    for operand in operands {
        add_expr(source, found, &operand.value)?;
    }
    Ok(())
}

/// Adds the identifiers of a selector, an index or a call.
#[cycle(expression)]
fn add_link<'a>(
    source: &RankedFile<'a>,
    found: &mut Vec<Identifier<'a>>,
    link: &Link,
) -> Result<(), AllocError>
    ensures { OnOk result (AddsTo found.old.items found.new.items (link_sites (as_source source.now) (link_view link.now no_link))) }
{
    match link {
        Link::Selector { name, .. } => {
            source.add(found, *name, Role::NotLexical(Purpose::Selected))
        }
        Link::Index { index, .. } => add_expr(source, found, index),
        Link::Call { arguments, .. } => {
            for argument in arguments {
                add_expr(source, found, &argument.value)?;
            }
            Ok(())
        }
    }
}

/// Adds the identifiers of a composite literal.
#[cycle(expression)]
fn add_literal<'a>(
    source: &RankedFile<'a>,
    found: &mut Vec<Identifier<'a>>,
    literal: &CompositeLit,
) -> Result<(), AllocError>
    ensures { OnOk result (AddsTo found.old.items found.new.items (literal_sites (as_source source.now) (literal_view literal.now))) }
{
    add_type(source, found, &literal.literal_type)?;
    for element in &literal.elements {
        if let Some(key) = &element.key {
            source.add(found, key.name, Role::NotLexical(Purpose::Key))?;
        }
        add_expr(source, found, &element.value)?;
    }
    Ok(())
}
