//! The names that statements declare, and the types that their locals take.
ghost use Rattle.std.specs.Prelude.{◌≡◌, [], length, IfOk, OnOk, map, option_map};
ghost use Rattle.go_ast.specs.View.{expr_view, exprs_view, list_view, ident_view};
ghost use Rattle.types_expr.specs.View.{type_of, kind_of};
ghost use Rattle.types_expr.specs.WorldView.{world_of};
ghost use Rattle.types_expr.specs.Found.{locals_of, list_value};
ghost use Rattle.types_expr.specs.Places.{first_token};
ghost use Rattle.types_stmt.specs.Sides.{declares, inferred_type, inferred_types, inferred, declared_if, with_locals, with_inferred, defined_name, defined_names, named, all_named, ident_place, first_of_exprs, first_of_idents};
ghost use Rattle.types_stmt.specs.Simple.{written_locals};

use go_ast::tree::{Expr, ExprItem, Ident, Item};
use std::alloc::{AllocError, Global};
use types_expr::locals::Locals;
use types_expr::meaning::ListValue;
use types_expr::places::first_token;
use types_expr::types::{GoType, ValueKind};
use types_expr::world::{Bound, World};

/// Whether the name at a token, on the left of `:=`, declares a local: it is bound to itself.
#[tactic(auto, unfolding(types_expr::specs::WorldView::bound_of))]
pub(crate) fn declares(world: &World<'_>, place: usize) -> bool
    ensures { result ≡ declares (world_of world.now) place }
{
    match world.bound(place) {
        Some(Bound::Local(declared)) => *declared == place,
        _ => false,
    }
}

/// Returns the type that a local takes from a value, none where the value is broken or nil.
#[tactic(auto, unfolding(crate::specs::Sides::inferred_type, crate::specs::Sides::default_type, types_expr::specs::View::kind_of, types_expr::specs::View::type_of))]
fn inferred_type(alloc: Global, kind: &Option<ValueKind>) -> Result<Option<GoType>, AllocError>
    ensures { IfOk result (λ t. option_map type_of t ≡ inferred_type (option_map kind_of kind.now)) }
{
    match kind {
        Some(ValueKind::Typed(own)) => Ok(Some(own.copy(alloc)?)),
        Some(ValueKind::Untyped(basic)) => Ok(Some(GoType::Basic(*basic))),
        Some(ValueKind::Nil) | None => Ok(None),
    }
}

/// Returns the name that a left side of `:=` declares, by its token.
#[tactic(auto, unfolding(crate::specs::Sides::defined_name, go_ast::specs::View::expr_view))]
fn defined_name(world: &World<'_>, expr: &Expr) -> Option<usize>
    ensures { result ≡ defined_name (world_of world.now) (expr_view expr.now) }
{
    match expr {
        Expr::Name(place) => {
            if declares(world, *place as usize) {
                Some(*place as usize)
            } else {
                None
            }
        }
        _ => None,
    }
}

/// Returns the names that the left sides of `:=` declare.
pub(crate) fn defined_names(
    alloc: Global,
    world: &World<'_>,
    exprs: &[ExprItem],
) -> Result<Vec<Option<usize>>, AllocError>
    ensures { IfOk result (λ names. names.items ≡ defined_names (world_of world.now) (exprs_view exprs.now)) }
{
    let mut names = Vec::new(alloc);
    for item in exprs {
        names.push(defined_name(world, &item.value))?;
    }
    Ok(names)
}

/// Returns the name that an identifier in a declaration declares; `_` declares none.
#[tactic(auto, unfolding(crate::specs::Sides::named))]
pub(crate) fn named(ident: &Ident) -> Option<usize>
    ensures { result ≡ named (ident_view ident.now) }
{
    match ident {
        Ident::Named(place) => Some(*place as usize),
        Ident::Blank(_) => None,
    }
}

/// Returns the names that identifiers in a declaration declare.
pub(crate) fn all_named(
    alloc: Global,
    idents: &[Item<Ident>],
) -> Result<Vec<Option<usize>>, AllocError>
    ensures { IfOk result (λ names. names.items ≡ all_named (list_view ident_view idents.now)) }
{
    let mut names = Vec::new(alloc);
    for item in idents {
        names.push(named(&item.value))?;
    }
    Ok(names)
}

/// Returns the first token of a list of expressions, 0 where it is empty.
#[tactic(auto, unfolding(crate::specs::Sides::first_of_exprs))]
pub(crate) fn first_of_exprs(exprs: &[ExprItem]) -> usize
    ensures { result ≡ first_of_exprs (exprs_view exprs.now) }
{
    match exprs {
        [] => 0,
        [first, ..] => first_token(&first.value),
    }
}

/// Returns the token of an identifier.
#[tactic(auto, unfolding(crate::specs::Sides::ident_place))]
fn ident_place(ident: &Ident) -> usize
    ensures { result ≡ ident_place (ident_view ident.now) }
{
    match ident {
        Ident::Named(place) | Ident::Blank(place) => *place as usize,
    }
}

/// Returns the token of the first of several identifiers, 0 where there is none.
#[tactic(auto, unfolding(crate::specs::Sides::first_of_idents))]
pub(crate) fn first_of_idents(idents: &[Item<Ident>]) -> usize
    ensures { result ≡ first_of_idents (list_view ident_view idents.now) }
{
    match idents {
        [] => 0,
        [first, ..] => ident_place(&first.value),
    }
}

/// Declares a local of the type `own`, if there is a name.
pub(crate) fn declare_if(
    locals: &mut Locals,
    name: Option<usize>,
    own: Option<GoType>,
) -> Result<(), AllocError>
    ensures { OnOk result (locals_of locals.new ≡ declared_if (locals_of locals.old) name (option_map type_of own)) }
{
    match name {
        None => Ok(()),
        Some(place) => locals.declare(place, own),
    }
}

/// Declares locals whose types are broken.
pub(crate) fn declare_broken(locals: &mut Locals, names: &[Option<usize>]) -> Result<(), AllocError>
    ensures { OnOk result (locals_of locals.new ≡ with_locals (locals_of locals.old) names.now []) }
{
    for name in names {
        declare_if(locals, *name, None)?;
    }
    Ok(())
}

/// Declares locals, each of the type that it takes from the value at its position.
fn declare_each(
    alloc: Global,
    locals: &mut Locals,
    names: &[Option<usize>],
    values: &[ListValue],
) -> Result<(), AllocError>
    requires { length values.now ≡ length names.now }
    ensures { OnOk result (locals_of locals.new ≡ with_locals (locals_of locals.old) names.now (inferred_types (map list_value values.now))) }
{
    for i in 0..names.len() {
        let own = inferred_type(alloc, &values[i].kind)?;
        declare_if(locals, names[i], own)?;
    }
    Ok(())
}

/// Declares locals, each of the type that it takes from the value at its position. Under a wrong count all are broken.
#[tactic(auto, unfolding(crate::specs::Sides::inferred))]
pub(crate) fn declare_inferred(
    alloc: Global,
    locals: &mut Locals,
    names: &[Option<usize>],
    values: &[ListValue],
) -> Result<(), AllocError>
    ensures { OnOk result (locals_of locals.new ≡ with_inferred (locals_of locals.old) names.now (map list_value values.now)) }
{
    if values.len() == names.len() {
        declare_each(alloc, locals, names, values)
    } else {
        declare_broken(locals, names)
    }
}

/// Copies a type, if there is one.
pub(crate) fn copied(alloc: Global, own: &Option<GoType>) -> Result<Option<GoType>, AllocError>
    ensures { IfOk result (λ t. option_map type_of t ≡ option_map type_of own.now) }
{
    match own {
        None => Ok(None),
        Some(own) => Ok(Some(own.copy(alloc)?)),
    }
}

/// Declares locals of the type `own`, which is none where it is broken.
pub(crate) fn declare_written(
    alloc: Global,
    locals: &mut Locals,
    idents: &[Item<Ident>],
    own: &Option<GoType>,
) -> Result<(), AllocError>
    ensures { OnOk result (locals_of locals.new ≡ written_locals (locals_of locals.old) (list_view ident_view idents.now) (option_map type_of own.now)) }
{
    for item in idents {
        let own = copied(alloc, own)?;
        declare_if(locals, named(&item.value), own)?;
    }
    Ok(())
}
