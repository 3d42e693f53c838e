//! Finds the slots of a function: its receiver, its parameters and the locals that its body declares.
ghost use Rattle.std.specs.Prelude.{◌≡◌, ◌++◌, ◌∷◌, [], IfOk, OnOk, option_to_list};
ghost use Rattle.std.specs.List.{flat_map};
ghost use Rattle.go_ast.specs.View.{expr_view, exprs_view, list_view, ident_view, group_view, option_view};
ghost use Rattle.go_ast.specs.FileView.{local_view, simple_view, init_view, for_view, stmt_view, block_view, if_view, else_view, receiver_view, param_view, func_view};
ghost use Rattle.types_expr.specs.WorldView.{world_of};
ghost use Rattle.types_declared.specs.Files.{group_items};
ghost use Rattle.types_stmt.specs.Sides.{declares, defined_name, ident_place, named};
ghost use Rattle.build_object.specs.Slots.{receiver_places, parameter_places, local_places, simple_places, optional_places, init_places, header_places, statement_places, block_places, if_places, else_places, slots_of};

use crate::numbered::NumberedPlaces;
use go_ast::tree::{
    BlockStmt, Else, Expr, ExprItem, ForHeader, FuncDecl, Group, Ident, IfInit, IfStmt, Item,
    LocalSpec, Param, Receiver, SimpleStmt, Stmt,
};
use std::alloc::{AllocError, Global};
use types_expr::world::{Bound, World};

/// The token of an identifier.
#[tactic(auto, unfolding(types_stmt::specs::Sides::ident_place))]
fn ident_place(ident: &Ident) -> usize
    ensures { result ≡ ident_place (ident_view ident.now) }
{
    match ident {
        Ident::Named(place) | Ident::Blank(place) => *place as usize,
    }
}

/// Adds the receiver, if there is one.
#[tactic(auto, unfolding(go_ast::specs::FileView::receiver_view))]
fn add_receiver(places: &mut Vec<usize>, receiver: &Option<Receiver>) -> Result<(), AllocError>
    ensures { OnOk result (places.new.items ≡ places.old.items ++ receiver_places (option_view receiver_view receiver.now)) }
{
    match receiver {
        None => Ok(()),
        Some(receiver) => {
            places.push(ident_place(&receiver.ident))?;
            Ok(())
        }
    }
}

/// Adds the parameters of one parameter declaration, blank ones too.
fn add_names(places: &mut Vec<usize>, names: &[Item<Ident>]) -> Result<(), AllocError>
    ensures { OnOk result (places.new.items ≡ places.old.items ++ flat_map (λ n. ident_place n.value ∷ []) (list_view ident_view names.now)) }
{
    for name in names {
        places.push(ident_place(&name.value))?;
    }
    Ok(())
}

/// Adds all parameters.
#[tactic(auto, unfolding(go_ast::specs::FileView::param_view))]
fn add_params(places: &mut Vec<usize>, params: &[Item<Param>]) -> Result<(), AllocError>
    ensures { OnOk result (places.new.items ≡ places.old.items ++ parameter_places (list_view param_view params.now)) }
{
    for param in params {
        add_names(places, &param.value.names)?;
    }
    Ok(())
}

/// Adds the local of a name. A `_` declares none.
#[tactic(auto, unfolding(types_stmt::specs::Sides::named))]
fn add_ident(places: &mut Vec<usize>, ident: &Ident) -> Result<(), AllocError>
    ensures { OnOk result (places.new.items ≡ places.old.items ++ option_to_list (named (ident_view ident.now))) }
{
    match ident {
        Ident::Named(place) => {
            places.push(*place as usize)?;
            Ok(())
        }
        Ident::Blank(_) => Ok(()),
    }
}

/// Adds the locals of a `var` line.
#[tactic(auto, unfolding(go_ast::specs::FileView::local_view))]
fn add_local(places: &mut Vec<usize>, local: &LocalSpec) -> Result<(), AllocError>
    ensures { OnOk result (places.new.items ≡ places.old.items ++ local_places (local_view local.now)) }
{
    for name in &local.names {
        add_ident(places, &name.value)?;
    }
    Ok(())
}

/// Adds the locals of a `var`.
#[tactic(auto, unfolding(go_ast::specs::View::group_view))]
fn add_locals(places: &mut Vec<usize>, group: &Group<LocalSpec>) -> Result<(), AllocError>
    ensures { OnOk result (places.new.items ≡ places.old.items ++ flat_map local_places (group_items (group_view local_view group.now))) }
{
    match group {
        Group::Single(local) => add_local(places, local),
        Group::Several { items, .. } => {
            for item in items {
                add_local(places, &item.value)?;
            }
            Ok(())
        }
    }
}

/// Whether a left name of `:=` declares a local: it is bound to itself.
#[tactic(auto, unfolding(types_expr::specs::WorldView::bound_of))]
fn declares(world: &World<'_>, place: usize) -> bool
    ensures { result ≡ declares (world_of world.now) place }
{
    match world.bound(place) {
        Some(Bound::Local(declared)) => *declared == place,
        _ => false,
    }
}

/// Adds the local that a left side of `:=` declares.
#[tactic(auto, unfolding(types_stmt::specs::Sides::defined_name, go_ast::specs::View::expr_view))]
fn add_defined(places: &mut Vec<usize>, world: &World<'_>, left: &Expr) -> Result<(), AllocError>
    ensures { OnOk result (places.new.items ≡ places.old.items ++ option_to_list (defined_name (world_of world.now) (expr_view left.now))) }
{
    match left {
        Expr::Name(place) => {
            if declares(world, *place as usize) {
                places.push(*place as usize)?;
            }
            Ok(())
        }
        _ => Ok(()),
    }
}

/// Adds the locals that the left sides of `:=` declare.
fn add_all_defined(
    places: &mut Vec<usize>,
    world: &World<'_>,
    left: &[ExprItem],
) -> Result<(), AllocError>
    ensures { OnOk result (places.new.items ≡ places.old.items ++ flat_map (λ i. option_to_list (defined_name (world_of world.now) i.value)) (exprs_view left.now)) }
{
    for item in left {
        add_defined(places, world, &item.value)?;
    }
    Ok(())
}

/// Adds the locals of a simple statement.
#[tactic(auto, unfolding(go_ast::specs::FileView::simple_view, crate::specs::Slots::simple_places))]
fn add_simple(
    places: &mut Vec<usize>,
    world: &World<'_>,
    simple: &SimpleStmt,
) -> Result<(), AllocError>
    ensures { OnOk result (places.new.items ≡ places.old.items ++ simple_places (world_of world.now) (simple_view simple.now)) }
{
    match simple {
        SimpleStmt::Define { left, .. } => add_all_defined(places, world, left),
        SimpleStmt::Expr(_) => Ok(()),
        SimpleStmt::Step { .. } => Ok(()),
        SimpleStmt::Update { .. } => Ok(()),
        SimpleStmt::Assign { .. } => Ok(()),
    }
}

/// Adds the locals of an optional simple statement.
fn add_optional(
    places: &mut Vec<usize>,
    world: &World<'_>,
    simple: &Option<SimpleStmt>,
) -> Result<(), AllocError>
    ensures { OnOk result (places.new.items ≡ places.old.items ++ optional_places (world_of world.now) (option_view simple_view simple.now)) }
{
    match simple {
        None => Ok(()),
        Some(simple) => add_simple(places, world, simple),
    }
}

/// Adds the locals that are declared before the condition of an `if`.
#[tactic(auto, unfolding(go_ast::specs::FileView::init_view))]
fn add_init(
    places: &mut Vec<usize>,
    world: &World<'_>,
    init: &Option<IfInit>,
) -> Result<(), AllocError>
    ensures { OnOk result (places.new.items ≡ places.old.items ++ init_places (world_of world.now) (option_view init_view init.now)) }
{
    match init {
        None => Ok(()),
        Some(init) => add_optional(places, world, &init.statement),
    }
}

/// Adds the locals that the header of a `for` declares.
#[tactic(auto, unfolding(go_ast::specs::FileView::for_view, crate::specs::Slots::header_places))]
fn add_header(
    places: &mut Vec<usize>,
    world: &World<'_>,
    header: &ForHeader,
) -> Result<(), AllocError>
    ensures { OnOk result (places.new.items ≡ places.old.items ++ header_places (world_of world.now) (for_view header.now)) }
{
    match header {
        ForHeader::Forever => Ok(()),
        ForHeader::While(_) => Ok(()),
        ForHeader::Clauses { init, post, .. } => {
            add_optional(places, world, init)?;
            add_optional(places, world, post)
        }
    }
}

/// Adds the locals of a statement.
#[cycle(places)]
fn add_statement(
    places: &mut Vec<usize>,
    world: &World<'_>,
    statement: &Stmt,
) -> Result<(), AllocError>
    ensures { OnOk result (places.new.items ≡ places.old.items ++ statement_places (world_of world.now) (stmt_view statement.now)) }
{
    match statement {
        Stmt::Empty => Ok(()),
        Stmt::Var { group, .. } => add_locals(places, group),
        Stmt::Simple(simple) => add_simple(places, world, simple),
        Stmt::Block(inner) => add_block(places, world, inner),
        Stmt::If(branch) => add_if(places, world, branch),
        Stmt::For { header, body, .. } => {
            add_header(places, world, header)?;
            add_block(places, world, body)
        }
        Stmt::Break(_) => Ok(()),
        Stmt::Continue(_) => Ok(()),
        Stmt::Return { .. } => Ok(()),
    }
}

/// Adds the locals of a block.
#[cycle(places)]
fn add_block(
    places: &mut Vec<usize>,
    world: &World<'_>,
    block: &BlockStmt,
) -> Result<(), AllocError>
    ensures { OnOk result (places.new.items ≡ places.old.items ++ block_places (world_of world.now) (block_view block.now)) }
{
    for item in &block.statements {
        add_statement(places, world, &item.statement)?;
    }
    Ok(())
}

/// Adds the locals of an `if`.
#[cycle(places)]
fn add_if(places: &mut Vec<usize>, world: &World<'_>, branch: &IfStmt) -> Result<(), AllocError>
    ensures { OnOk result (places.new.items ≡ places.old.items ++ if_places (world_of world.now) (if_view branch.now)) }
{
    add_init(places, world, &branch.init)?;
    add_block(places, world, &branch.body)?;
    add_else(places, world, &branch.otherwise)
}

/// Adds the locals of the code behind an `else`.
#[cycle(places)]
fn add_else(places: &mut Vec<usize>, world: &World<'_>, otherwise: &Else) -> Result<(), AllocError>
    ensures { OnOk result (places.new.items ≡ places.old.items ++ else_places (world_of world.now) (else_view otherwise.now)) }
{
    match otherwise {
        Else::None => Ok(()),
        Else::If { branch, .. } => add_if(places, world, branch),
        Else::Block { block, .. } => add_block(places, world, block),
    }
}

/// The slots of a function, in the order of the file.
#[tactic(auto, unfolding(go_ast::specs::FileView::func_view))]
pub fn slots(
    alloc: Global,
    world: &World<'_>,
    func: &FuncDecl,
) -> Result<NumberedPlaces, AllocError>
    ensures { IfOk result (λ slots. slots.places.items ≡ slots_of (world_of world.now) (func_view func.now)) }
{
    let mut places = Vec::new(alloc);
    add_receiver(&mut places, &func.receiver)?;
    add_params(&mut places, &func.params)?;
    add_block(&mut places, world, &func.body)?;
    NumberedPlaces::of(alloc, places)
}
