//! Makes the code of functions, and finds the types in their headers.
ghost use Rattle.std.specs.Prelude.{◌≡◌, ◌++◌, length, map, option_map, option_to_list, IfOk, OnOk};
ghost use Rattle.std.specs.List.{flat_map};
ghost use Rattle.go_ast.specs.View.{list_view, option_view, type_view};
ghost use Rattle.go_ast.specs.FileView.{func_view, param_view, receiver_view, results_view};
ghost use Rattle.types_expr.specs.View.{type_of};
ghost use Rattle.types_expr.specs.WorldView.{world_of};
ghost use Rattle.types_declared.specs.MeaningOf.{parameter_types, result_types};
ghost use Rattle.build_object.specs.LineView.{lines_in};
ghost use Rattle.build_object.specs.SourceView.{source_of};
ghost use Rattle.build_object.specs.Statements.{body_lines};
ghost use Rattle.build_object.specs.Objects.{all_written, parameters_of, received_type, receiver_type, results_of, written};

use crate::code::Code;
use crate::instructions::Instruction;
use crate::scope::SlotScope;
use crate::statements::{JumpMarks, block};
use crate::types::{nothing, written_type};
use go_ast::tree::{FuncDecl, Item, Param, Receiver, Results, TypeExpr};
use std::alloc::{AllocError, Global};
use types_expr::types::GoType;
use types_expr::world::World;

/// The number of a function's results.
#[tactic(auto, unfolding(go_ast::specs::FileView::results_view))]
fn result_count(results: &Results) -> usize
    ensures { result ≡ length (result_types (results_view results.now)) }
{
    match results {
        Results::None => 0,
        Results::Single(_) => 1,
        Results::Several { types, .. } => types.len(),
    }
}

/// Makes the code of a function's body.
#[tactic(auto, unfolding(go_ast::specs::FileView::func_view, crate::specs::LineView::line_of))]
pub fn body<'a>(
    alloc: Global,
    scope: SlotScope<'a>,
    func: &FuncDecl,
) -> Result<Code<'a>, AllocError>
    ensures { IfOk result (λ code. lines_in code ≡ body_lines (source_of scope.entry.source.now) scope.entry.slots.now.places.items (length (result_types (func_view func.now).result)) (func_view func.now).body) }
{
    let mut code = Code::new(alloc);
    code.put(Instruction::End)?;
    let end = code.len();
    let marks = JumpMarks {
        next: end,
        out: end,
    };
    let results = result_count(&func.results);
    block(alloc, scope, &func.body, results, marks, &mut code)?;
    Ok(code)
}

/// Adds a type, if it is known.
fn add_known(types: &mut Vec<GoType>, known: Option<GoType>) -> Result<(), AllocError>
    ensures { OnOk result (map type_of types.new.items ≡ map type_of types.old.items ++ option_to_list (option_map type_of known)) }
{
    match known {
        None => Ok(()),
        Some(own) => {
            types.push(own)?;
            Ok(())
        }
    }
}

/// Adds the type that is written, if it is not broken.
pub fn add_written(
    alloc: Global,
    world: &World<'_>,
    types: &mut Vec<GoType>,
    written_as: &TypeExpr,
) -> Result<(), AllocError>
    ensures { OnOk result (map type_of types.new.items ≡ map type_of types.old.items ++ written (world_of world.now) (type_view written_as.now)) }
{
    let known = written_type(alloc, world, written_as)?;
    add_known(types, known)
}

/// The type that a receiver names, a pointer type where it has a star.
#[tactic(auto, unfolding(go_ast::specs::FileView::receiver_view, types_expr::specs::View::type_of))]
fn received_type(
    alloc: Global,
    world: &World<'_>,
    receiver: &Receiver,
) -> Result<Option<GoType>, AllocError>
    ensures { IfOk result (λ t. option_map type_of t ≡ received_type (world_of world.now) (receiver_view receiver.now)) }
{
    let base = nothing(alloc).named_type(alloc, world, receiver.type_name as usize)?;
    match (receiver.star, base) {
        (Some(_), Some(own)) => Ok(Some(GoType::Pointer(Box::new(alloc, own)?))),
        (_, base) => Ok(base),
    }
}

/// Adds the type of the receiver, if there is one.
fn add_receiver(
    alloc: Global,
    world: &World<'_>,
    types: &mut Vec<GoType>,
    receiver: &Option<Receiver>,
) -> Result<(), AllocError>
    ensures { OnOk result (map type_of types.new.items ≡ map type_of types.old.items ++ receiver_type (world_of world.now) (option_view receiver_view receiver.now)) }
{
    let Some(receiver) = receiver else {
        return Ok(());
    };
    let known = received_type(alloc, world, receiver)?;
    add_known(types, known)
}

/// Adds the type of a parameter declaration, once for each of its names.
#[tactic(auto, unfolding(go_ast::specs::FileView::param_view))]
fn add_param(
    alloc: Global,
    world: &World<'_>,
    types: &mut Vec<GoType>,
    param: &Param,
) -> Result<(), AllocError>
    ensures { OnOk result (map type_of types.new.items ≡ map type_of types.old.items ++ all_written (world_of world.now) (map (λ n. (param_view param.now).type_use) (param_view param.now).names)) }
{
    for _name in &param.names {
        add_written(alloc, world, types, &param.param_type)?;
    }
    Ok(())
}

/// Adds the types of all parameters.
pub fn add_params(
    alloc: Global,
    world: &World<'_>,
    types: &mut Vec<GoType>,
    params: &[Item<Param>],
) -> Result<(), AllocError>
    ensures { OnOk result (map type_of types.new.items ≡ map type_of types.old.items ++ all_written (world_of world.now) (parameter_types (list_view param_view params.now))) }
{
    for param in params {
        add_param(alloc, world, types, &param.value)?;
    }
    Ok(())
}

/// The types of a function's receiver and parameters.
#[tactic(auto, unfolding(go_ast::specs::FileView::func_view))]
pub fn parameters(
    alloc: Global,
    world: &World<'_>,
    func: &FuncDecl,
) -> Result<Vec<GoType>, AllocError>
    ensures { IfOk result (λ types. map type_of types.items ≡ parameters_of (world_of world.now) (func_view func.now)) }
{
    let mut types = Vec::new(alloc);
    add_receiver(alloc, world, &mut types, &func.receiver)?;
    add_params(alloc, world, &mut types, &func.params)?;
    Ok(types)
}

/// Adds the types of several results.
fn add_items(
    alloc: Global,
    world: &World<'_>,
    types: &mut Vec<GoType>,
    items: &[Item<TypeExpr>],
) -> Result<(), AllocError>
    ensures { OnOk result (map type_of types.new.items ≡ map type_of types.old.items ++ flat_map (λ i. written (world_of world.now) i.value) (list_view type_view items.now)) }
{
    for item in items {
        add_written(alloc, world, types, &item.value)?;
    }
    Ok(())
}

/// Adds the types of the results.
#[tactic(auto, unfolding(go_ast::specs::FileView::results_view))]
pub fn add_results(
    alloc: Global,
    world: &World<'_>,
    types: &mut Vec<GoType>,
    results: &Results,
) -> Result<(), AllocError>
    ensures { OnOk result (map type_of types.new.items ≡ map type_of types.old.items ++ all_written (world_of world.now) (result_types (results_view results.now))) }
{
    match results {
        Results::None => Ok(()),
        Results::Single(own) => add_written(alloc, world, types, own),
        Results::Several { types: items, .. } => add_items(alloc, world, types, items),
    }
}

/// The types of a function's results.
#[tactic(auto, unfolding(go_ast::specs::FileView::func_view))]
pub fn results(alloc: Global, world: &World<'_>, func: &FuncDecl) -> Result<Vec<GoType>, AllocError>
    ensures { IfOk result (λ types. map type_of types.items ≡ results_of (world_of world.now) (func_view func.now)) }
{
    let mut types = Vec::new(alloc);
    add_results(alloc, world, &mut types, &func.results)?;
    Ok(types)
}
