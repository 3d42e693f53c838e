//! The check of function headers and of whole functions.
ghost use Rattle.std.specs.Prelude.{◌≡◌, IfOk, OnOk, map, option_map};
ghost use Rattle.go_ast.specs.View.{list_view, option_view, type_view};
ghost use Rattle.go_ast.specs.FileView.{receiver_view, param_view, results_view, func_view};
ghost use Rattle.types_expr.specs.View.{type_of};
ghost use Rattle.types_expr.specs.WorldView.{world_of};
ghost use Rattle.types_expr.specs.Found.{AddsType};
ghost use Rattle.types_stmt.specs.Checked.{check_items};
ghost use Rattle.types_stmt.specs.Headers.{may_receive, receiver_base, judge_receiver, check_receiver, check_optional_receiver, check_param, judge_types, judge_results, is_bad_init, check_function};
ghost use Rattle.types_stmt.specs.View.{checked_of, target_of, AddsResults};

use crate::checked::CheckedBody;
use crate::locals::{declare_if, declare_written, named};
use crate::sides::{Target, note_if};
use go_ast::tree::{FuncDecl, Item, Param, Receiver, Results, TypeExpr};
use std::alloc::{AllocError, Global};
use types_expr::found::FoundInFile;
use types_expr::types::GoType;
use types_expr::world::World;

/// Whether a method may have a receiver of this type or of pointers to it: it is a definition whose underlying type is neither a
/// pointer nor an interface.
#[tactic(auto, unfolding(crate::specs::Headers::may_receive, types_expr::specs::View::type_of, types_expr::specs::WorldView::shape_of))]
fn may_receive(world: &World<'_>, own: &GoType) -> bool
    ensures { result ≡ may_receive (world_of world.now) (type_of own.now) }
{
    match own {
        GoType::Defined(_) => !world.underlying(own).takes_no_methods(),
        _ => false,
    }
}

/// Returns the type T of a receiver T or `*T`, none where it is broken. A type that methods may not have is a fault.
#[tactic(auto, unfolding(crate::specs::Headers::receiver_base, crate::specs::Headers::receiver_or_fault))]
fn receiver_base(
    alloc: Global,
    world: &World<'_>,
    place: usize,
    found: &mut FoundInFile,
) -> Result<Option<GoType>, AllocError>
    ensures { IfOk result (λ t. AddsType (receiver_base (world_of world.now) place) found.old found.new (option_map type_of t)) }
{
    let Some(own) = found.named_type(alloc, world, place)? else {
        return Ok(None);
    };
    if may_receive(world, &own) {
        return Ok(Some(own));
    }
    found.faults.push(place)?;
    Ok(None)
}

/// Returns the type of a receiver, none where it is broken.
#[tactic(auto, unfolding(crate::specs::Headers::judge_receiver, go_ast::specs::FileView::receiver_view, types_expr::specs::View::type_of))]
fn receiver_type(
    alloc: Global,
    world: &World<'_>,
    receiver: &Receiver,
    found: &mut FoundInFile,
) -> Result<Option<GoType>, AllocError>
    ensures { IfOk result (λ t. AddsType (judge_receiver (world_of world.now) (receiver_view receiver.now)) found.old found.new (option_map type_of t)) }
{
    let base = receiver_base(alloc, world, receiver.type_name as usize, found)?;
    match (receiver.star, base) {
        (Some(_), Some(own)) => Ok(Some(GoType::Pointer(Box::new(alloc, own)?))),
        (_, base) => Ok(base),
    }
}

/// Returns result types, each as a target of returned values.
fn result_types(
    alloc: Global,
    world: &World<'_>,
    types: &[Item<TypeExpr>],
    found: &mut FoundInFile,
) -> Result<Vec<Target>, AllocError>
    ensures { IfOk result (λ ts. AddsResults (judge_types (world_of world.now) (list_view type_view types.now)) found.old found.new (map target_of ts.items)) }
{
    let mut targets = Vec::new(alloc);
    for item in types {
        let own = found.judge_type(alloc, world, &item.value)?;
        targets.push(Target::Wants(own))?;
    }
    Ok(targets)
}

/// Returns the results of a function as targets of returned values.
pub(crate) fn results_of(
    alloc: Global,
    world: &World<'_>,
    results: &Results,
    found: &mut FoundInFile,
) -> Result<Vec<Target>, AllocError>
    ensures { IfOk result (λ ts. AddsResults (judge_results (world_of world.now) (results_view results.now)) found.old found.new (map target_of ts.items)) }
{
    match results {
        Results::None => Ok(Vec::new(alloc)),
        Results::Single(own) => {
            let own = found.judge_type(alloc, world, own)?;
            let mut targets = Vec::new(alloc);
            targets.push(Target::Wants(own))?;
            Ok(targets)
        }
        Results::Several { types, .. } => result_types(alloc, world, types, found),
    }
}

/// Whether the function is an `init` without a receiver that has parameters or results.
#[tactic(auto, unfolding(crate::specs::Headers::is_bad_init, go_ast::specs::FileView::func_view))]
fn is_bad_init(is_init: bool, func: &FuncDecl, results: &[Target]) -> bool
    ensures { result ≡ is_bad_init is_init (func_view func.now) (map target_of results.now) }
{
    is_init && func.receiver.is_none() && !(func.params.is_empty() && results.is_empty())
}

impl CheckedBody {
    /// Declares a receiver's name, and notes the faults of its type.
    fn check_receiver(
        &mut self,
        alloc: Global,
        world: &World<'_>,
        receiver: &Receiver,
    ) -> Result<(), AllocError>
        ensures { OnOk result (checked_of self.new ≡ check_receiver (world_of world.now) (checked_of self.old) (receiver_view receiver.now)) }
    {
        let own = receiver_type(alloc, world, receiver, &mut self.found)?;
        declare_if(&mut self.locals, named(&receiver.ident), own)
    }

    /// Checks the receiver, if there is one.
    fn check_optional_receiver(
        &mut self,
        alloc: Global,
        world: &World<'_>,
        receiver: &Option<Receiver>,
    ) -> Result<(), AllocError>
        ensures { OnOk result (checked_of self.new ≡ check_optional_receiver (world_of world.now) (checked_of self.old) (option_view receiver_view receiver.now)) }
    {
        match receiver {
            None => Ok(()),
            Some(receiver) => self.check_receiver(alloc, world, receiver),
        }
    }

    /// Declares parameters of one type, and notes the faults of that type.
    fn check_param(
        &mut self,
        alloc: Global,
        world: &World<'_>,
        param: &Param,
    ) -> Result<(), AllocError>
        ensures { OnOk result (checked_of self.new ≡ check_param (world_of world.now) (checked_of self.old) (param_view param.now)) }
    {
        let own = self.found.judge_type(alloc, world, &param.param_type)?;
        declare_written(alloc, &mut self.locals, &param.names, &own)
    }

    /// Declares all parameters, and notes the faults of their types.
    fn check_params(
        &mut self,
        alloc: Global,
        world: &World<'_>,
        params: &[Item<Param>],
    ) -> Result<(), AllocError>
        ensures { OnOk result (checked_of self.new ≡ check_items (check_param (world_of world.now)) (checked_of self.old) (list_view param_view params.now)) }
    {
        for item in params {
            self.check_param(alloc, world, &item.value)?;
        }
        Ok(())
    }

    /// Checks a function; `is_init` says whether its name is `init`.
    pub(crate) fn check_function(
        &mut self,
        alloc: Global,
        world: &World<'_>,
        is_init: bool,
        func: &FuncDecl,
    ) -> Result<(), AllocError>
        ensures { OnOk result (checked_of self.new ≡ check_function (world_of world.now) is_init (checked_of self.old) (func_view func.now)) }
    {
        self.check_optional_receiver(alloc, world, &func.receiver)?;
        self.check_params(alloc, world, &func.params)?;
        let results = results_of(alloc, world, &func.results, &mut self.found)?;
        let is_bad = is_bad_init(is_init, func, &results);
        note_if(is_bad, func.name as usize, &mut self.found)?;
        self.check_block(alloc, world, &results, &func.body)
    }
}
