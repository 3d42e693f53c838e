//! The two sides of assignments and local declarations: values and their targets.
ghost use Rattle.std.specs.Prelude.{◌≡◌, ◌==◌, length, ◌∷◌, [], IfOk, OnOk, map, option_map};
ghost use Rattle.std.specs.List.{list_all};
ghost use Rattle.go_ast.specs.View.{expr_view, exprs_view};
ghost use Rattle.types_expr.specs.Judge.{judge, as_value};
ghost use Rattle.types_expr.specs.Places.{place_of};
ghost use Rattle.types_expr.specs.View.{type_of, kind_of};
ghost use Rattle.types_expr.specs.WorldView.{world_of};
ghost use Rattle.types_expr.specs.Found.{locals_of, meaning_of, list_value, AddsJudged, AddsJudgedList};
ghost use Rattle.types_expr.specs.World.{giving};
ghost use Rattle.types_stmt.specs.Sides.{receiving, results_at, one_value, values_of, list_followed, judge_each, rhs, all_unbroken, is_unbroken, nil_refused, refused_at, entered_at, all_refused, all_entered, given_faults, given_enterings, assignable, judge_operand, own_type, assigned_one, assigned, no_name, defined_one, defined};
ghost use Rattle.types_stmt.specs.Checked.{fault_if};
ghost use Rattle.types_stmt.specs.Statements.{returned};
ghost use Rattle.types_stmt.specs.View.{target_of, AddsLefts, AddsFaultsAt, AddsGiven};

use crate::locals::declares;
use go_ast::tree::{Expr, ExprItem};
use std::alloc::{AllocError, Global};
use types_expr::found::{FoundInFile, LocalScope};
use types_expr::judge::{arguments, judge, judge_value};
use types_expr::meaning::{ListValue, Meaning, all_whole};
use types_expr::places::place_of;
use types_expr::types::{GoType, ValueKind};
use types_expr::world::World;

/// A target of a value: a left side, or a result. A new name or `_` takes a value of any type. Any other target wants one that fits its own
/// type, which is none where it is broken.
#[derive(Drop)]
pub enum Target {
    Takes,
    Wants(Option<GoType>),
}

/// Returns the values of right sides: one of each, or the results of a single call.
#[tactic(auto, unfolding(crate::specs::Sides::rhs))]
pub(crate) fn rhs(
    alloc: Global,
    scope: LocalScope<'_>,
    exprs: &[ExprItem],
    found: &mut FoundInFile,
) -> Result<Vec<ListValue>, AllocError>
    ensures { IfOk result (λ vs. AddsJudgedList (rhs (world_of scope.entry.world.now) (locals_of scope.entry.locals.now) (exprs_view exprs.now)) found.old found.new (map list_value vs.items)) }
{
    match exprs {
        [only] => single_values(alloc, scope, &only.value, found),
        _ => each_value(alloc, scope, exprs, found),
    }
}

/// Returns the values of the only right side: the results of a call, or one value.
fn single_values(
    alloc: Global,
    scope: LocalScope<'_>,
    expr: &Expr,
    found: &mut FoundInFile,
) -> Result<Vec<ListValue>, AllocError>
    ensures { IfOk result (λ vs. AddsJudgedList (list_followed (judge (world_of scope.entry.world.now) (locals_of scope.entry.locals.now) (expr_view expr.now)) (values_of (place_of (expr_view expr.now)))) found.old found.new (map list_value vs.items)) }
{
    let place = place_of(expr);
    let meaning = judge(alloc, scope, expr, found)?;
    match meaning {
        Meaning::Results(types) => results_at(alloc, place, types),
        _ => one_value(alloc, place, meaning, found),
    }
}

/// Returns the value of an expression of this meaning, where a value is required.
fn one_value(
    alloc: Global,
    place: usize,
    meaning: Meaning<'_>,
    found: &mut FoundInFile,
) -> Result<Vec<ListValue>, AllocError>
    ensures { IfOk result (λ vs. AddsJudgedList (one_value place (as_value place (meaning_of meaning.entry))) found.old found.new (map list_value vs.items)) }
{
    let kind = found.as_value(place, meaning)?.into_kind();
    let mut values = Vec::new(alloc);
    values.push(ListValue { place, kind })?;
    Ok(values)
}

/// Returns the results of a call as values, each at the place of the call.
fn results_at(alloc: Global, place: usize, types: &[GoType]) -> Result<Vec<ListValue>, AllocError>
    ensures { IfOk result (λ vs. map list_value vs.items ≡ results_at place (map type_of types.now)) }
{
    let mut values = Vec::new(alloc);
    for result_type in types {
        let kind = Some(ValueKind::Typed(result_type.copy(alloc)?));
        values.push(ListValue { place, kind })?;
    }
    Ok(values)
}

/// Returns the values of expressions, each of which has to be one value.
fn each_value(
    alloc: Global,
    scope: LocalScope<'_>,
    exprs: &[ExprItem],
    found: &mut FoundInFile,
) -> Result<Vec<ListValue>, AllocError>
    ensures { IfOk result (λ vs. AddsJudgedList (judge_each (world_of scope.entry.world.now) (locals_of scope.entry.locals.now) (exprs_view exprs.now)) found.old found.new (map list_value vs.items)) }
{
    arguments(alloc, scope, exprs, found)
}

/// Whether the target is not broken.
#[tactic(auto, unfolding(crate::specs::View::target_of))]
fn is_unbroken(target: &Target) -> bool
    ensures { result ≡ is_unbroken (target_of target.now) }
{
    !matches!(target, Target::Wants(None))
}

/// Whether each target is sound.
fn each_unbroken(targets: &[Target]) -> bool
    ensures { result ≡ list_all (λ t. is_unbroken (target_of t)) targets.now }
{
    targets.iter().all(|target| is_unbroken(target))
}

/// Whether no target is broken.
fn all_unbroken(targets: &[Target]) -> bool
    ensures { result ≡ all_unbroken (map target_of targets.now) }
{
    each_unbroken(targets)
}

/// Notes a fault where the target refuses the value, or its entry into the target's type. `own` is false for one of several results of a call.
#[tactic(auto, unfolding(crate::specs::View::target_of, crate::specs::Sides::refused_at, crate::specs::Sides::entered_at, types_expr::specs::View::kind_of))]
fn refuse(
    alloc: Global,
    world: &World<'_>,
    own: bool,
    value: &ListValue,
    target: &Target,
    found: &mut FoundInFile,
) -> Result<(), AllocError>
    ensures { OnOk result (AddsGiven (refused_at (giving own (world_of world.now)) value.now.place (option_map kind_of value.now.kind) (target_of target.now))
        (entered_at (giving own (world_of world.now)) value.now.place (option_map kind_of value.now.kind) (target_of target.now)) found.old found.new) }
{
    match target {
        Target::Wants(None) => Ok(()),
        Target::Wants(Some(wanted)) => {
            found.misfit_given(alloc, world, own, value, wanted)?;
            Ok(())
        }
        Target::Takes => refuse_nil(value, found),
    }
}

/// Notes a fault where the value is nil, which has no type of its own.
#[tactic(auto, unfolding(crate::specs::Sides::nil_refused, types_expr::specs::View::kind_of))]
fn refuse_nil(value: &ListValue, found: &mut FoundInFile) -> Result<(), AllocError>
    ensures { OnOk result (AddsGiven (nil_refused value.now.place (option_map kind_of value.now.kind)) [] found.old found.new) }
{
    if matches!(value.kind, Some(ValueKind::Nil)) {
        found.faults.push(value.place)?;
    }
    Ok(())
}

/// Notes each value that the target at its position refuses, and each that enters its type. `own` is false for several results of a call.
pub(crate) fn refuse_all(
    alloc: Global,
    world: &World<'_>,
    own: bool,
    values: &[ListValue],
    targets: &[Target],
    found: &mut FoundInFile,
) -> Result<(), AllocError>
    ensures { OnOk result (AddsGiven (all_refused (giving own (world_of world.now)) (map list_value values.now) (map target_of targets.now))
        (all_entered (giving own (world_of world.now)) (map list_value values.now) (map target_of targets.now)) found.old found.new) }
{
    let mut i = 0;
    'each: while i < values.len() && i < targets.len() {
        refuse(alloc, world, own, &values[i], &targets[i], found)?;
        i += 1;
    }
    Ok(())
}

/// Notes a fault at `place`, if `test` is true.
pub(crate) fn note_if(test: bool, place: usize, found: &mut FoundInFile) -> Result<(), AllocError>
    ensures { OnOk result (AddsFaultsAt (fault_if test place) found.old found.new) }
{
    if test {
        found.faults.push(place)?;
    }
    Ok(())
}

/// Whether each of the values is that of a right side of its own.
fn are_own(sides: &[ExprItem], values: &[ListValue]) -> bool
    ensures { result ≡ (length (map list_value values.now) == length (exprs_view sides.now)) }
{
    values.len() == sides.len()
}

/// Notes the values of right sides that their targets refuse, or a wrong count of values at `place`.
#[tactic(auto, unfolding(crate::specs::Sides::given_faults, crate::specs::Sides::given_enterings))]
pub(crate) fn given_faults(
    alloc: Global,
    world: &World<'_>,
    place: usize,
    sides: &[ExprItem],
    values: &[ListValue],
    targets: &[Target],
    found: &mut FoundInFile,
) -> Result<(), AllocError>
    ensures { OnOk result (AddsGiven (given_faults (receiving (world_of world.now) (exprs_view sides.now) (map list_value values.now)) place (map list_value values.now) (map target_of targets.now))
        (given_enterings (receiving (world_of world.now) (exprs_view sides.now) (map list_value values.now)) (map list_value values.now) (map target_of targets.now)) found.old found.new) }
{
    if values.len() == targets.len() {
        return refuse_all(alloc, world, are_own(sides, values), values, targets, found);
    }
    let whole = all_whole(values) && all_unbroken(targets);
    note_if(whole, place, found)?;
    Ok(())
}

/// Returns `meaning` where it is addressable or broken. Any other operand that is assigned is a fault.
#[tactic(auto, unfolding(crate::specs::Sides::assignable, types_expr::specs::Found::meaning_of))]
pub(crate) fn assignable<'w>(
    place: usize,
    meaning: Meaning<'w>,
    found: &mut FoundInFile,
) -> Result<Meaning<'w>, AllocError>
    ensures { IfOk result (λ m. AddsJudged (assignable place (meaning_of meaning.entry)) found.old found.new (meaning_of m)) }
{
    match meaning {
        Meaning::Value {
            addressable: true,
            ..
        }
        | Meaning::Broken => Ok(meaning),
        _ => found.wrong(place),
    }
}

/// Returns the meaning of an expression that is assigned.
pub(crate) fn operand<'w>(
    alloc: Global,
    scope: LocalScope<'w>,
    expr: &Expr,
    found: &mut FoundInFile,
) -> Result<Meaning<'w>, AllocError>
    ensures { IfOk result (λ m. AddsJudged (judge_operand (world_of scope.entry.world.now) (locals_of scope.entry.locals.now) (expr_view expr.now)) found.old found.new (meaning_of m)) }
{
    let place = place_of(expr);
    let meaning = judge(alloc, scope, expr, found)?;
    assignable(place, meaning, found)
}

/// Returns the type of a value, none for one without a type.
#[tactic(auto, unfolding(crate::specs::Sides::own_type, types_expr::specs::Found::meaning_of, types_expr::specs::View::kind_of))]
fn own_type(meaning: Meaning<'_>) -> Option<GoType>
    ensures { option_map type_of result ≡ own_type (meaning_of meaning.entry) }
{
    match meaning {
        Meaning::Value { kind, .. } => match kind {
            ValueKind::Typed(own) => Some(own),
            _ => None,
        },
        _ => None,
    }
}

/// Judges a left side of `=`.
fn assigned_one(
    alloc: Global,
    scope: LocalScope<'_>,
    expr: &Expr,
    found: &mut FoundInFile,
) -> Result<Target, AllocError>
    ensures { IfOk result (λ t. AddsLefts (assigned_one (world_of scope.entry.world.now) (locals_of scope.entry.locals.now) (expr_view expr.now)) found.old found.new (target_of t ∷ [])) }
{
    match expr {
        Expr::Blank(_) => Ok(Target::Takes),
        _ => {
            let meaning = operand(alloc, scope, expr, found)?;
            Ok(Target::Wants(own_type(meaning)))
        }
    }
}

/// Judges the left sides of `=`.
pub(crate) fn assigned(
    alloc: Global,
    scope: LocalScope<'_>,
    exprs: &[ExprItem],
    found: &mut FoundInFile,
) -> Result<Vec<Target>, AllocError>
    ensures { IfOk result (λ ts. AddsLefts (assigned (world_of scope.entry.world.now) (locals_of scope.entry.locals.now) (exprs_view exprs.now)) found.old found.new (map target_of ts.items)) }
{
    let mut targets = Vec::new(alloc);
    for item in exprs {
        let target = assigned_one(alloc, scope, &item.value, found)?;
        targets.push(target)?;
    }
    Ok(targets)
}

/// Notes a left side of `:=` that is no identifier, unless it is broken already.
#[tactic(auto, unfolding(crate::specs::Sides::no_name, types_expr::specs::Found::meaning_of))]
fn no_name<'w>(
    place: usize,
    meaning: Meaning<'w>,
    found: &mut FoundInFile,
) -> Result<Meaning<'w>, AllocError>
    ensures { IfOk result (λ m. AddsJudged (no_name place (meaning_of meaning.entry)) found.old found.new (meaning_of m)) }
{
    match meaning {
        Meaning::Broken => Ok(meaning),
        _ => found.wrong(place),
    }
}

/// Judges a left side of `:=`.
fn defined_one(
    alloc: Global,
    scope: LocalScope<'_>,
    expr: &Expr,
    found: &mut FoundInFile,
) -> Result<Target, AllocError>
    ensures { IfOk result (λ t. AddsLefts (defined_one (world_of scope.entry.world.now) (locals_of scope.entry.locals.now) (expr_view expr.now)) found.old found.new (target_of t ∷ [])) }
{
    match expr {
        Expr::Blank(_) => Ok(Target::Takes),
        Expr::Name(place) => {
            if declares(scope.world, *place as usize) {
                return Ok(Target::Takes);
            }
            let meaning = judge_value(alloc, scope, expr, found)?;
            Ok(Target::Wants(own_type(meaning)))
        }
        _ => {
            let place = place_of(expr);
            let meaning = judge_value(alloc, scope, expr, found)?;
            no_name(place, meaning, found)?;
            Ok(Target::Wants(None))
        }
    }
}

/// Judges the left sides of `:=`.
pub(crate) fn defined(
    alloc: Global,
    scope: LocalScope<'_>,
    exprs: &[ExprItem],
    found: &mut FoundInFile,
) -> Result<Vec<Target>, AllocError>
    ensures { IfOk result (λ ts. AddsLefts (defined (world_of scope.entry.world.now) (locals_of scope.entry.locals.now) (exprs_view exprs.now)) found.old found.new (map target_of ts.items)) }
{
    let mut targets = Vec::new(alloc);
    for item in exprs {
        let target = defined_one(alloc, scope, &item.value, found)?;
        targets.push(target)?;
    }
    Ok(targets)
}

/// Notes the values of returned expressions that the results refuse, or a wrong count of values at `place`.
#[tactic(auto, unfolding(crate::specs::Statements::returned, crate::specs::Sides::given_enterings))]
pub(crate) fn returned(
    alloc: Global,
    world: &World<'_>,
    place: usize,
    sides: &[ExprItem],
    values: &[ListValue],
    results: &[Target],
    found: &mut FoundInFile,
) -> Result<(), AllocError>
    ensures { OnOk result (AddsGiven (returned (receiving (world_of world.now) (exprs_view sides.now) (map list_value values.now)) place (map list_value values.now) (map target_of results.now))
        (given_enterings (receiving (world_of world.now) (exprs_view sides.now) (map list_value values.now)) (map list_value values.now) (map target_of results.now)) found.old found.new) }
{
    if values.len() == results.len() {
        return refuse_all(alloc, world, are_own(sides, values), values, results, found);
    }
    note_if(all_whole(values), place, found)?;
    Ok(())
}
