//! The check of package-level declarations of variables and types.
ghost use Rattle.std.specs.Prelude.{◌≡◌, ◌∷◌, [], IfOk, OnOk, map, option_map};
ghost use Rattle.go_ast.specs.View.{list_view, group_view};
ghost use Rattle.go_ast.specs.FileView.{same_index, basic_view, global_view, field_view, param_view, method_view, body_view, type_spec_view};
ghost use Rattle.types_expr.specs.View.{type_of};
ghost use Rattle.types_expr.specs.WorldView.{world_of};
ghost use Rattle.types_expr.specs.Found.{list_value};
ghost use Rattle.types_stmt.specs.Sides.{Wants};
ghost use Rattle.types_stmt.specs.Checked.{check_group};
ghost use Rattle.types_stmt.specs.Declarations.{literal_value, first_name, literal_faults, literal_enterings, global_faults, global_enterings, field_faults, param_faults, asked_faults, body_faults, check_global, check_type};
ghost use Rattle.types_stmt.specs.View.{checked_of, target_of, AddsFaultsAt, AddsGiven};

use crate::checked::CheckedBody;
use crate::headers::results_of;
use crate::locals::copied;
use crate::sides::{Target, refuse_all};
use go_ast::tree::{
    BasicLit, FieldDecl, Group, Item, MethodSpec, Param, TypeBody, TypeSpec, VarSpec,
};
use std::alloc::{AllocError, Global};
use types_expr::found::FoundInFile;
use types_expr::meaning::ListValue;
use types_expr::types::{Basic, GoType, ValueKind};
use types_expr::world::World;

/// Returns the value of a literal.
#[tactic(auto, unfolding(types_expr::specs::View::kind_of))]
fn literal_value(literal: &BasicLit) -> ListValue
    ensures { list_value result ≡ literal_value (basic_view literal.now) }
{
    match literal {
        BasicLit::Number(place) => ListValue {
            place: *place as usize,
            kind: Some(ValueKind::Untyped(Basic::Int)),
        },
        BasicLit::Text(place) => ListValue {
            place: *place as usize,
            kind: Some(ValueKind::Untyped(Basic::String)),
        },
    }
}

/// Returns the values of literals.
fn literal_values(alloc: Global, literals: &[Item<BasicLit>]) -> Result<Vec<ListValue>, AllocError>
    ensures { IfOk result (λ vs. map list_value vs.items ≡ map (λ i. literal_value i.value) (list_view basic_view literals.now)) }
{
    let mut values = Vec::new(alloc);
    for item in literals {
        values.push(literal_value(&item.value))?;
    }
    Ok(values)
}

/// Returns the targets of variables of the type `own`, one for each name.
fn global_targets(
    alloc: Global,
    names: &[Item<u32>],
    own: &Option<GoType>,
) -> Result<Vec<Target>, AllocError>
    ensures { IfOk result (λ ts. map target_of ts.items ≡ map (λ i. Wants (option_map type_of own.now)) (list_view same_index names.now)) }
{
    let mut targets = Vec::new(alloc);
    for _item in names {
        targets.push(Target::Wants(copied(alloc, own)?))?;
    }
    Ok(targets)
}

/// Returns the token of the first name, 0 where there is none.
#[tactic(auto, unfolding(crate::specs::Declarations::first_name))]
fn first_name(names: &[Item<u32>]) -> usize
    ensures { result ≡ first_name (list_view same_index names.now) }
{
    match names {
        [] => 0,
        [first, ..] => first.value as usize,
    }
}

/// Notes each literal that does not fit the type of the variables, or a wrong count of them at the first name.
#[tactic(auto, unfolding(crate::specs::Declarations::literal_faults, crate::specs::Declarations::literal_enterings))]
fn note_value_faults(
    alloc: Global,
    world: &World<'_>,
    names: &[Item<u32>],
    own: &Option<GoType>,
    literals: &[Item<BasicLit>],
    found: &mut FoundInFile,
) -> Result<(), AllocError>
    ensures { OnOk result (AddsGiven (literal_faults (world_of world.now) (list_view same_index names.now) (option_map type_of own.now) (list_view basic_view literals.now))
        (literal_enterings (world_of world.now) (list_view same_index names.now) (option_map type_of own.now) (list_view basic_view literals.now)) found.old found.new) }
{
    if literals.len() != names.len() {
        found.faults.push(first_name(names))?;
        return Ok(());
    }
    let values = literal_values(alloc, literals)?;
    let targets = global_targets(alloc, names, own)?;
    refuse_all(alloc, world, true, &values, &targets, found)
}

/// Notes the faults of a declaration of package-level variables of one type, and the entries of their values.
fn note_global_faults(
    alloc: Global,
    world: &World<'_>,
    spec: &VarSpec,
    found: &mut FoundInFile,
) -> Result<(), AllocError>
    ensures { OnOk result (AddsGiven (global_faults (world_of world.now) (global_view spec.now)) (global_enterings (world_of world.now) (global_view spec.now)) found.old found.new) }
{
    let own = found.judge_type(alloc, world, &spec.var_type)?;
    match &spec.values {
        None => Ok(()),
        Some(values) => note_value_faults(alloc, world, &spec.names, &own, &values.values, found),
    }
}

/// Notes the faults of the types of fields.
fn note_field_faults(
    alloc: Global,
    world: &World<'_>,
    fields: &[Item<FieldDecl>],
    found: &mut FoundInFile,
) -> Result<(), AllocError>
    ensures { OnOk result (AddsFaultsAt (field_faults (world_of world.now) (list_view field_view fields.now)) found.old found.new) }
{
    for item in fields {
        found.judge_type(alloc, world, &item.value.field_type)?;
    }
    Ok(())
}

/// Notes the faults of the types of parameters.
fn note_param_faults(
    alloc: Global,
    world: &World<'_>,
    params: &[Item<Param>],
    found: &mut FoundInFile,
) -> Result<(), AllocError>
    ensures { OnOk result (AddsFaultsAt (param_faults (world_of world.now) (list_view param_view params.now)) found.old found.new) }
{
    for item in params {
        found.judge_type(alloc, world, &item.value.param_type)?;
    }
    Ok(())
}

/// Notes the faults of the types of the parameters and results of methods that an interface asks for.
#[tactic(auto, unfolding(go_ast::specs::FileView::method_view))]
fn note_asked_faults(
    alloc: Global,
    world: &World<'_>,
    methods: &[Item<MethodSpec>],
    found: &mut FoundInFile,
) -> Result<(), AllocError>
    ensures { OnOk result (AddsFaultsAt (asked_faults (world_of world.now) (list_view method_view methods.now)) found.old found.new) }
{
    for item in methods {
        note_param_faults(alloc, world, &item.value.params, found)?;
        results_of(alloc, world, &item.value.results, found)?;
    }
    Ok(())
}

/// Notes the faults of the type that a definition writes.
fn note_body_faults(
    alloc: Global,
    world: &World<'_>,
    body: &TypeBody,
    found: &mut FoundInFile,
) -> Result<(), AllocError>
    ensures { OnOk result (AddsFaultsAt (body_faults (world_of world.now) (body_view body.now)) found.old found.new) }
{
    match body {
        TypeBody::Type(own) => {
            found.judge_type(alloc, world, own)?;
            Ok(())
        }
        TypeBody::Struct { fields, .. } => note_field_faults(alloc, world, fields, found),
        TypeBody::Interface { methods, .. } => note_asked_faults(alloc, world, methods, found),
    }
}

impl CheckedBody {
    /// Checks a declaration of package-level variables of one type.
    fn check_global(
        &mut self,
        alloc: Global,
        world: &World<'_>,
        spec: &VarSpec,
    ) -> Result<(), AllocError>
        ensures { OnOk result (checked_of self.new ≡ check_global (world_of world.now) (checked_of self.old) (global_view spec.now)) }
    {
        note_global_faults(alloc, world, spec, &mut self.found)
    }

    /// Checks one or several declarations of package-level variables.
    pub(crate) fn check_globals(
        &mut self,
        alloc: Global,
        world: &World<'_>,
        group: &Group<VarSpec>,
    ) -> Result<(), AllocError>
        ensures { OnOk result (checked_of self.new ≡ check_group (check_global (world_of world.now)) (checked_of self.old) (group_view global_view group.now)) }
    {
        match group {
            Group::Single(spec) => self.check_global(alloc, world, spec),
            Group::Several { items, .. } => {
                for item in items {
                    self.check_global(alloc, world, &item.value)?;
                }
                Ok(())
            }
        }
    }

    /// Checks a type definition.
    fn check_type(
        &mut self,
        alloc: Global,
        world: &World<'_>,
        spec: &TypeSpec,
    ) -> Result<(), AllocError>
        ensures { OnOk result (checked_of self.new ≡ check_type (world_of world.now) (checked_of self.old) (type_spec_view spec.now)) }
    {
        note_body_faults(alloc, world, &spec.body, &mut self.found)
    }

    /// Checks one or several type definitions.
    pub(crate) fn check_types(
        &mut self,
        alloc: Global,
        world: &World<'_>,
        group: &Group<TypeSpec>,
    ) -> Result<(), AllocError>
        ensures { OnOk result (checked_of self.new ≡ check_group (check_type (world_of world.now)) (checked_of self.old) (group_view type_spec_view group.now)) }
    {
        match group {
            Group::Single(spec) => self.check_type(alloc, world, spec),
            Group::Several { items, .. } => {
                for item in items {
                    self.check_type(alloc, world, &item.value)?;
                }
                Ok(())
            }
        }
    }
}
