//! Finds the underlying types of a package's type definitions (the Go specification, "Underlying types").
ghost use Rattle.std.specs.Prelude.{◌≡◌, ◌<◌, ◌++◌, ◌∷◌, [], ℕ, false, Some, None, length, map, option_map, slice_get, slice_index_or, IfOk, OnOk};
ghost use Rattle.types_expr.specs.View.{type_of as plain_type};
ghost use Rattle.types_expr.specs.WorldView.{underlying_of};
ghost use Rattle.types_declared.specs.DeclaredView.{type_of};
ghost use Rattle.go_ast.specs.View.{type_view};
ghost use Rattle.types_expr.specs.Types.{Defined, Struct, Interface};
ghost use Rattle.types_declared.specs.Package.{package_types, symbol_in};
ghost use Rattle.types_declared.specs.Broken.{AddsLinks};
ghost use Rattle.types_members.specs.Steps.{IsStepFrom, IsStepBy, IsStep, AreSteps, AreStepLinks, IsStepOrder, is_last_step, reached_type, reached_type_at};
ghost use Rattle.types_members.specs.declared.underlying.NameStep.TheVariants.{Continues};
ghost use Rattle.types_members.specs.MembersView.{AreUnderlying};
ghost use Rattle.types_declared.specs.PackageView.{package_of, IsIndexOf};

use go_ast::tree::{TypeBody, TypeExpr};
use std::alloc::{AllocError, Global};
use types_declared::{Index, Package, TypeDef, named_type, no_links, note, reached_in_order};
use types_expr::symbol::Symbol;
use types_expr::types::GoType;
use types_expr::world::Underlying;

/// One step towards the underlying type of a definition: the underlying type, another definition of the package by rank, or nothing where
/// there is no underlying type.
#[derive(Drop)]
enum NameStep {
    Ends(Underlying),
    Continues(usize),
    Nothing,
}

/// Returns a copy of an underlying type.
#[tactic(auto, unfolding(types_expr::specs::WorldView::underlying_of))]
pub fn copy(alloc: Global, underlying: &Underlying) -> Result<Underlying, AllocError>
    ensures { IfOk result (λ u. underlying_of u ≡ underlying_of underlying.now) }
{
    match underlying {
        Underlying::Plain(basic) => Ok(Underlying::Plain(*basic)),
        Underlying::PointerTo(target) => Ok(Underlying::PointerTo(target.copy(alloc)?)),
        Underlying::SliceOf(element) => Ok(Underlying::SliceOf(element.copy(alloc)?)),
        Underlying::Struct(symbol) => Ok(Underlying::Struct(symbol.copy()?)),
        Underlying::Interface(symbol) => Ok(Underlying::Interface(symbol.copy()?)),
    }
}

/// The underlying type of a definition of another package. An unknown definition counts as a struct of its own.
#[tactic(auto, unfolding(types_expr::specs::WorldView::underlying_of))]
fn imported_underlying(
    alloc: Global,
    pkg: Package<'_>,
    symbol: &Symbol,
) -> Result<Underlying, AllocError>
    ensures { IfOk result (λ u. underlying_of u ≡ (((package_of pkg.entry).export_data_of symbol.now.package).definition symbol.now.rank).underlying) }
{
    match pkg.export_table.definitions().get(symbol) {
        None => Ok(Underlying::Struct(symbol.copy()?)),
        Some(definition) => copy(alloc, &definition.underlying),
    }
}

/// The step to a definition of the package; nothing where it has no such definition.
fn own_step(pkg: Package<'_>, index: &Index<'_>, rank: usize) -> NameStep
    requires { IsIndexOf (package_of pkg) index.now }
    ensures { IsStepFrom (package_of pkg.entry) (Defined (symbol_in (package_of pkg.entry) rank)) result }
{
    if rank < index.declared.types.len() {
        NameStep::Continues(rank)
    } else {
        NameStep::Nothing
    }
}

/// The step from a defined type, of this package or another.
fn step_from_defined(
    alloc: Global,
    pkg: Package<'_>,
    index: &Index<'_>,
    symbol: &Symbol,
) -> Result<NameStep, AllocError>
    requires { IsIndexOf (package_of pkg) index.now }
    ensures { IfOk result (IsStepFrom (package_of pkg.entry) (Defined symbol.now)) }
{
    if pkg.path.path() == symbol.package.path() {
        Ok(own_step(pkg, index, symbol.rank))
    } else {
        Ok(NameStep::Ends(imported_underlying(alloc, pkg, symbol)?))
    }
}

/// The step from a type.
#[tactic(auto, unfolding(types_expr::specs::View::type_of, types_expr::specs::WorldView::underlying_of))]
fn step_from(
    alloc: Global,
    pkg: Package<'_>,
    index: &Index<'_>,
    named: &GoType,
) -> Result<NameStep, AllocError>
    requires { IsIndexOf (package_of pkg) index.now }
    ensures { IfOk result (IsStepFrom (package_of pkg.entry) (plain_type named.now)) }
{
    match named {
        GoType::Basic(basic) => Ok(NameStep::Ends(Underlying::Plain(*basic))),
        GoType::Pointer(target) => Ok(NameStep::Ends(Underlying::PointerTo(target.copy(alloc)?))),
        GoType::Slice(element) => Ok(NameStep::Ends(Underlying::SliceOf(element.copy(alloc)?))),
        GoType::Defined(symbol) => step_from_defined(alloc, pkg, index, symbol),
    }
}

/// The struct that the definition of this rank is identified by.
#[tactic(auto, unfolding(types_expr::specs::WorldView::underlying_of))]
pub fn own_struct(pkg: Package<'_>, rank: usize) -> Result<Underlying, AllocError>
    ensures { IfOk result (λ u. underlying_of u ≡ Struct (symbol_in (package_of pkg.entry) rank)) }
{
    let package = pkg.path.clone()?;
    Ok(Underlying::Struct(Symbol { package, rank }))
}

/// The interface that the definition of this rank is identified by.
#[tactic(auto, unfolding(types_expr::specs::WorldView::underlying_of))]
fn own_interface(pkg: Package<'_>, rank: usize) -> Result<Underlying, AllocError>
    ensures { IfOk result (λ u. underlying_of u ≡ Interface (symbol_in (package_of pkg.entry) rank)) }
{
    let package = pkg.path.clone()?;
    Ok(Underlying::Interface(Symbol { package, rank }))
}

/// The step from a definition whose body is a type expression.
fn step_by(
    alloc: Global,
    pkg: Package<'_>,
    index: &Index<'_>,
    file: usize,
    written: &TypeExpr,
) -> Result<NameStep, AllocError>
    requires { IsIndexOf (package_of pkg) index.now }
    ensures { IfOk result (IsStepBy (package_of pkg.entry) file (type_view written.now)) }
{
    pkg.table.is_well_formed();
    match named_type(alloc, pkg, index, file, written)? {
        None => Ok(NameStep::Nothing),
        Some(named) => step_from(alloc, pkg, index, &named),
    }
}

/// The step from a definition.
#[tactic(auto, unfolding(go_ast::specs::FileView::type_spec_view))]
fn step_of(
    alloc: Global,
    pkg: Package<'_>,
    index: &Index<'_>,
    rank: usize,
    definition: &TypeDef<'_>,
) -> Result<NameStep, AllocError>
    requires index { IsIndexOf (package_of pkg) index.now }
    requires definition { slice_get (package_types (package_of pkg)) rank ≡ Some (type_of definition.now) }
    ensures { IfOk result (IsStep (package_of pkg.entry) rank) }
{
    match &definition.spec.body {
        TypeBody::Struct { .. } => Ok(NameStep::Ends(own_struct(pkg, rank)?)),
        TypeBody::Interface { .. } => Ok(NameStep::Ends(own_interface(pkg, rank)?)),
        TypeBody::Type(written) => step_by(alloc, pkg, index, definition.file, written),
    }
}

/// Returns the steps from all definitions of a package, by rank.
fn steps(alloc: Global, pkg: Package<'_>, index: &Index<'_>) -> Result<Vec<NameStep>, AllocError>
    requires { IsIndexOf (package_of pkg) index.now }
    ensures { IfOk result (λ steps. AreSteps (package_of pkg.entry) steps.items) }
{
    let types = &index.declared.types;
    let mut steps = Vec::new(alloc);
    for rank in 0..types.len() {
        steps.push(step_of(alloc, pkg, index, rank, &types[rank])?)?;
    }
    Ok(steps)
}

/// Adds a link to a definition from the one that its step continues to.
fn note_step(links: &mut Vec<Vec<usize>>, step: &NameStep, rank: usize) -> Result<(), AllocError>
    requires { (to : ℕ) → step.now ≡ Continues to → to < length links.old.items }
    ensures { OnOk result (AddsLinks links.old.items links.new.items rank (λ to. step.now ≡ Continues to)) }
{
    match step {
        NameStep::Continues(to) => note(links, *to, rank),
        NameStep::Ends(_) | NameStep::Nothing => Ok(()),
    }
}

/// Returns the links from each definition to those whose step continues to it.
fn step_links(alloc: Global, steps: &[NameStep]) -> Result<Vec<Vec<usize>>, AllocError>
    requires { (rank to : ℕ) → slice_get steps.now rank ≡ Some (Continues to) → to < length steps.now }
    ensures { IfOk result (λ links. AreStepLinks steps.now links.items) }
{
    let mut links = no_links(alloc, steps.len())?;
    for rank in 0..steps.len() {
        note_step(&mut links, &steps[rank], rank)?;
    }
    Ok(links)
}

/// Whether a step ends at an underlying type.
fn is_last_step(step: &NameStep) -> bool
    ensures { result ≡ is_last_step step.now }
{
    matches!(step, NameStep::Ends(_))
}

/// Marks the definitions whose step ends at an underlying type, by rank. The list has one more entry, which isn't marked.
fn ends(alloc: Global, steps: &[NameStep]) -> Result<Vec<bool>, AllocError>
    ensures { IfOk result (λ marks. marks.items ≡ map is_last_step steps.now ++ (false ∷ [])) }
{
    let mut marks = Vec::new(alloc);
    for step in steps {
        marks.push(is_last_step(step))?;
    }
    marks.push(false)?;
    Ok(marks)
}

/// A copy of the underlying type found for a definition; none where none is found.
fn found_at(
    alloc: Global,
    found: &[Option<Underlying>],
    rank: usize,
) -> Result<Option<Underlying>, AllocError>
    ensures { IfOk result (λ o. option_map underlying_of o ≡ option_map underlying_of (slice_index_or found.now rank None)) }
{
    match found.get(rank) {
        None => Ok(None),
        Some(None) => Ok(None),
        Some(Some(own)) => Ok(Some(copy(alloc, own)?)),
    }
}

/// The underlying type that a step leads to, by those already found.
fn take(
    alloc: Global,
    step: &NameStep,
    found: &[Option<Underlying>],
) -> Result<Option<Underlying>, AllocError>
    ensures { IfOk result (λ o. option_map underlying_of o ≡ reached_type step.now found.now) }
{
    match step {
        NameStep::Ends(own) => Ok(Some(copy(alloc, own)?)),
        NameStep::Continues(to) => found_at(alloc, found, *to),
        NameStep::Nothing => Ok(None),
    }
}

/// The underlying type that the step from a definition leads to, by those already found.
fn take_at(
    alloc: Global,
    steps: &[NameStep],
    rank: usize,
    found: &[Option<Underlying>],
) -> Result<Option<Underlying>, AllocError>
    ensures { IfOk result (λ o. option_map underlying_of o ≡ reached_type_at (slice_get steps.now rank) found.now) }
{
    match steps.get(rank) {
        None => Ok(None),
        Some(step) => take(alloc, step, found),
    }
}

/// A list of `size` definitions with no underlying type found.
fn none_found(alloc: Global, size: usize) -> Result<Vec<Option<Underlying>>, AllocError>
    ensures size { IfOk result (λ found. length found.items ≡ size) }
    ensures none { IfOk result (λ found. (rank : ℕ) → slice_index_or found.items rank None ≡ None) }
{
    let mut found = Vec::new(alloc);
    for _rank in 0..size {
        found.push(None)?;
    }
    Ok(found)
}

/// Lists the definitions with an underlying type, each after the one that its step continues to.
fn step_order(alloc: Global, steps: &[NameStep]) -> Result<Vec<usize>, AllocError>
    requires { (rank to : ℕ) → slice_get steps.now rank ≡ Some (Continues to) → to < length steps.now }
    ensures { IfOk result (λ order. IsStepOrder steps.now order.items) }
{
    let links = step_links(alloc, steps)?;
    let ends = ends(alloc, steps)?;
    reached_in_order(alloc, &links, &ends)
}

/// Finds the underlying types of definitions in this order.
fn fill(
    alloc: Global,
    pkg: Package<'_>,
    steps: &[NameStep],
    order: &[usize],
) -> Result<Vec<Option<Underlying>>, AllocError>
    requires steps { AreSteps (package_of pkg) steps.now }
    requires order { IsStepOrder steps.now order.now }
    ensures { IfOk result (λ found. AreUnderlying (package_of pkg.entry) found.items) }
{
    pkg.table.is_well_formed();
    let mut found = none_found(alloc, steps.len())?;
    for rank in order {
        let own = take_at(alloc, steps, *rank, &found)?;
        found[*rank] = own;
    }
    Ok(found)
}

/// Returns the underlying type of each type definition of a package, by rank; none where it has none.
pub fn underlying_types(
    alloc: Global,
    pkg: Package<'_>,
    index: &Index<'_>,
) -> Result<Vec<Option<Underlying>>, AllocError>
    requires { IsIndexOf (package_of pkg) index.now }
    ensures { IfOk result (λ found. AreUnderlying (package_of pkg.entry) found.items) }
{
    let steps = steps(alloc, pkg, index)?;
    let order = step_order(alloc, &steps)?;
    fill(alloc, pkg, &steps, &order)
}
