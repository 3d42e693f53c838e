//! Finds the meaning of each declaration of a package where it is used.
ghost use Rattle.std.specs.Prelude.{◌≡◌, ◌<◌, ℕ, Some, length, slice_get, slice_index_or, None, option_map, IfOk, OnOk};
ghost use Rattle.go_scope.specs.declared.model.Block.TheVariants.{Universe, File};
ghost use Rattle.go_scope.specs.Bindings.{IsPackageLevel, block_of};
ghost use Rattle.types_expr.specs.WorldView.{bound_of};
ghost use Rattle.types_declared.specs.Written.{DeclaresType};
ghost use Rattle.types_declared.specs.MeaningOf.{DeclaresVariable, DeclaresFunction, IsMeaningOf};
ghost use Rattle.types_declared.specs.Broken.{AreBroken};
ghost use Rattle.types_info.specs.MeaningsView.{IsMeaningFound, AreMeanings, AddsMeaning, Extends};
ghost use Rattle.types_declared.specs.PackageView.{package_of, IsIndexOf};

use crate::predeclared::predeclared;
use crate::resolved_types::valid_type;
use crate::signatures::signature;
use go_scope::model::Block;
use std::alloc::{AllocError, Global};
use types_declared::{Index, Package, defined_type};
use types_expr::world::Bound;

/// The meanings of declarations: a list, and for each identifier of a package, by number, the index of its meaning in the list. The list
/// may have more entries.
#[derive(Drop)]
pub struct MeaningTable {
    list: Vec<Bound>,
    of: Vec<Option<usize>>,
}

/// The meaning of the package-level variable `d`.
#[tactic(auto, unfolding(types_expr::specs::WorldView::bound_of))]
fn variable_bound(
    alloc: Global,
    pkg: Package<'_>,
    index: &Index<'_>,
    broken: &[bool],
    d: usize,
    rank: usize,
) -> Result<Bound, AllocError>
    requires index { IsIndexOf (package_of pkg) index.now }
    requires broken { AreBroken (package_of pkg) broken.now }
    requires level { IsPackageLevel (package_of pkg).layout d }
    requires variable { DeclaresVariable (package_of pkg) d rank }
    ensures { IfOk result (λ b. IsMeaningOf (package_of pkg.entry) d (bound_of b)) }
{
    let variable = &index.declared.variables[rank];
    match valid_type(alloc, pkg, index, broken, variable.file, variable.var_type)? {
        None => Ok(Bound::BrokenVariable),
        Some(own) => Ok(Bound::Variable(own)),
    }
}

/// The meaning of the function `d`.
#[tactic(auto, unfolding(types_expr::specs::WorldView::bound_of))]
fn function_bound(
    alloc: Global,
    pkg: Package<'_>,
    index: &Index<'_>,
    broken: &[bool],
    d: usize,
    rank: usize,
) -> Result<Bound, AllocError>
    requires index { IsIndexOf (package_of pkg) index.now }
    requires broken { AreBroken (package_of pkg) broken.now }
    requires level { IsPackageLevel (package_of pkg).layout d }
    requires function { DeclaresFunction (package_of pkg) d rank }
    ensures { IfOk result (λ b. IsMeaningOf (package_of pkg.entry) d (bound_of b)) }
{
    let function = index.declared.functions[rank];
    match signature(alloc, pkg, index, broken, function)? {
        None => Ok(Bound::BrokenFunction),
        Some(own) => Ok(Bound::Function(own)),
    }
}

/// The meaning of the type definition `d`.
#[tactic(auto, unfolding(types_expr::specs::WorldView::bound_of))]
fn definition_bound(
    pkg: Package<'_>,
    broken: &[bool],
    d: usize,
    rank: usize,
) -> Result<Bound, AllocError>
    requires broken { AreBroken (package_of pkg) broken.now }
    requires level { IsPackageLevel (package_of pkg).layout d }
    requires definition { DeclaresType (package_of pkg) d rank }
    ensures { IfOk result (λ b. IsMeaningOf (package_of pkg.entry) d (bound_of b)) }
{
    if broken[rank] {
        return Ok(Bound::BrokenType);
    }
    let own = defined_type(pkg, rank)?;
    Ok(Bound::TypeName(own))
}

/// The meaning of a package-level declaration that is neither a variable nor a function; none where it has none.
fn type_bound(
    pkg: Package<'_>,
    index: &Index<'_>,
    broken: &[bool],
    d: usize,
) -> Result<Option<Bound>, AllocError>
    requires index { IsIndexOf (package_of pkg) index.now }
    requires broken { AreBroken (package_of pkg) broken.now }
    requires in_range { d < length pkg.table.now.sites }
    requires level { IsPackageLevel (package_of pkg).layout d }
    requires no_variable { (r : ℕ) → DeclaresVariable (package_of pkg) d r → ⊥ }
    requires no_function { (r : ℕ) → DeclaresFunction (package_of pkg) d r → ⊥ }
    ensures { IfOk result (λ b. IsMeaningFound (package_of pkg.entry) d (option_map bound_of b)) }
{
    match index.definition(pkg, d) {
        None => Ok(None),
        Some(rank) => Ok(Some(definition_bound(pkg, broken, d, rank)?)),
    }
}

/// The meaning of a package-level declaration that is no variable; none where it has none.
fn constant_bound(
    alloc: Global,
    pkg: Package<'_>,
    index: &Index<'_>,
    broken: &[bool],
    d: usize,
) -> Result<Option<Bound>, AllocError>
    requires index { IsIndexOf (package_of pkg) index.now }
    requires broken { AreBroken (package_of pkg) broken.now }
    requires in_range { d < length pkg.table.now.sites }
    requires level { IsPackageLevel (package_of pkg).layout d }
    requires no_variable { (r : ℕ) → DeclaresVariable (package_of pkg) d r → ⊥ }
    ensures { IfOk result (λ b. IsMeaningFound (package_of pkg.entry) d (option_map bound_of b)) }
{
    match index.function(pkg, d) {
        None => type_bound(pkg, index, broken, d),
        Some(rank) => Ok(Some(function_bound(alloc, pkg, index, broken, d, rank)?)),
    }
}

/// The meaning of a package-level declaration; none where it has none.
fn package_bound(
    alloc: Global,
    pkg: Package<'_>,
    index: &Index<'_>,
    broken: &[bool],
    d: usize,
) -> Result<Option<Bound>, AllocError>
    requires index { IsIndexOf (package_of pkg) index.now }
    requires broken { AreBroken (package_of pkg) broken.now }
    requires in_range { d < length pkg.table.now.sites }
    requires level { IsPackageLevel (package_of pkg).layout d }
    ensures { IfOk result (λ b. IsMeaningFound (package_of pkg.entry) d (option_map bound_of b)) }
{
    match index.variable(pkg, d) {
        None => constant_bound(alloc, pkg, index, broken, d),
        Some(rank) => Ok(Some(variable_bound(alloc, pkg, index, broken, d, rank)?)),
    }
}

/// The meaning of a declaration of the universe block; none where it has none.
fn universe_bound(pkg: Package<'_>, d: usize) -> Option<Bound>
    requires in_range { d < length pkg.table.now.sites }
    requires universe { block_of ((package_of pkg).layout.role d) ≡ Universe }
    ensures { IsMeaningFound (package_of pkg.entry) d (option_map bound_of result) }
{
    if pkg.table.role(d).is_implied() {
        predeclared(pkg.table.name(d))
    } else {
        None
    }
}

/// The meaning of an import: the name of a package; none where it has no path.
#[tactic(auto, unfolding(types_expr::specs::WorldView::bound_of))]
fn import_bound(pkg: Package<'_>, index: &Index<'_>, d: usize, file: usize) -> Option<Bound>
    requires index { IsIndexOf (package_of pkg) index.now }
    requires in_range { d < length pkg.table.now.sites }
    requires in_file { block_of ((package_of pkg).layout.role d) ≡ File file }
    ensures { IsMeaningFound (package_of pkg.entry) d (option_map bound_of result) }
{
    match index.path(pkg, d) {
        None => None,
        Some(_) => Some(Bound::Package),
    }
}

/// The meaning of the declaration `d` where it is used; none where it has none.
#[tactic(auto, unfolding(types_expr::specs::WorldView::bound_of))]
fn meaning(
    alloc: Global,
    pkg: Package<'_>,
    index: &Index<'_>,
    broken: &[bool],
    d: usize,
) -> Result<Option<Bound>, AllocError>
    requires index { IsIndexOf (package_of pkg) index.now }
    requires broken { AreBroken (package_of pkg) broken.now }
    requires in_range { d < length pkg.table.now.sites }
    ensures { IfOk result (λ b. IsMeaningFound (package_of pkg.entry) d (option_map bound_of b)) }
{
    match pkg.table.role(d).block() {
        Block::Universe => Ok(universe_bound(pkg, d)),
        Block::File(file) => Ok(import_bound(pkg, index, d, file)),
        Block::Inner(_, _, _) => Ok(Some(Bound::Local(pkg.table.place(d).index))),
        Block::Package => package_bound(alloc, pkg, index, broken, d),
    }
}

impl MeaningTable {
    /// The index in the list of the meaning of the declaration `d`; none where it has none.
    pub fn get(&self, d: usize) -> Option<usize>
        ensures { result ≡ slice_index_or self.now.of.items d None }
    {
        *self.of.get(d)?
    }

    /// The list of meanings.
    pub fn list(&self) -> &[Bound]
        ensures { result.now ≡ self.now.list.items }
    {
        &self.list
    }

    /// Appends a meaning to the list and returns its index.
    pub fn add(&mut self, bound: Bound) -> Result<usize, AllocError>
        ensures extends { OnOk result (Extends self.old.list.items self.new.list.items) }
        ensures placed { IfOk result (λ i. slice_get self.new.list.items i ≡ Some bound) }
        ensures same { OnOk result (self.new.of.items ≡ self.old.of.items) }
    {
        let place = self.list.len();
        self.list.push(bound)?;
        Ok(place)
    }

    /// Appends the meaning of the next declaration, if it has one.
    fn note(&mut self, bound: Option<Bound>) -> Result<(), AllocError>
        ensures { OnOk result (AddsMeaning self.old.list.items self.old.of.items (option_map bound_of bound) self.new.list.items self.new.of.items) }
    {
        match bound {
            None => {
                self.of.push(None)?;
                Ok(())
            }
            Some(bound) => {
                let place = self.add(bound)?;
                self.of.push(Some(place))?;
                Ok(())
            }
        }
    }
}

/// Finds the meanings of all declarations of a package. In a large package most identifiers are uses, so fewer have a meaning of their own.
pub fn meanings_of(
    alloc: Global,
    pkg: Package<'_>,
    index: &Index<'_>,
    broken: &[bool],
) -> Result<MeaningTable, AllocError>
    requires index { IsIndexOf (package_of pkg) index.now }
    requires broken { AreBroken (package_of pkg) broken.now }
    ensures { IfOk result (λ b. AreMeanings (package_of pkg.entry) b.list.items b.of.items) }
{
    let mut bounds = MeaningTable {
        list: Vec::with_capacity(alloc, pkg.table.len() / 8)?,
        of: Vec::with_capacity(alloc, pkg.table.len())?,
    };
    for d in 0..pkg.table.len() {
        bounds.note(meaning(alloc, pkg, index, broken, d)?)?;
    }
    Ok(bounds)
}
