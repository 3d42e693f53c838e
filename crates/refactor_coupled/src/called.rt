//! The type definitions of a workspace that a rename of methods can concern: those with a method of the old or the new name.
ghost use Rattle.std.specs.Prelude.{◌≡◌, ◌∷◌, [], ◌<◌, false, true, length, slice_get, is_some, IfOk, OnOk};
ghost use Rattle.std.specs.Option.{option_copied};
ghost use Rattle.base_files.specs.Packages.{package_paths};
ghost use Rattle.types_expr.specs.WorldView.{definition_of, underlying_of};
ghost use Rattle.refs_binding.specs.Bindings.{AddsAll};
ghost use Rattle.refactor_coupled.specs.Called.{AreCalled, IsSoughtAmong, IsSoughtAt, IsSoughtHeld, IsSoughtOf, IsSoughtType, asks_either, has_either, is_sought_type, writes_either};
ghost use Rattle.refactor_coupled.specs.RenamedTypesView.{definitions_in, types_of};

use crate::renamed_types::RenamedSet;
use refs_binding::{FaultlessWorkspace, path_of};
use std::alloc::{AllocError, Global};
use types_expr::symbol::{SharedPath, Symbol};
use types_expr::world::{Definition, Definitions, Underlying};

/// Which type definitions are sought: those of interfaces alone that ask for a method of the old or the new name, or all with such a method.
#[derive(Clone, Copy)]
pub(crate) struct SoughtTypes<'a> {
    pub types: &'a Definitions,
    pub old: &'a [u8],
    pub new: &'a [u8],
    pub only_interfaces: bool,
}

/// The type definitions of all packages of a workspace.
pub(crate) fn types_of<'a>(workspace: &FaultlessWorkspace<'a>) -> &'a Definitions
    ensures { result.now ≡ types_of workspace.now }
{
    workspace.findings.export_table.definitions()
}

/// Whether a definition writes a member of a name.
pub(crate) fn writes(definition: &Definition, name: &[u8]) -> bool
    ensures { result ≡ is_some ((definition_of definition.now).field name.now) }
{
    match definition.fields.get(name) {
        None => false,
        Some(_) => true,
    }
}

/// Whether a definition has a method of a receiver of a name.
fn receives(definition: &Definition, name: &[u8]) -> bool
    ensures { result ≡ is_some ((definition_of definition.now).method name.now) }
{
    match definition.methods.get(name) {
        None => false,
        Some(_) => true,
    }
}

/// Whether a definition writes a member of the old or the new name.
fn writes_either(definition: &Definition, old: &[u8], new: &[u8]) -> bool
    ensures { result ≡ writes_either (definition_of definition.now) old.now new.now }
{
    writes(definition, old) || writes(definition, new)
}

/// The type definition of a rank in a list.
fn ranked_definition(own: &[Definition], rank: usize) -> Option<&Definition>
    ensures { option_copied result ≡ slice_get own.now rank }
{
    own.get(rank)
}

impl SoughtTypes<'_> {
    /// Whether the definition of a symbol writes a member of one of the names.
    fn asks(&self, written: &Symbol) -> bool
        ensures { result ≡ writes_either (definitions_in self.now.types.now written.now) self.now.old.now self.now.new.now }
    {
        match self.types.get(written) {
            None => false,
            Some(definition) => writes_either(definition, self.old, self.new),
        }
    }

    /// Whether an underlying type is an interface that asks for a method of one of the names.
    #[tactic(auto, unfolding(types_expr::specs::WorldView::underlying_of))]
    fn asks_either(&self, underlying: &Underlying) -> bool
        ensures { result ≡ asks_either (definitions_in self.now.types.now) (underlying_of underlying.now) self.now.old.now self.now.new.now }
    {
        match underlying {
            Underlying::Interface(written) => self.asks(written),
            Underlying::Plain(_)
            | Underlying::PointerTo(_)
            | Underlying::SliceOf(_)
            | Underlying::Struct(_) => false,
        }
    }

    /// Whether the type of a definition, or a pointer to it, has a method of one of the names.
    #[tactic(auto, unfolding(types_expr::specs::WorldView::underlying_of))]
    fn has_either(&self, definition: &Definition) -> bool
        ensures { result ≡ has_either (definitions_in self.now.types.now) (definition_of definition.now) self.now.old.now self.now.new.now }
    {
        match &definition.underlying {
            Underlying::Interface(written) => self.asks(written),
            Underlying::Plain(_)
            | Underlying::PointerTo(_)
            | Underlying::SliceOf(_)
            | Underlying::Struct(_) => {
                receives(definition, self.old) || receives(definition, self.new)
            }
        }
    }

    /// Whether a definition is sought.
    fn is_sought(&self, definition: &Definition) -> bool
        ensures { result ≡ is_sought_type (definitions_in self.now.types.now) (definition_of definition.now) self.now.old.now self.now.new.now self.now.only_interfaces }
    {
        if self.only_interfaces {
            self.asks_either(&definition.underlying)
        } else {
            self.has_either(definition)
        }
    }

    /// Adds the symbol of a type definition, which has this rank in the package at a path, if it is sought.
    fn add_if_sought(
        &self,
        found: &mut Vec<Symbol>,
        path: &SharedPath,
        definition: &Definition,
        rank: usize,
    ) -> Result<(), AllocError>
        ensures { OnOk result (AddsAll found.old.items found.new.items (IsSoughtHeld self.now.types.now self.now.old.now self.now.new.now self.now.only_interfaces path.now definition.now rank)) }
    {
        if !self.is_sought(definition) {
            return Ok(());
        }
        let symbol = symbol_of(path, rank)?;
        found.push(symbol)?;
        Ok(())
    }

    /// Adds the symbol of the type definition of a rank of the package at a path, if there is one and it is sought.
    fn add_at(
        &self,
        found: &mut Vec<Symbol>,
        path: &SharedPath,
        own: &[Definition],
        rank: usize,
    ) -> Result<(), AllocError>
        ensures { OnOk result (AddsAll found.old.items found.new.items (IsSoughtAt self.now.types.now self.now.old.now self.now.new.now self.now.only_interfaces path.now own.now rank)) }
    {
        match ranked_definition(own, rank) {
            None => Ok(()),
            Some(definition) => self.add_if_sought(found, path, definition, rank),
        }
    }

    /// Adds the symbols of the sought ones among the type definitions of the package at a path.
    fn add_among(
        &self,
        found: &mut Vec<Symbol>,
        path: &SharedPath,
        own: &[Definition],
    ) -> Result<(), AllocError>
        ensures { OnOk result (AddsAll found.old.items found.new.items (IsSoughtAmong self.now.types.now self.now.old.now self.now.new.now self.now.only_interfaces path.now own.now)) }
    {
        for rank in 0..own.len() {
            self.add_at(found, path, own, rank)?;
        }
        Ok(())
    }

    /// Adds the symbols of the sought type definitions of the package at a path.
    fn add_of(&self, found: &mut Vec<Symbol>, path: &SharedPath) -> Result<(), AllocError>
        ensures { OnOk result (AddsAll found.old.items found.new.items (IsSoughtType self.now.types.now self.now.old.now self.now.new.now self.now.only_interfaces (path.now ∷ []))) }
    {
        match self.types.of(path.path()) {
            None => Ok(()),
            Some(own) => self.add_among(found, path, own),
        }
    }

    /// Adds the symbols of the sought type definitions of the package of a number.
    fn add_numbered(
        &self,
        found: &mut Vec<Symbol>,
        workspace: &FaultlessWorkspace<'_>,
        number: usize,
    ) -> Result<(), AllocError>
        requires { number < length (package_paths workspace.now.graph) }
        ensures { OnOk result (AddsAll found.old.items found.new.items (IsSoughtOf self.now.types.now self.now.old.now self.now.new.now self.now.only_interfaces (package_paths workspace.now.graph) number)) }
    {
        self.add_of(found, path_of(workspace, number))
    }

    /// The symbols of the sought type definitions of all packages.
    fn in_all(
        &self,
        alloc: Global,
        workspace: &FaultlessWorkspace<'_>,
    ) -> Result<Vec<Symbol>, AllocError>
        requires { self.now.types.now ≡ types_of workspace.now }
        ensures { IfOk result (λ found. AreCalled workspace.now self.now.old.now self.now.new.now self.now.only_interfaces found.items) }
    {
        let mut found = Vec::new(alloc);
        for number in 0..workspace.len() {
            self.add_numbered(&mut found, workspace, number)?;
        }
        Ok(found)
    }
}

/// The symbol of the type definition of a rank of the package at a path.
fn symbol_of(path: &SharedPath, rank: usize) -> Result<Symbol, AllocError>
    ensures { IfOk result (λ s. s ≡ record { «package» = path.now; rank = rank }) }
{
    Ok(Symbol {
        package: path.clone()?,
        rank,
    })
}

/// The type definitions whose underlying type is an interface that asks for a method of the old or the new name.
pub(crate) fn interfaces_called(
    alloc: Global,
    workspace: &FaultlessWorkspace<'_>,
    rename: RenamedSet<'_>,
) -> Result<Vec<Symbol>, AllocError>
    ensures { IfOk result (λ found. AreCalled workspace.now rename.entry.old.now rename.entry.new.now true found.items) }
{
    let sought = SoughtTypes {
        types: types_of(workspace),
        old: rename.old,
        new: rename.new,
        only_interfaces: true,
    };
    sought.in_all(alloc, workspace)
}

/// The type definitions with a method of the old or the new name: in the method set of the type, or of pointers to it.
pub(crate) fn types_called(
    alloc: Global,
    workspace: &FaultlessWorkspace<'_>,
    rename: RenamedSet<'_>,
) -> Result<Vec<Symbol>, AllocError>
    ensures { IfOk result (λ found. AreCalled workspace.now rename.entry.old.now rename.entry.new.now false found.items) }
{
    let sought = SoughtTypes {
        types: types_of(workspace),
        old: rename.old,
        new: rename.new,
        only_interfaces: false,
    };
    sought.in_all(alloc, workspace)
}
