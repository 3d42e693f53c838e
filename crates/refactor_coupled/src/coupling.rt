//! What is renamed with a declaration.
ghost use Rattle.std.specs.Prelude.{◌≡◌, ◌↔◌, [], ◌<◌, true, Contains, Some, length, slice_get, IfOk, IsTrue, OnOk};
ghost use Rattle.std.specs.Option.{option_copied};
ghost use Rattle.workspace_graph.specs.Search.{IsMarked};
ghost use Rattle.types_expr.specs.WorldView.{definition_of, definitions_at, names_written};
ghost use Rattle.refs_binding.specs.declared.declaration.Declaration.TheVariants.{Field};
ghost use Rattle.refs_binding.specs.Uses.{IsCheckedPackage};
ghost use Rattle.refs_binding.specs.Workspaces.{known_in};
ghost use Rattle.refactor_coupled.specs.Coupling.{IsRenamedSet};
ghost use Rattle.refactor_coupled.specs.Reached.{AddsCoupled, AddsDeclarations, AddsOne, AreCoupledAt, AsksAt, IsAskedName, IsAskedNameOfSome, IsCalledName, IsMethodOfType, IsNameAmong, IsNameOfSome, IsNamedAmong, IsOrderOfMarks, IsReachedMethod, IsReachedMethodAt, IsSearched, ReachesAll, ReachesFrom, ReachesFromPlace, ReachesIfCoupled, ReachesOne, StartsAt, StartsIfAsking, are_coupled_if, are_types_coupled, asks_by_symbol, declaration_called, is_asked_in, is_listed, is_named_by, names_for, names_received, meets_type, received_declaration, writes_asked, written_declaration};
ghost use Rattle.refactor_coupled.specs.RenamedTypesView.{definitions_in, rename_of, types_of};

use crate::called::{types_called, types_of, writes};
use crate::renamed_types::{RenamedSet, RenamedTypes, has_received, has_written, is_interface};
use refs_binding::{Declaration, FaultlessWorkspace};
use refs_places::declared_places::package_path;
use std::alloc::{AllocError, Global};
use types_expr::symbol::{SharedPath, Symbol};
use types_expr::types::WrittenAs;
use types_expr::world::{Definition, Definitions, Underlying};

/// Whether a definition writes the method with this symbol under a name, as one that an interface asks for.
#[tactic(auto, unfolding(types_expr::specs::View::form_of))]
fn asks_for(definition: &Definition, symbol: &Symbol, name: &[u8]) -> bool
    ensures { result ≡ asks_by_symbol (definition_of definition.now) symbol.now name.now }
{
    match definition.fields.get(name) {
        None => false,
        Some(field) => match &field.form {
            WrittenAs::Field(_) => false,
            WrittenAs::Method(_) => field.symbol.same(symbol),
        },
    }
}

/// Whether the member of a definition under a name is a declaration.
fn is_named_by(definition: &Definition, declaration: &Declaration, name: &[u8]) -> bool
    ensures { result ≡ is_named_by (definition_of definition.now) declaration.now name.now }
{
    match declaration {
        Declaration::Field(symbol) => match definition.fields.get(name) {
            None => false,
            Some(field) => field.symbol.same(symbol),
        },
        Declaration::Method(symbol) => match definition.methods.get(name) {
            None => false,
            Some(method) => method.symbol.same(symbol),
        },
        Declaration::Predeclared(_) | Declaration::Declared(_, _) => false,
    }
}

/// Returns the name under which a definition writes a member, if it does.
fn written_name<'a>(definition: &'a Definition, declaration: &Declaration) -> Option<&'a [u8]>
    ensures { IsNamedAmong (is_named_by (definition_of definition.now) declaration.now) (names_written (Some definition.now)) result }
{
    for (name, _) in &definition.fields {
        if is_named_by(definition, declaration, name) {
            return Some(name.as_slice());
        }
    }
    None
}

/// Returns the name under which a definition has a method of a receiver, if it does.
fn received_name<'a>(definition: &'a Definition, declaration: &Declaration) -> Option<&'a [u8]>
    ensures { IsNamedAmong (is_named_by (definition_of definition.now) declaration.now) (names_received definition.now) result }
{
    for (name, _) in &definition.methods {
        if is_named_by(definition, declaration, name) {
            return Some(name.as_slice());
        }
    }
    None
}

/// Returns the name under which a definition has a field or method, if it does.
fn name_in<'a>(definition: &'a Definition, declaration: &Declaration) -> Option<&'a [u8]>
    ensures { IsNamedAmong (is_named_by (definition_of definition.now) declaration.now) (names_for declaration.now definition.now) result }
{
    match declaration {
        Declaration::Field(_) => written_name(definition, declaration),
        Declaration::Method(_) => received_name(definition, declaration),
        Declaration::Predeclared(_) | Declaration::Declared(_, _) => None,
    }
}

/// Returns the name of a field or method, if one of the definitions has it.
fn name_among<'a>(own: &'a [Definition], declaration: &Declaration) -> Option<&'a [u8]>
    ensures { IsNameOfSome declaration.now own.now result }
{
    for definition in own {
        if let Some(name) = name_in(definition, declaration) {
            return Some(name);
        }
    }
    None
}

/// Returns the name of a field or method, if a type definition of the package at a path has it.
fn name_at<'a>(
    types: &'a Definitions,
    path: &SharedPath,
    declaration: &Declaration,
) -> Option<&'a [u8]>
    ensures { IsNameAmong declaration.now (definitions_at types.now path.now) result }
{
    match types.of(path.path()) {
        None => None,
        Some(own) => name_among(own, declaration),
    }
}

/// Returns the name of a field or method, if a type definition of its package has it.
pub fn called_name<'a>(
    workspace: &FaultlessWorkspace<'a>,
    declaration: &Declaration,
) -> Option<&'a [u8]>
    ensures { IsCalledName (types_of workspace.now) declaration.now result }
{
    match package_path(declaration) {
        None => None,
        Some(path) => name_at(types_of(workspace), path, declaration),
    }
}

/// Returns the name under which a definition asks for the method with this symbol, if it does.
fn asked_name_in<'a>(definition: &'a Definition, symbol: &Symbol) -> Option<&'a [u8]>
    ensures { IsNamedAmong (asks_by_symbol (definition_of definition.now) symbol.now) (names_written (Some definition.now)) result }
{
    for (name, _) in &definition.fields {
        if asks_for(definition, symbol, name) {
            return Some(name.as_slice());
        }
    }
    None
}

/// Returns the name under which one of the definitions asks for the method with this symbol, if one does.
fn asked_name_among<'a>(own: &'a [Definition], symbol: &Symbol) -> Option<&'a [u8]>
    ensures { IsAskedNameOfSome symbol.now own.now result }
{
    for definition in own {
        if let Some(name) = asked_name_in(definition, symbol) {
            return Some(name);
        }
    }
    None
}

/// Returns the name of the written member with this symbol, if it is a method that an interface asks for.
fn asked_name<'a>(workspace: &FaultlessWorkspace<'a>, symbol: &Symbol) -> Option<&'a [u8]>
    ensures { IsAskedName (types_of workspace.now) symbol.now result }
{
    match types_of(workspace).of(symbol.package.path()) {
        None => None,
        Some(own) => asked_name_among(own, symbol),
    }
}

/// Whether the definition of a symbol writes an interface that asks for a method of this name.
fn writes_asked(types: &Definitions, symbol: &Symbol, name: &[u8]) -> bool
    ensures { result ≡ writes_asked (definitions_in types.now symbol.now) name.now }
{
    match types.get(symbol) {
        None => false,
        Some(definition) => { is_interface(&definition.underlying) && writes(definition, name) }
    }
}

/// Whether T or `*T` implements the interface that the definition of a symbol writes, by a method of the name of the types.
fn meets(types: &RenamedTypes<'_>, symbol: &Symbol, interface: &Symbol) -> bool
    ensures { result ≡ meets_type types.now.types.now (rename_of types.now.rename) symbol.now interface.now }
{
    writes_asked(types.types, interface, types.rename.old)
        && types.either_implements(symbol, interface)
}

/// Whether methods of two types are coupled: one of them implements the other.
fn are_coupled(types: &RenamedTypes<'_>, one: &Symbol, other: &Symbol) -> bool
    ensures { result ≡ are_types_coupled types.now.types.now (rename_of types.now.rename) one.now other.now }
{
    meets(types, one, other) || meets(types, other, one)
}

/// Whether methods of two types are coupled, if there are two.
fn are_coupled_if(types: &RenamedTypes<'_>, one: Option<&Symbol>, other: Option<&Symbol>) -> bool
    ensures { result ≡ are_coupled_if types.now.types.now (rename_of types.now.rename) (option_copied one.entry) (option_copied other.entry) }
{
    match one {
        None => false,
        Some(one) => match other {
            None => false,
            Some(other) => are_coupled(types, one, other),
        },
    }
}

/// The types of a workspace with a method of one name. Those that were reached by coupling are marked, and stand in the order in which they were
/// reached.
#[derive(Drop)]
struct Reached {
    called: Vec<Symbol>,
    marks: Vec<bool>,
    order: Vec<usize>,
}

impl Reached {
    /// Whether the type of an index is reached.
    fn is_reached(&self, index: usize) -> bool
        requires { index < length self.now.marks.items }
        ensures { IsTrue result ↔ IsMarked self.now.marks.items index }
    {
        self.marks[index]
    }

    /// The index of the type at a place of the order.
    fn index_at(&self, place: usize) -> Option<usize>
        ensures { result ≡ slice_get self.now.order.items place }
    {
        self.order.as_slice().get(place).copied()
    }

    /// The type of an index.
    fn type_at(&self, index: usize) -> Option<&Symbol>
        ensures { option_copied result ≡ slice_get self.now.called.items index }
    {
        self.called.as_slice().get(index)
    }

    /// Whether methods of the types of two indexes are coupled.
    fn are_coupled_at(&self, types: &RenamedTypes<'_>, index: usize, other: usize) -> bool
        ensures { IsTrue result ↔ AreCoupledAt types.now self.now index other }
    {
        let called = self.called.as_slice();
        are_coupled_if(types, called.get(index), called.get(other))
    }

    /// Whether the type of an index asks for the method with this symbol.
    fn asks_at(&self, types: &RenamedTypes<'_>, index: usize, symbol: &Symbol) -> bool
        ensures { IsTrue result ↔ AsksAt types.now symbol.now self.now index }
    {
        match self.called.as_slice().get(index) {
            None => false,
            Some(named) => asks_under(types, named, symbol),
        }
    }

    /// Notes that the type of an index is reached.
    fn reach(&mut self, index: usize) -> Result<(), AllocError>
        requires { index < length self.old.marks.items }
        ensures { OnOk result (ReachesOne index self.old self.new) }
    {
        self.order.push(index)?;
        self.marks[index] = true;
        Ok(())
    }

    /// Reaches the type of an index that is coupled with that of another one, unless it was reached.
    fn reach_if_coupled(
        &mut self,
        types: &RenamedTypes<'_>,
        index: usize,
        other: usize,
    ) -> Result<(), AllocError>
        requires order { IsOrderOfMarks self.old }
        requires within { other < length self.old.called.items }
        ensures { OnOk result (ReachesIfCoupled types.now index other self.old self.new) }
    {
        if self.is_reached(other) {
            return Ok(());
        }
        if !self.are_coupled_at(types, index, other) {
            return Ok(());
        }
        self.reach(other)
    }

    /// Reaches each type that is coupled with the one of an index, and was not reached.
    fn reach_from(&mut self, types: &RenamedTypes<'_>, index: usize) -> Result<(), AllocError>
        requires { IsOrderOfMarks self.old }
        ensures { OnOk result (ReachesFrom types.now index self.old self.new) }
    {
        for other in 0..self.called.len() {
            self.reach_if_coupled(types, index, other)?;
        }
        Ok(())
    }

    /// Reaches each type that is coupled with the one at a place of the order, if there is such a place.
    fn reach_from_place(&mut self, types: &RenamedTypes<'_>, place: usize) -> Result<(), AllocError>
        requires { IsOrderOfMarks self.old }
        ensures { OnOk result (ReachesFromPlace types.now place self.old self.new) }
    {
        match self.index_at(place) {
            None => Ok(()),
            Some(index) => self.reach_from(types, index),
        }
    }

    /// Reaches all types that are coupled with those that were reached, directly or indirectly.
    fn reach_all(&mut self, types: &RenamedTypes<'_>) -> Result<(), AllocError>
        requires { IsOrderOfMarks self.old }
        ensures { OnOk result (ReachesAll types.now self.old self.new) }
    {
        for place in 0..self.called.len() {
            self.reach_from_place(types, place)?;
        }
        Ok(())
    }

    /// Reaches the type of an index, if it writes the method with this symbol.
    fn start_at(
        &mut self,
        types: &RenamedTypes<'_>,
        index: usize,
        symbol: &Symbol,
    ) -> Result<(), AllocError>
        requires { index < length self.old.marks.items }
        ensures { OnOk result (StartsIfAsking types.now symbol.now index self.old self.new) }
    {
        if !self.asks_at(types, index, symbol) {
            return Ok(());
        }
        self.reach(index)
    }

    /// Reaches each type that writes the method with this symbol, where none is reached.
    fn start(&mut self, types: &RenamedTypes<'_>, symbol: &Symbol) -> Result<(), AllocError>
        requires order { IsOrderOfMarks self.old }
        requires empty { self.old.order.items ≡ [] }
        ensures { OnOk result (StartsAt types.now symbol.now self.old self.new) }
    {
        for index in 0..self.called.len() {
            self.start_at(types, index, symbol)?;
        }
        Ok(())
    }
}

/// Whether the definition of a type asks for the method with this symbol, under the name of the types.
fn asks_under(types: &RenamedTypes<'_>, named: &Symbol, symbol: &Symbol) -> bool
    ensures { result ≡ asks_by_symbol (definitions_in types.now.types.now named.now) symbol.now types.now.rename.old.now }
{
    match types.types.get(named) {
        None => false,
        Some(definition) => asks_for(definition, symbol, types.rename.old),
    }
}

/// The declaration of the member that a definition writes under a name.
fn written_declaration(
    types: &Definitions,
    written: &Symbol,
    name: &[u8],
) -> Result<Option<Declaration>, AllocError>
    ensures { IfOk result (λ found. found ≡ written_declaration (definitions_in types.now written.now) name.now) }
{
    match types.get(written) {
        None => Ok(None),
        Some(definition) => match definition.fields.get(name) {
            None => Ok(None),
            Some(field) => Ok(Some(Declaration::Field(field.symbol.copy()?))),
        },
    }
}

/// The declaration of the method of a receiver that a definition has under a name.
fn received_declaration(
    definition: &Definition,
    name: &[u8],
) -> Result<Option<Declaration>, AllocError>
    ensures { IfOk result (λ found. found ≡ received_declaration (definition_of definition.now) name.now) }
{
    match definition.methods.get(name) {
        None => Ok(None),
        Some(method) => Ok(Some(Declaration::Method(method.symbol.copy()?))),
    }
}

/// The declaration of the method of this name that a type has, or pointers to it.
#[tactic(auto, unfolding(types_expr::specs::WorldView::underlying_of))]
fn declaration_called(
    types: &Definitions,
    definition: &Definition,
    name: &[u8],
) -> Result<Option<Declaration>, AllocError>
    ensures { IfOk result (λ found. found ≡ declaration_called (definitions_in types.now) (definition_of definition.now) name.now) }
{
    match &definition.underlying {
        Underlying::Interface(written) => written_declaration(types, written, name),
        _ => received_declaration(definition, name),
    }
}

/// Whether a list has a declaration, which is a field or method.
fn is_listed(set: &[Declaration], declaration: &Declaration) -> bool
    ensures { result ≡ is_listed set.now declaration.now }
{
    match declaration {
        Declaration::Field(symbol) => has_written(set, symbol),
        Declaration::Method(symbol) => has_received(set, symbol),
        Declaration::Predeclared(_) | Declaration::Declared(_, _) => false,
    }
}

/// Adds a declaration, unless the list has it.
fn add_unless_listed(set: &mut Vec<Declaration>, declaration: Declaration) -> Result<(), AllocError>
    ensures { OnOk result (AddsOne declaration set.old.items set.new.items) }
{
    if is_listed(set.as_slice(), &declaration) {
        return Ok(());
    }
    set.push(declaration)?;
    Ok(())
}

/// Adds the declaration of the method that a type has under the name of the types, unless the list has it.
fn add_method(
    set: &mut Vec<Declaration>,
    types: &RenamedTypes<'_>,
    named: &Symbol,
) -> Result<(), AllocError>
    ensures { OnOk result (AddsDeclarations (IsMethodOfType types.now named.now) set.old.items set.new.items) }
{
    let Some(definition) = types.types.get(named) else {
        return Ok(());
    };
    match declaration_called(types.types, definition, types.rename.old)? {
        None => Ok(()),
        Some(declaration) => add_unless_listed(set, declaration),
    }
}

/// Adds the declaration of the method of the type of an index, if it was reached.
fn add_at(
    set: &mut Vec<Declaration>,
    types: &RenamedTypes<'_>,
    reached: &Reached,
    index: usize,
) -> Result<(), AllocError>
    requires { index < length reached.now.marks.items }
    ensures { OnOk result (AddsDeclarations (IsReachedMethodAt types.now reached.now index) set.old.items set.new.items) }
{
    if !reached.is_reached(index) {
        return Ok(());
    }
    match reached.type_at(index) {
        None => Ok(()),
        Some(named) => add_method(set, types, named),
    }
}

/// Adds the declarations of the methods of the types that were reached.
fn add_reached(
    set: &mut Vec<Declaration>,
    types: &RenamedTypes<'_>,
    reached: &Reached,
) -> Result<(), AllocError>
    requires { length reached.now.marks.items ≡ length reached.now.called.items }
    ensures { OnOk result (AddsDeclarations (IsReachedMethod types.now reached.now) set.old.items set.new.items) }
{
    for index in 0..reached.called.len() {
        add_at(set, types, reached, index)?;
    }
    Ok(())
}

/// The types of this name that are reached from the method with this symbol by coupling.
fn reached_from(
    alloc: Global,
    workspace: &FaultlessWorkspace<'_>,
    types: &RenamedTypes<'_>,
    symbol: &Symbol,
) -> Result<Reached, AllocError>
    ensures { IfOk result (IsSearched workspace.now types.now symbol.now) }
{
    let called = types_called(alloc, workspace, types.rename)?;
    let marks = vec![in alloc; false; called.len()]?;
    let order = Vec::new(alloc);
    let mut reached = Reached {
        called,
        marks,
        order,
    };
    reached.start(types, symbol)?;
    reached.reach_all(types)?;
    Ok(reached)
}

/// Adds all that is coupled with the method of an interface with this symbol and name.
fn add_coupled(
    alloc: Global,
    set: &mut Vec<Declaration>,
    workspace: &FaultlessWorkspace<'_>,
    symbol: &Symbol,
    name: &[u8],
) -> Result<(), AllocError>
    requires { is_asked_in (types_of workspace.now) symbol.now name.now ≡ true }
    ensures { OnOk result (AddsCoupled workspace.now (Field symbol.now) set.old.items set.new.items) }
{
    workspace.has_no_faults();
    let types = RenamedTypes {
        types: types_of(workspace),
        rename: RenamedSet {
            set: &[],
            old: name,
            new: name,
        },
    };
    let reached = reached_from(alloc, workspace, &types, symbol)?;
    add_reached(set, &types, &reached)
}

/// Adds all that is coupled with the written member with this symbol, which the list has. Nothing is, unless an interface asks for it.
fn add_asked(
    alloc: Global,
    set: &mut Vec<Declaration>,
    workspace: &FaultlessWorkspace<'_>,
    symbol: &Symbol,
) -> Result<(), AllocError>
    requires { Contains set.old.items (Field symbol.now) }
    ensures { OnOk result (AddsCoupled workspace.now (Field symbol.now) set.old.items set.new.items) }
{
    workspace.has_no_faults();
    match asked_name(workspace, symbol) {
        None => Ok(()),
        Some(name) => add_coupled(alloc, set, workspace, symbol, name),
    }
}

/// Adds what is renamed with a declaration that the list has.
fn add_renamed(
    alloc: Global,
    set: &mut Vec<Declaration>,
    workspace: &FaultlessWorkspace<'_>,
    declaration: &Declaration,
) -> Result<(), AllocError>
    requires { Contains set.old.items declaration.now }
    ensures { OnOk result (AddsCoupled workspace.now declaration.now set.old.items set.new.items) }
{
    match declaration {
        Declaration::Field(symbol) => add_asked(alloc, set, workspace, symbol),
        Declaration::Predeclared(_) | Declaration::Declared(_, _) | Declaration::Method(_) => Ok(
            (),
        ),
    }
}

/// What is renamed with a declaration, which is the first of the list: with a method that an interface asks for all that are coupled with it,
/// directly or indirectly, else nothing.
pub fn renamed_with(
    alloc: Global,
    workspace: &FaultlessWorkspace<'_>,
    declaration: &Declaration,
) -> Result<Vec<Declaration>, AllocError>
    ensures set { IfOk result (λ set. IsRenamedSet (IsCheckedPackage workspace.now.graph (known_in workspace.now.findings)) declaration.now set.items) }
{
    workspace.has_no_faults();
    let mut set = Vec::new(alloc);
    set.push(declaration.copy()?)?;
    add_renamed(alloc, &mut set, workspace, declaration)?;
    Ok(set)
}
