//! Decides which methods count: those with a name that no field of their type and no earlier method of their definition has.
ghost use Rattle.std.specs.Prelude.{◌≡◌, ◌<◌, ◌↔◌, false, length, map, IsTrue, IfOk, MatchOption};
ghost use Rattle.types_expr.specs.WorldView.{definition_of, underlying_of};
ghost use Rattle.types_declared.specs.Package.{package_types};
ghost use Rattle.types_declared.specs.Definitions.{package_fields, HasFieldNamed};
ghost use Rattle.types_declared.specs.DeclaredView.{function_of};
ghost use Rattle.types_members.specs.FieldsView.{field_of, IsFieldNamed};
ghost use Rattle.types_members.specs.MemberNames.{is_noted, AddsMemberName, AreNamesBelow};
ghost use Rattle.types_members.specs.MembersView.{AreUnderlying, AreOwners, AreCountingMethods};
ghost use Rattle.types_members.specs.MethodsView.{exported_field, StructHas, UnderlyingHas, AddsMethodName};
ghost use Rattle.types_declared.specs.PackageView.{package_of, IsIndexOf};

use crate::field_marks::struct_names;
use crate::member_names::MemberNames;
use crate::struct_fields::FieldDef;
use std::alloc::{AllocError, Global};
use types_declared::{Function, Index, Package};
use types_expr::symbol::Symbol;
use types_expr::world::{Definition, Underlying};

/// Whether a definition of another package has an exported field of this name.
fn definition_has(definition: &Definition, name: &[u8]) -> bool
    ensures { result ≡ exported_field ((definition_of definition.now).field name.now) }
{
    match definition.fields.get(name) {
        None => false,
        Some(field) => field.exported,
    }
}

/// Whether the struct of another package that `symbol` identifies has an exported field of this name.
fn imported_has(pkg: Package<'_>, symbol: &Symbol, name: &[u8]) -> bool
    ensures { result ≡ exported_field ((((package_of pkg.entry).export_data_of symbol.now.package).definition symbol.now.rank).field name.now) }
{
    match pkg.export_table.definitions().get(symbol) {
        None => false,
        Some(definition) => definition_has(definition, name),
    }
}

/// Whether a symbol is of the package.
fn is_own(pkg: Package<'_>, symbol: &Symbol) -> bool
    ensures { IsTrue result ↔ (symbol.now.package ≡ pkg.entry.path.now) }
{
    symbol.package.path() == pkg.path.path()
}

/// Whether the struct that `symbol` identifies has a field of this name. In another package's struct only exported fields count.
fn struct_has(pkg: Package<'_>, structs: &MemberNames<'_>, symbol: &Symbol, name: &[u8]) -> bool
    requires { AreNamesBelow (IsFieldNamed (package_of pkg)) (length (package_fields (package_of pkg))) (is_noted structs.now) }
    ensures { IsTrue result ↔ StructHas (package_of pkg.entry) symbol.now name.now }
{
    if is_own(pkg, symbol) {
        structs.has(symbol.rank, name)
    } else {
        imported_has(pkg, symbol, name)
    }
}

/// Whether an underlying type is a struct with a field of this name.
#[tactic(auto, unfolding(types_expr::specs::WorldView::underlying_of))]
fn underlying_has(
    pkg: Package<'_>,
    structs: &MemberNames<'_>,
    underlying: &Underlying,
    name: &[u8],
) -> bool
    requires { AreNamesBelow (IsFieldNamed (package_of pkg)) (length (package_fields (package_of pkg))) (is_noted structs.now) }
    ensures { IsTrue result ↔ UnderlyingHas (package_of pkg.entry) (underlying_of underlying.now) name.now }
{
    match underlying {
        Underlying::Struct(symbol) => struct_has(pkg, structs, symbol, name),
        Underlying::Plain(_)
        | Underlying::PointerTo(_)
        | Underlying::SliceOf(_)
        | Underlying::Interface(_) => false,
    }
}

/// Whether the underlying type of a definition is a struct with a field of this name.
fn has_field(
    pkg: Package<'_>,
    structs: &MemberNames<'_>,
    underlying: &[Option<Underlying>],
    definition: usize,
    name: &[u8],
) -> bool
    requires structs { AreNamesBelow (IsFieldNamed (package_of pkg)) (length (package_fields (package_of pkg))) (is_noted structs.now) }
    requires underlying { AreUnderlying (package_of pkg) underlying.now }
    requires in_range { definition < length (package_types (package_of pkg)) }
    ensures { IsTrue result ↔ HasFieldNamed (package_of pkg.entry) definition name.now }
{
    pkg.table.is_well_formed();
    match &underlying[definition] {
        None => false,
        Some(own) => underlying_has(pkg, structs, own, name),
    }
}

/// The name of a method, with the rank of its definition.
#[derive(Clone, Copy)]
struct MethodName<'a> {
    definition: usize,
    name: &'a [u8],
}

/// A function, with the rank of the definition of which it is a method, if any.
#[derive(Clone, Copy)]
struct OwnedFunction<'a> {
    function: Function<'a>,
    owner: Option<usize>,
}

/// Adds the name of a method to those of its definition; returns whether the method counts.
fn note_method<'a>(
    alloc: Global,
    pkg: Package<'a>,
    names: &mut MemberNames<'a>,
    structs: &MemberNames<'_>,
    underlying: &[Option<Underlying>],
    method: MethodName<'a>,
) -> Result<bool, AllocError>
    requires structs { AreNamesBelow (IsFieldNamed (package_of pkg)) (length (package_fields (package_of pkg))) (is_noted structs.now) }
    requires underlying { AreUnderlying (package_of pkg) underlying.now }
    requires in_range { method.definition < length (package_types (package_of pkg)) }
    ensures { IfOk result (λ counts. AddsMemberName (is_noted names.old) (is_noted names.new) method.entry.definition method.entry.name.now ×
        (IsTrue counts ↔ ((is_noted names.old method.entry.definition method.entry.name.now ≡ false) × (HasFieldNamed (package_of pkg.entry) method.entry.definition method.entry.name.now → ⊥)))) }
{
    let is_new = names.note(alloc, method.definition, method.name)?;
    if is_new {
        Ok(!has_field(pkg, structs, underlying, method.definition, method.name))
    } else {
        Ok(false)
    }
}

/// Adds the name of a function that is a method; returns whether the function is a method that counts.
fn note_function<'a>(
    alloc: Global,
    pkg: Package<'a>,
    names: &mut MemberNames<'a>,
    structs: &MemberNames<'_>,
    underlying: &[Option<Underlying>],
    owned: OwnedFunction<'_>,
) -> Result<bool, AllocError>
    requires structs { AreNamesBelow (IsFieldNamed (package_of pkg)) (length (package_fields (package_of pkg))) (is_noted structs.now) }
    requires underlying { AreUnderlying (package_of pkg) underlying.now }
    requires owner { MatchOption owned.owner (Unit {0}) (λ d. d < length (package_types (package_of pkg))) }
    ensures { IfOk result (AddsMethodName (package_of pkg.entry) (function_of owned.entry.function) owned.entry.owner (is_noted names.old) (is_noted names.new)) }
{
    let function = owned.function;
    match owned.owner {
        None => Ok(false),
        Some(definition) => {
            let name = pkg.spelling(function.file, function.func.name as usize);
            let method = MethodName { definition, name };
            note_method(alloc, pkg, names, structs, underlying, method)
        }
    }
}

/// Marks the functions of a package that are methods that count, by rank, given the names of its fields.
fn method_marks(
    alloc: Global,
    pkg: Package<'_>,
    index: &Index<'_>,
    structs: &MemberNames<'_>,
    owners: &[Option<usize>],
    underlying: &[Option<Underlying>],
) -> Result<Vec<bool>, AllocError>
    requires index { IsIndexOf (package_of pkg) index.now }
    requires structs { AreNamesBelow (IsFieldNamed (package_of pkg)) (length (package_fields (package_of pkg))) (is_noted structs.now) }
    requires owners { AreOwners (package_of pkg) owners.now }
    requires underlying { AreUnderlying (package_of pkg) underlying.now }
    ensures { IfOk result (λ marks. AreCountingMethods (package_of pkg.entry) marks.items) }
{
    pkg.table.is_well_formed();
    let functions = &index.declared.functions;
    let mut names = MemberNames::new(alloc);
    let mut marks = Vec::new(alloc);
    for rank in 0..functions.len() {
        let function = functions[rank];
        let owner = owners[rank];
        let owned = OwnedFunction { function, owner };
        let counts = note_function(alloc, pkg, &mut names, structs, underlying, owned)?;
        marks.push(counts)?;
    }
    Ok(marks)
}

/// Marks the functions of a package that are methods that count, by rank.
pub fn counting_methods(
    alloc: Global,
    pkg: Package<'_>,
    index: &Index<'_>,
    fields: &[FieldDef<'_>],
    owners: &[Option<usize>],
    underlying: &[Option<Underlying>],
) -> Result<Vec<bool>, AllocError>
    requires index { IsIndexOf (package_of pkg) index.now }
    requires fields { map field_of fields.now ≡ package_fields (package_of pkg) }
    requires owners { AreOwners (package_of pkg) owners.now }
    requires underlying { AreUnderlying (package_of pkg) underlying.now }
    ensures { IfOk result (λ marks. AreCountingMethods (package_of pkg.entry) marks.items) }
{
    let structs = struct_names(alloc, pkg, fields)?;
    method_marks(alloc, pkg, index, &structs, owners, underlying)
}
