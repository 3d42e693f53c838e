//! Builds the type definitions of a package, as expressions see them: underlying types, fields and methods.
ghost use Rattle.std.specs.Prelude.{◌≡◌, ◌<◌, length, map, option_map, IfOk, OnOk};
ghost use Rattle.go_ast.specs.View.{type_view};
ghost use Rattle.go_ast.specs.FileView.{method_view};
ghost use Rattle.types_expr.specs.View.{form_of};
ghost use Rattle.types_expr.specs.WorldView.{definition_of, field_of as plain_field, plain_method_of as plain_method, underlying_of};
ghost use Rattle.types_declared.specs.Package.{package_functions, spelled};
ghost use Rattle.types_declared.specs.Definitions.{IsUnderlyingOf, OfType, OfSignature, package_fields};
ghost use Rattle.types_declared.specs.DeclaredView.{function_of};
ghost use Rattle.types_members.specs.FieldsView.{field_of};
ghost use Rattle.types_declared.specs.Broken.{AreBroken};
ghost use Rattle.types_check.specs.Building.{IsDefinitionBelow, HaveMembersBelow, SetsField, SetsMethod, SetsMethodOf, AddsField, IsWrittenFound, IsFormFound, typed_field, received_by_pointer};
ghost use Rattle.types_members.specs.MembersView.{IsUnderlyingFound, AreUnderlying, AreCountingFields, AreOwners, AreCountingMethods};
ghost use Rattle.types_info.specs.DefinitionsView.{HaveDefinitions};
ghost use Rattle.types_members.specs.TypeMembers.{AreMembers};
ghost use Rattle.types_declared.specs.PackageView.{package_of, IsIndexOf};

use go_ast::tree::{MethodSpec, TypeExpr};
use std::alloc::{AllocError, Global};
use std::collections::BTreeMap;
use types_declared::{Function, Index, Package, is_exported};
use types_expr::symbol::Symbol;
use types_expr::types::WrittenAs;
use types_expr::world::{Definition, Field, Method, Underlying};
use types_info::{signature, valid_type, written_signature};
use types_members::{FieldDef, MemberForm, Members, copy, own_struct};

/// The underlying type of the definition of this rank; a struct of its own where none was found.
fn underlying_or_struct(
    alloc: Global,
    pkg: Package<'_>,
    rank: usize,
    found: &Option<Underlying>,
) -> Result<Underlying, AllocError>
    requires { IsUnderlyingFound (package_of pkg) rank (option_map underlying_of found.now) }
    ensures { IfOk result (λ u. IsUnderlyingOf (package_of pkg.entry) rank (underlying_of u)) }
{
    match found {
        None => own_struct(pkg, rank),
        Some(own) => copy(alloc, own),
    }
}

/// The definition of this rank without fields and methods.
fn bare_definition(
    alloc: Global,
    pkg: Package<'_>,
    rank: usize,
    found: &Option<Underlying>,
) -> Result<Definition, AllocError>
    requires { IsUnderlyingFound (package_of pkg) rank (option_map underlying_of found.now) }
    ensures { IfOk result (λ d. IsDefinitionBelow (package_of pkg.entry) 0 0 rank (definition_of d)) }
{
    let underlying = underlying_or_struct(alloc, pkg, rank, found)?;
    Ok(Definition {
        underlying,
        fields: BTreeMap::new(alloc),
        methods: BTreeMap::new(alloc),
    })
}

/// The definitions of a package without fields and methods.
fn bare_definitions(
    alloc: Global,
    pkg: Package<'_>,
    underlying: &[Option<Underlying>],
) -> Result<Vec<Definition>, AllocError>
    requires { AreUnderlying (package_of pkg) underlying.now }
    ensures { IfOk result (λ found. HaveMembersBelow (package_of pkg.entry) 0 0 found.items) }
{
    let mut found = Vec::new(alloc);
    for rank in 0..underlying.len() {
        found.push(bare_definition(alloc, pkg, rank, &underlying[rank])?)?;
    }
    Ok(found)
}

/// Sets the written member of this name.
fn insert_field(definition: &mut Definition, name: Vec<u8>, field: Field) -> Result<(), AllocError>
    ensures { OnOk result (SetsField (definition_of definition.old) (definition_of definition.new) name.items (plain_field field)) }
{
    definition.fields.insert(name, field)?;
    Ok(())
}

/// Sets the written member of this rank, with its type or signature.
fn set_field(
    alloc: Global,
    pkg: Package<'_>,
    definition: &mut Definition,
    rank: usize,
    field: FieldDef<'_>,
    own: WrittenAs,
) -> Result<(), AllocError>
    ensures { OnOk result (SetsField (definition_of definition.old) (definition_of definition.new)
        (spelled (package_of pkg.entry) field.entry.file field.entry.name) (typed_field (package_of pkg.entry) rank (field_of field.entry) (form_of own))) }
{
    let name = pkg.spelling(field.file, field.name);
    let key = Vec::from_slice(alloc, name)?;
    let package = pkg.path.clone()?;
    let made = Field {
        symbol: Symbol { package, rank },
        exported: is_exported(name),
        form: own,
    };
    insert_field(definition, key, made)
}

/// A package, its index, and the marks of its broken definitions.
#[derive(Clone, Copy)]
struct BuildInputs<'a> {
    pkg: Package<'a>,
    index: &'a Index<'a>,
    broken: &'a [bool],
}

/// Returns the type of a field, none where it is broken.
#[tactic(auto, unfolding(types_members::specs::FieldsView::placed_form, types_expr::specs::View::form_of))]
fn type_form(
    alloc: Global,
    of: &BuildInputs<'_>,
    file: usize,
    written: &TypeExpr,
) -> Result<Option<WrittenAs>, AllocError>
    requires index { IsIndexOf (package_of of.now.pkg) of.now.index.now }
    requires broken { AreBroken (package_of of.now.pkg) of.now.broken.now }
    ensures { IfOk result (λ o. IsWrittenFound (package_of of.now.pkg) file (OfType (type_view written.now)) (option_map form_of o)) }
{
    match valid_type(alloc, of.pkg, of.index, of.broken, file, written)? {
        None => Ok(None),
        Some(own) => Ok(Some(WrittenAs::Field(own))),
    }
}

/// Returns the signature of a method that an interface asks for, none where it is broken.
#[tactic(auto, unfolding(go_ast::specs::FileView::method_view, types_expr::specs::View::form_of))]
fn asked_form(
    alloc: Global,
    of: &BuildInputs<'_>,
    file: usize,
    method: &MethodSpec,
) -> Result<Option<WrittenAs>, AllocError>
    requires index { IsIndexOf (package_of of.now.pkg) of.now.index.now }
    requires broken { AreBroken (package_of of.now.pkg) of.now.broken.now }
    ensures { IfOk result (λ o. IsWrittenFound (package_of of.now.pkg) file (OfSignature (method_view method.now).params (method_view method.now).result) (option_map form_of o)) }
{
    let found = written_signature(
        alloc,
        of.pkg,
        of.index,
        of.broken,
        file,
        &method.params,
        &method.results,
    )?;
    match found {
        None => Ok(None),
        Some(signature) => Ok(Some(WrittenAs::Method(signature))),
    }
}

/// Returns the type or the signature of a written member, none where it is broken.
#[tactic(auto, unfolding(types_members::specs::FieldsView::placed_form))]
fn found_form(
    alloc: Global,
    of: &BuildInputs<'_>,
    field: FieldDef<'_>,
) -> Result<Option<WrittenAs>, AllocError>
    requires index { IsIndexOf (package_of of.now.pkg) of.now.index.now }
    requires broken { AreBroken (package_of of.now.pkg) of.now.broken.now }
    ensures { IfOk result (λ o. IsFormFound (package_of of.now.pkg) (field_of field.entry) (option_map form_of o)) }
{
    match field.form {
        MemberForm::Type(written) => type_form(alloc, of, field.file, written),
        MemberForm::Asked(method) => asked_form(alloc, of, field.file, method),
    }
}

/// Adds a written member to its definition, unless a type expression in it is broken.
fn add_field(
    alloc: Global,
    of: &BuildInputs<'_>,
    definitions: &mut Vec<Definition>,
    rank: usize,
    field: FieldDef<'_>,
) -> Result<(), AllocError>
    requires index { IsIndexOf (package_of of.now.pkg) of.now.index.now }
    requires broken { AreBroken (package_of of.now.pkg) of.now.broken.now }
    requires in_range { field.definition < length definitions.old.items }
    ensures { OnOk result (AddsField (package_of of.now.pkg) rank (field_of field.entry) definitions.old.items definitions.new.items) }
{
    match found_form(alloc, of, field)? {
        None => Ok(()),
        Some(own) => set_field(
            alloc,
            of.pkg,
            &mut definitions[field.definition],
            rank,
            field,
            own,
        ),
    }
}

/// Adds the fields that count to their definitions.
fn add_fields(
    alloc: Global,
    of: &BuildInputs<'_>,
    definitions: &mut Vec<Definition>,
    fields: &[FieldDef<'_>],
    counting: &[bool],
) -> Result<(), AllocError>
    requires index { IsIndexOf (package_of of.now.pkg) of.now.index.now }
    requires broken { AreBroken (package_of of.now.pkg) of.now.broken.now }
    requires fields { map field_of fields.now ≡ package_fields (package_of of.now.pkg) }
    requires counting { AreCountingFields (package_of of.now.pkg) counting.now }
    requires bare { HaveMembersBelow (package_of of.now.pkg) 0 0 definitions.old.items }
    ensures { OnOk result (HaveMembersBelow (package_of of.now.pkg) (length (package_fields (package_of of.now.pkg))) 0 definitions.new.items) }
{
    for rank in 0..fields.len() {
        if counting[rank] {
            add_field(alloc, of, definitions, rank, fields[rank])?;
        }
    }
    Ok(())
}

/// Whether a method's receiver type is a pointer.
#[tactic(auto, unfolding(go_ast::specs::FileView::func_view, go_ast::specs::FileView::receiver_view))]
fn is_on_pointer(function: Function<'_>) -> bool
    ensures { result ≡ received_by_pointer (function_of function.entry).function.receiver }
{
    match &function.func.receiver {
        None => false,
        Some(receiver) => receiver.star.is_some(),
    }
}

/// Sets the method of this name.
fn insert_method(
    definition: &mut Definition,
    name: Vec<u8>,
    method: Method,
) -> Result<(), AllocError>
    ensures { OnOk result (SetsMethod (definition_of definition.old) (definition_of definition.new) name.items (plain_method method)) }
{
    definition.methods.insert(name, method)?;
    Ok(())
}

/// Sets the method of this rank, with its signature.
#[tactic(auto, unfolding(go_ast::specs::FileView::func_view))]
fn set_method(
    alloc: Global,
    of: &BuildInputs<'_>,
    definition: &mut Definition,
    rank: usize,
    function: Function<'_>,
) -> Result<(), AllocError>
    requires index { IsIndexOf (package_of of.now.pkg) of.now.index.now }
    requires broken { AreBroken (package_of of.now.pkg) of.now.broken.now }
    ensures { OnOk result (SetsMethodOf (package_of of.now.pkg) rank (function_of function.entry) (definition_of definition.old) (definition_of definition.new)) }
{
    let name = of.pkg.spelling(function.file, function.func.name as usize);
    let key = Vec::from_slice(alloc, name)?;
    let package = of.pkg.path.clone()?;
    let made = Method {
        symbol: Symbol { package, rank },
        exported: is_exported(name),
        on_pointer: is_on_pointer(function),
        signature: signature(alloc, of.pkg, of.index, of.broken, function)?,
    };
    insert_method(definition, key, made)
}

/// Adds the methods that count to their definitions.
fn add_methods(
    alloc: Global,
    of: &BuildInputs<'_>,
    definitions: &mut Vec<Definition>,
    owners: &[Option<usize>],
    counting: &[bool],
) -> Result<(), AllocError>
    requires index { IsIndexOf (package_of of.now.pkg) of.now.index.now }
    requires broken { AreBroken (package_of of.now.pkg) of.now.broken.now }
    requires owners { AreOwners (package_of of.now.pkg) owners.now }
    requires counting { AreCountingMethods (package_of of.now.pkg) counting.now }
    requires fields { HaveMembersBelow (package_of of.now.pkg) (length (package_fields (package_of of.now.pkg))) 0 definitions.old.items }
    ensures { OnOk result (HaveMembersBelow (package_of of.now.pkg) (length (package_fields (package_of of.now.pkg))) (length (package_functions (package_of of.now.pkg))) definitions.new.items) }
{
    of.pkg.table.is_well_formed();
    let functions = &of.index.declared.functions;
    for rank in 0..functions.len() {
        if counting[rank] {
            if let Some(owner) = owners[rank] {
                set_method(alloc, of, &mut definitions[owner], rank, functions[rank])?;
            }
        }
    }
    Ok(())
}

/// Builds the type definitions of a package, by rank, from its underlying types, fields and methods.
pub fn definitions(
    alloc: Global,
    pkg: Package<'_>,
    index: &Index<'_>,
    broken: &[bool],
    members: &Members<'_>,
) -> Result<Vec<Definition>, AllocError>
    requires index { IsIndexOf (package_of pkg) index.now }
    requires broken { AreBroken (package_of pkg) broken.now }
    requires members { AreMembers (package_of pkg) members.now }
    ensures { IfOk result (λ found. HaveDefinitions (package_of pkg.entry) found.items) }
{
    let fields = &members.fields;
    let methods = &members.methods;
    let of = BuildInputs { pkg, index, broken };
    let mut found = bare_definitions(alloc, pkg, &members.underlying)?;
    add_fields(alloc, &of, &mut found, &fields.all, &fields.counting)?;
    add_methods(alloc, &of, &mut found, &methods.owners, &methods.counting)?;
    Ok(found)
}
