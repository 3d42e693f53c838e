//! Finds the broken type definitions of a package: those with a type expression that names no type or mentions a broken definition.
ghost use Rattle.std.specs.Prelude.{◌≡◌, ◌<◌, ◌↔◌, ℕ, suc, length, map, IsTrue, IfOk, OnOk};
ghost use Rattle.go_ast.specs.View.{type_view, list_view};
ghost use Rattle.go_ast.specs.FileView.{field_view, param_view, results_view, method_view, body_view};
ghost use Rattle.types_declared.specs.Package.{package_types};
ghost use Rattle.types_declared.specs.Written.{result_types, signature_types, asked_types, written_types};
ghost use Rattle.types_declared.specs.Reachability.{LinksTo};
ghost use Rattle.types_declared.specs.Broken.{AddsLinks, IsTarget, IsOneTarget, IsTargetOfSome, NamesSome, AreMentions, AreBroken};
ghost use Rattle.types_declared.specs.PackageView.{package_of, IsIndexOf};

use crate::declared::TypeDef;
use crate::index::{Index, Package};
use crate::reachability::reached;
use crate::written::{mentioned, named_type};
use go_ast::tree::{FieldDecl, Item, MethodSpec, Param, Results, TypeBody, TypeExpr};
use std::alloc::{AllocError, Global};

/// Adds the link from the number `to` to the definition `rank` that mentions it.
pub fn note(links: &mut Vec<Vec<usize>>, to: usize, rank: usize) -> Result<(), AllocError>
    requires { to < length links.old.items }
    ensures { OnOk result (AddsLinks links.old.items links.new.items rank (λ a. a ≡ to)) }
{
    links[to].push(rank)?;
    Ok(())
}

/// Whether a type expression names a type.
fn names_type(
    alloc: Global,
    pkg: Package<'_>,
    index: &Index<'_>,
    file: usize,
    written: &TypeExpr,
) -> Result<bool, AllocError>
    requires { IsIndexOf (package_of pkg) index.now }
    ensures { IfOk result (λ found. IsTrue found ↔ NamesSome (package_of pkg.entry) file (type_view written.now)) }
{
    let named = named_type(alloc, pkg, index, file, written)?;
    Ok(named.is_some())
}

/// The target of a type expression: the rank of the definition that it mentions, or the number of definitions where it names no type.
fn target(
    alloc: Global,
    pkg: Package<'_>,
    index: &Index<'_>,
    file: usize,
    written: &TypeExpr,
) -> Result<Option<usize>, AllocError>
    requires { IsIndexOf (package_of pkg) index.now }
    ensures { IfOk result (IsOneTarget (package_of pkg.entry) file (type_view written.now)) }
{
    if names_type(alloc, pkg, index, file, written)? {
        Ok(mentioned(pkg, index, file, written))
    } else {
        Ok(Some(index.declared.types.len()))
    }
}

/// A definition by its rank, with the rank of its file.
#[derive(Clone, Copy)]
struct DefinitionPlace {
    rank: usize,
    file: usize,
}

/// Links the target of one type expression to the definition that contains it.
fn note_type(
    alloc: Global,
    pkg: Package<'_>,
    index: &Index<'_>,
    links: &mut Vec<Vec<usize>>,
    at: DefinitionPlace,
    written: &TypeExpr,
) -> Result<(), AllocError>
    requires index { IsIndexOf (package_of pkg) index.now }
    requires size { length links.old.items ≡ suc (length (package_types (package_of pkg))) }
    ensures { OnOk result (AddsLinks links.old.items links.new.items at.rank (IsTarget (package_of pkg.entry) at.file (type_view written.now))) }
{
    match target(alloc, pkg, index, at.file, written)? {
        None => Ok(()),
        Some(to) => note(links, to, at.rank),
    }
}

/// Links the targets of the fields' type expressions to the definition that contains them.
fn note_fields(
    alloc: Global,
    pkg: Package<'_>,
    index: &Index<'_>,
    links: &mut Vec<Vec<usize>>,
    at: DefinitionPlace,
    fields: &[Item<FieldDecl>],
) -> Result<(), AllocError>
    requires index { IsIndexOf (package_of pkg) index.now }
    requires size { length links.old.items ≡ suc (length (package_types (package_of pkg))) }
    ensures { OnOk result (AddsLinks links.old.items links.new.items at.rank (IsTargetOfSome (package_of pkg.entry) at.file (map (λ f. f.value.type_use) (list_view field_view fields.now)))) }
{
    for field in fields {
        note_type(alloc, pkg, index, links, at, &field.value.field_type)?;
    }
    Ok(())
}

/// Links the targets of the parameters' type expressions to the definition that contains them.
fn note_params(
    alloc: Global,
    pkg: Package<'_>,
    index: &Index<'_>,
    links: &mut Vec<Vec<usize>>,
    at: DefinitionPlace,
    params: &[Item<Param>],
) -> Result<(), AllocError>
    requires index { IsIndexOf (package_of pkg) index.now }
    requires size { length links.old.items ≡ suc (length (package_types (package_of pkg))) }
    ensures { OnOk result (AddsLinks links.old.items links.new.items at.rank (IsTargetOfSome (package_of pkg.entry) at.file (map (λ p. p.value.type_use) (list_view param_view params.now)))) }
{
    for param in params {
        note_type(alloc, pkg, index, links, at, &param.value.param_type)?;
    }
    Ok(())
}

/// Links the targets of type expressions to the definition that contains them.
fn note_types(
    alloc: Global,
    pkg: Package<'_>,
    index: &Index<'_>,
    links: &mut Vec<Vec<usize>>,
    at: DefinitionPlace,
    types: &[Item<TypeExpr>],
) -> Result<(), AllocError>
    requires index { IsIndexOf (package_of pkg) index.now }
    requires size { length links.old.items ≡ suc (length (package_types (package_of pkg))) }
    ensures { OnOk result (AddsLinks links.old.items links.new.items at.rank (IsTargetOfSome (package_of pkg.entry) at.file (map (λ t. t.value) (list_view type_view types.now)))) }
{
    for written in types {
        note_type(alloc, pkg, index, links, at, &written.value)?;
    }
    Ok(())
}

/// Links the targets of the results' type expressions to the definition that contains them.
fn note_results(
    alloc: Global,
    pkg: Package<'_>,
    index: &Index<'_>,
    links: &mut Vec<Vec<usize>>,
    at: DefinitionPlace,
    results: &Results,
) -> Result<(), AllocError>
    requires index { IsIndexOf (package_of pkg) index.now }
    requires size { length links.old.items ≡ suc (length (package_types (package_of pkg))) }
    ensures { OnOk result (AddsLinks links.old.items links.new.items at.rank (IsTargetOfSome (package_of pkg.entry) at.file (result_types (results_view results.now)))) }
{
    match results {
        Results::None => Ok(()),
        Results::Single(written) => note_type(alloc, pkg, index, links, at, written),
        Results::Several { types, .. } => note_types(alloc, pkg, index, links, at, types),
    }
}

/// Links the targets of a method's type expressions to the interface that asks for it.
fn note_method(
    alloc: Global,
    pkg: Package<'_>,
    index: &Index<'_>,
    links: &mut Vec<Vec<usize>>,
    at: DefinitionPlace,
    method: &MethodSpec,
) -> Result<(), AllocError>
    requires index { IsIndexOf (package_of pkg) index.now }
    requires size { length links.old.items ≡ suc (length (package_types (package_of pkg))) }
    ensures { OnOk result (AddsLinks links.old.items links.new.items at.rank (IsTargetOfSome (package_of pkg.entry) at.file (signature_types (method_view method.now).params (method_view method.now).result))) }
{
    note_params(alloc, pkg, index, links, at, &method.params)?;
    note_results(alloc, pkg, index, links, at, &method.results)
}

/// Links the targets of the type expressions of methods to the interface that asks for them.
fn note_methods(
    alloc: Global,
    pkg: Package<'_>,
    index: &Index<'_>,
    links: &mut Vec<Vec<usize>>,
    at: DefinitionPlace,
    methods: &[Item<MethodSpec>],
) -> Result<(), AllocError>
    requires index { IsIndexOf (package_of pkg) index.now }
    requires size { length links.old.items ≡ suc (length (package_types (package_of pkg))) }
    ensures { OnOk result (AddsLinks links.old.items links.new.items at.rank (IsTargetOfSome (package_of pkg.entry) at.file (asked_types (list_view method_view methods.now)))) }
{
    for method in methods {
        note_method(alloc, pkg, index, links, at, &method.value)?;
    }
    Ok(())
}

/// Links the targets of a definition's type expressions to the definition.
#[tactic(auto, unfolding(go_ast::specs::FileView::type_spec_view))]
fn note_definition(
    alloc: Global,
    pkg: Package<'_>,
    index: &Index<'_>,
    links: &mut Vec<Vec<usize>>,
    rank: usize,
    definition: &TypeDef<'_>,
) -> Result<(), AllocError>
    requires index { IsIndexOf (package_of pkg) index.now }
    requires size { length links.old.items ≡ suc (length (package_types (package_of pkg))) }
    ensures { OnOk result (AddsLinks links.old.items links.new.items rank (IsTargetOfSome (package_of pkg.entry) definition.now.file (written_types (body_view definition.now.spec.now.body)))) }
{
    let file = definition.file;
    let at = DefinitionPlace { rank, file };
    match &definition.spec.body {
        TypeBody::Type(written) => note_type(alloc, pkg, index, links, at, written),
        TypeBody::Struct { fields, .. } => note_fields(alloc, pkg, index, links, at, fields),
        TypeBody::Interface { methods, .. } => note_methods(alloc, pkg, index, links, at, methods),
    }
}

/// Returns `size + 1` empty rows of links.
pub fn no_links(alloc: Global, size: usize) -> Result<Vec<Vec<usize>>, AllocError>
    ensures size { IfOk result (λ links. length links.items ≡ suc size) }
    ensures none { IfOk result (λ links. (a b : ℕ) → LinksTo links.items a b → ⊥) }
{
    let mut links = Vec::new(alloc);
    for _number in 0..size {
        links.push(Vec::new(alloc))?;
    }
    links.push(Vec::new(alloc))?;
    Ok(links)
}

/// Builds the links from each definition to those that mention it. The last row links to the definitions with a type expression that names
/// no type.
fn mentions(
    alloc: Global,
    pkg: Package<'_>,
    index: &Index<'_>,
) -> Result<Vec<Vec<usize>>, AllocError>
    requires { IsIndexOf (package_of pkg) index.now }
    ensures { IfOk result (λ links. AreMentions (package_of pkg.entry) links.items) }
{
    let types = &index.declared.types;
    let mut links = no_links(alloc, types.len())?;
    for rank in 0..types.len() {
        note_definition(alloc, pkg, index, &mut links, rank, &types[rank])?;
    }
    Ok(links)
}

/// Marks the broken type definitions of a package, by rank. The list has one more entry behind the last rank, which is marked.
pub fn broken_definitions(
    alloc: Global,
    pkg: Package<'_>,
    index: &Index<'_>,
) -> Result<Vec<bool>, AllocError>
    requires { IsIndexOf (package_of pkg) index.now }
    ensures { IfOk result (λ broken. AreBroken (package_of pkg.entry) broken.items) }
{
    let links = mentions(alloc, pkg, index)?;
    let mut begins = vec![in alloc; false; index.declared.types.len()]?;
    begins.push(true)?;
    let broken = reached(alloc, &links, &begins)?;
    Ok(broken)
}
