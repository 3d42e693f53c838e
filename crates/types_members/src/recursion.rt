//! Finds the type definitions that contain themselves, by name or in fields, and not under a pointer or slice.
ghost use Rattle.std.specs.Prelude.{◌≡◌, ◌↔◌, ℕ, map, Contains, IfOk, OnOk, MatchOption};
ghost use Rattle.go_ast.specs.View.{type_view, list_view};
ghost use Rattle.go_ast.specs.FileView.{field_view, body_view};
ghost use Rattle.types_declared.specs.Written.{contained_types};
ghost use Rattle.types_members.specs.Recursion.{AddsItems, IsBareName, HasBareName, AreContained, AreRecursive};
ghost use Rattle.types_declared.specs.PackageView.{package_of, IsIndexOf};

use crate::cycles;
use go_ast::tree::{FieldDecl, Item, TypeBody, TypeExpr};
use std::alloc::{AllocError, Global};
use types_declared::{Index, Package, TypeDef, local_definition};

/// The definition that a type expression is an unqualified name of; none where it is another type expression.
fn held_as(pkg: Package<'_>, index: &Index<'_>, file: usize, written: &TypeExpr) -> Option<usize>
    requires { IsIndexOf (package_of pkg) index.now }
    ensures { MatchOption result ((r : ℕ) → IsBareName (package_of pkg.entry) file (type_view written.now) r → ⊥)
        (λ r. IsBareName (package_of pkg.entry) file (type_view written.now) r × ((other : ℕ) → IsBareName (package_of pkg.entry) file (type_view written.now) other → other ≡ r)) }
{
    match written {
        TypeExpr::Local(name) => local_definition(pkg, index, file, *name as usize),
        TypeExpr::Imported { .. } => None,
        TypeExpr::Pointer { .. } => None,
        TypeExpr::Slice { .. } => None,
    }
}

/// Adds the definition that a type expression is an unqualified name of, if any.
fn add_type(
    found: &mut Vec<usize>,
    pkg: Package<'_>,
    index: &Index<'_>,
    file: usize,
    written: &TypeExpr,
) -> Result<(), AllocError>
    requires { IsIndexOf (package_of pkg) index.now }
    ensures { OnOk result (AddsItems found.old.items found.new.items (IsBareName (package_of pkg.entry) file (type_view written.now))) }
{
    match held_as(pkg, index, file, written) {
        None => Ok(()),
        Some(rank) => {
            found.push(rank)?;
            Ok(())
        }
    }
}

/// Adds the definitions that the types of fields are unqualified names of.
fn add_fields(
    found: &mut Vec<usize>,
    pkg: Package<'_>,
    index: &Index<'_>,
    file: usize,
    fields: &[Item<FieldDecl>],
) -> Result<(), AllocError>
    requires { IsIndexOf (package_of pkg) index.now }
    ensures { OnOk result (AddsItems found.old.items found.new.items (HasBareName (package_of pkg.entry) file (map (λ f. f.value.type_use) (list_view field_view fields.now)))) }
{
    for field in fields {
        add_type(found, pkg, index, file, &field.value.field_type)?;
    }
    Ok(())
}

/// Adds the definitions that a definition's body contains directly.
fn add_body(
    found: &mut Vec<usize>,
    pkg: Package<'_>,
    index: &Index<'_>,
    file: usize,
    body: &TypeBody,
) -> Result<(), AllocError>
    requires { IsIndexOf (package_of pkg) index.now }
    ensures { OnOk result (AddsItems found.old.items found.new.items (HasBareName (package_of pkg.entry) file (contained_types (body_view body.now)))) }
{
    match body {
        TypeBody::Type(written) => add_type(found, pkg, index, file, written),
        TypeBody::Struct { fields, .. } => add_fields(found, pkg, index, file, fields),
        TypeBody::Interface { .. } => Ok(()),
    }
}

/// Returns the definitions that a definition contains directly.
#[tactic(auto, unfolding(go_ast::specs::FileView::type_spec_view))]
fn held_by(
    alloc: Global,
    pkg: Package<'_>,
    index: &Index<'_>,
    definition: TypeDef<'_>,
) -> Result<Vec<usize>, AllocError>
    requires { IsIndexOf (package_of pkg) index.now }
    ensures { IfOk result (λ found. (r : ℕ) → Contains found.items r ↔ HasBareName (package_of pkg.entry) definition.entry.file (contained_types (body_view definition.entry.spec.now.body)) r) }
{
    let mut found = Vec::new(alloc);
    add_body(
        &mut found,
        pkg,
        index,
        definition.file,
        &definition.spec.body,
    )?;
    Ok(found)
}

/// Returns the links from each definition to those that it contains directly.
fn held(alloc: Global, pkg: Package<'_>, index: &Index<'_>) -> Result<Vec<Vec<usize>>, AllocError>
    requires { IsIndexOf (package_of pkg) index.now }
    ensures { IfOk result (λ links. AreContained (package_of pkg.entry) links.items) }
{
    let types = &index.declared.types;
    let mut links = Vec::new(alloc);
    for rank in 0..types.len() {
        let definition = types[rank];
        links.push(held_by(alloc, pkg, index, definition)?)?;
    }
    Ok(links)
}

/// Marks the type definitions of a package that contain themselves, by rank.
pub fn recursive_definitions(
    alloc: Global,
    pkg: Package<'_>,
    index: &Index<'_>,
) -> Result<Vec<bool>, AllocError>
    requires { IsIndexOf (package_of pkg) index.now }
    ensures { IfOk result (λ marks. AreRecursive (package_of pkg.entry) marks.items) }
{
    let links = held(alloc, pkg, index)?;
    let marks = cycles(alloc, &links)?;
    Ok(marks)
}
