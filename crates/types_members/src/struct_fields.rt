//! Collects the fields of a package's structs and the methods that its interfaces ask for, in the order of path and offset.
ghost use Rattle.std.specs.Prelude.{◌≡◌, IfOk, OnOk, map};
ghost use Rattle.go_ast.specs.View.{list_view};
ghost use Rattle.go_ast.specs.FileView.{field_view, method_view, body_view};
ghost use Rattle.types_declared.specs.Appending.{Appends};
ghost use Rattle.types_declared.specs.Definitions.{body_fields, fields_from, package_fields};
ghost use Rattle.types_declared.specs.DeclaredView.{type_of};
ghost use Rattle.types_members.specs.FieldsView.{field_of, field_names, asked_method};
ghost use Rattle.types_declared.specs.PackageView.{package_of, IsIndexOf};

use go_ast::tree::{FieldDecl, Item, MethodSpec, TypeBody, TypeExpr, TypeSpec};
use std::alloc::{AllocError, Global};
use types_declared::{Index, Package, TypeDef};

/// What a written member has: a field its type expression, a method that an interface asks for its parameters and results.
#[derive(Clone, Copy)]
pub enum MemberForm<'a> {
    Type(&'a TypeExpr),
    Asked(&'a MethodSpec),
}

/// A written member: the rank of its definition, the rank of its file, the token of its name, and its form. Each name of a field
/// declaration is one, and each method that an interface asks for.
#[derive(Clone, Copy)]
pub struct FieldDef<'a> {
    pub definition: usize,
    pub file: usize,
    pub name: usize,
    pub form: MemberForm<'a>,
}

/// Appends the fields of one field declaration, such as `a, b int`.
#[tactic(auto, unfolding(go_ast::specs::FileView::field_view, crate::specs::FieldsView::placed_form))]
fn add_names<'a>(
    found: &mut Vec<FieldDef<'a>>,
    definition: usize,
    file: usize,
    field: &'a FieldDecl,
) -> Result<(), AllocError>
    ensures { OnOk result (Appends field_of found.old.items found.new.items (field_names definition file (field_view field.now))) }
{
    for name in &field.names {
        found.push(FieldDef {
            definition,
            file,
            name: name.value as usize,
            form: MemberForm::Type(&field.field_type),
        })?;
    }
    Ok(())
}

/// Appends the methods that an interface asks for.
#[tactic(auto, unfolding(go_ast::specs::FileView::method_view, crate::specs::FieldsView::placed_form))]
fn add_asked<'a>(
    found: &mut Vec<FieldDef<'a>>,
    definition: usize,
    file: usize,
    methods: &'a [Item<MethodSpec>],
) -> Result<(), AllocError>
    ensures { OnOk result (Appends field_of found.old.items found.new.items (map (λ i. asked_method definition file i.value) (list_view method_view methods.now))) }
{
    for item in methods {
        found.push(FieldDef {
            definition,
            file,
            name: item.value.name as usize,
            form: MemberForm::Asked(&item.value),
        })?;
    }
    Ok(())
}

/// Appends the members that a type definition writes.
fn add_fields<'a>(
    found: &mut Vec<FieldDef<'a>>,
    definition: usize,
    file: usize,
    spec: &'a TypeSpec,
) -> Result<(), AllocError>
    ensures { OnOk result (Appends field_of found.old.items found.new.items (body_fields definition file (body_view spec.now.body))) }
{
    match &spec.body {
        TypeBody::Type(_) => Ok(()),
        TypeBody::Struct { fields, .. } => {
            for item in fields {
                add_names(found, definition, file, &item.value)?;
            }
            Ok(())
        }
        TypeBody::Interface { methods, .. } => add_asked(found, definition, file, methods),
    }
}

/// Returns the fields of some type definitions.
fn fields_of<'a>(alloc: Global, types: &[TypeDef<'a>]) -> Result<Vec<FieldDef<'a>>, AllocError>
    ensures { IfOk result (λ found. map field_of found.items ≡ fields_from 0 (map type_of types.now)) }
{
    let mut found = Vec::new(alloc);
    for rank in 0..types.len() {
        let definition = types[rank];
        add_fields(&mut found, rank, definition.file, definition.spec)?;
    }
    Ok(found)
}

/// Returns the fields of a package's structs, in the order of path and offset. The rank of a field is its index in the list.
pub fn fields<'a>(
    alloc: Global,
    pkg: Package<'_>,
    index: &Index<'a>,
) -> Result<Vec<FieldDef<'a>>, AllocError>
    requires { IsIndexOf (package_of pkg) index.now }
    ensures { IfOk result (λ found. map field_of found.items ≡ package_fields (package_of pkg.entry)) }
{
    fields_of(alloc, &index.declared.types)
}
