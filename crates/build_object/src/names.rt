//! Makes the names of packages' declarations in objects from their files.
ghost use Rattle.std.specs.Prelude.{◌≡◌, ◌<◌, ◌≤◌, ◌+◌, ◌-◌, ◌^◌, ◌++◌, length, map, IfOk, OnOk};
ghost use Rattle.std.specs.List.{flat_map};
ghost use Rattle.go_ast.specs.View.{list_view};
ghost use Rattle.go_ast.specs.FileView.{body_view, field_view, method_view};
ghost use Rattle.go_ast.specs.SourceFile.{source_of};
ghost use Rattle.types_declared.specs.DeclaredView.{type_of, function_of as placed_function};
ghost use Rattle.build_object.specs.Lines.{Method};
ghost use Rattle.build_object.specs.LineView.{global_of, function_of};
ghost use Rattle.build_object.specs.SourceView.{asked_of};
ghost use Rattle.build_object.specs.Names.{asked_by_body, asked_if, asked_names_of, body_positions, function_behind, function_called, functions_behind, initializers_among, initializers_with, is_initializer, names_of_fields, positions_from, spelled_in, name_of_type, type_positions};
ghost use Rattle.build_object.specs.NamesView.{AreTablesOf};

use crate::instructions::{FunctionName, GlobalName};
use crate::packages::DeclaredTables;
use crate::source::NamedMethod;
use go_ast::FileTree;
use go_ast::tree::{FieldDecl, Item, MethodSpec, TypeBody};
use std::alloc::{AllocError, Global};
use types_declared::{Declared, Function, TypeDef};

/// The spelling of a token, by the rank of its file.
fn spelling(files: &[FileTree], file: usize, token: usize) -> &[u8]
    ensures { result.now ≡ spelled_in (map source_of files.now) file token }
{
    match files.get(file) {
        None => &[],
        Some(tree) => tree.spelling(token),
    }
}

/// The name of a type definition in objects.
#[tactic(auto, unfolding(go_ast::specs::FileView::type_spec_view))]
pub(crate) fn name_of_type<'a>(
    path: &'a [u8],
    files: &'a [FileTree],
    own: TypeDef<'_>,
) -> GlobalName<'a>
    ensures { global_of result ≡ name_of_type path.now (map source_of files.now) (type_of own.entry) }
{
    GlobalName {
        path,
        name: spelling(files, own.file, own.spec.name as usize),
    }
}

/// Whether a function is a function `init`.
#[tactic(auto, unfolding(go_ast::specs::FileView::func_view))]
pub(crate) fn is_initializer(files: &[FileTree], function: Function<'_>) -> bool
    ensures { result ≡ is_initializer (map source_of files.now) (placed_function function.entry) }
{
    match &function.func.receiver {
        None => spelling(files, function.file, function.func.name as usize) == b"init".as_slice(),
        Some(_) => false,
    }
}

/// The name in objects of a function that is no `init`.
#[tactic(auto, unfolding(go_ast::specs::FileView::func_view, go_ast::specs::FileView::receiver_view, crate::specs::LineView::function_of))]
pub(crate) fn function_called<'a>(
    path: &'a [u8],
    files: &'a [FileTree],
    function: Function<'_>,
) -> FunctionName<'a>
    ensures { function_of result ≡ function_called path.now (map source_of files.now) (placed_function function.entry) }
{
    let name = spelling(files, function.file, function.func.name as usize);
    match &function.func.receiver {
        None => FunctionName::Plain(GlobalName { path, name }),
        Some(receiver) => FunctionName::Method {
            receiver: GlobalName {
                path,
                name: spelling(files, function.file, receiver.type_name as usize),
            },
            name,
        },
    }
}

/// The name of a function in objects, where `number` functions `init` stand before it.
#[tactic(auto, unfolding(crate::specs::LineView::function_of))]
fn function_behind<'a>(
    path: &'a [u8],
    files: &'a [FileTree],
    number: usize,
    function: Function<'_>,
) -> FunctionName<'a>
    ensures { function_of result ≡ function_behind path.now (map source_of files.now) number (placed_function function.entry) }
{
    if is_initializer(files, function) {
        FunctionName::Initializer { path, number }
    } else {
        function_called(path, files, function)
    }
}

/// The number of functions `init` up to this function, where `number` stand before it.
pub(crate) fn initializers_with(files: &[FileTree], number: usize, function: Function<'_>) -> usize
    requires { number + 1 < 2 ^ 64 }
    ensures counted { result ≡ initializers_with (map source_of files.now) number (placed_function function.entry) }
    ensures bounded { result ≤ number + 1 }
{
    if is_initializer(files, function) {
        number + 1
    } else {
        number
    }
}

/// The number of functions `init` among these functions.
pub(crate) fn initializers(files: &[FileTree], functions: &[Function<'_>]) -> usize
    ensures { result ≡ initializers_among (map source_of files.now) 0 (map placed_function functions.now) }
{
    let mut number = 0;
    for i in 0..functions.len() {
        number = initializers_with(files, number, functions[i]);
    }
    number
}

/// The names of a package's functions in objects.
pub fn function_names<'a>(
    alloc: Global,
    path: &'a [u8],
    files: &'a [FileTree],
    functions: &[Function<'_>],
) -> Result<Vec<FunctionName<'a>>, AllocError>
    ensures { IfOk result (λ names. map function_of names.items ≡ functions_behind path.now (map source_of files.now) 0 (map placed_function functions.now)) }
{
    let mut names = Vec::new(alloc);
    let mut initializers = 0;
    for i in 0..functions.len() {
        let function = functions[i];
        names.push(function_behind(path, files, initializers, function))?;
        initializers = initializers_with(files, initializers, function);
    }
    Ok(names)
}

/// Adds the positions of the fields of one field declaration. The positions of the struct begin at `begin` in the list.
fn add_field(positions: &mut Vec<usize>, begin: usize, field: &FieldDecl) -> Result<(), AllocError>
    requires { begin ≤ length positions.old.items }
    ensures { OnOk result (positions.new.items ≡ positions.old.items ++ positions_from (length positions.old.items - begin) (field_view field.now).names) }
{
    for _name in &field.names {
        let position = positions.len() - begin;
        positions.push(position)?;
    }
    Ok(())
}

/// Adds the positions of the fields of a struct.
fn add_fields(positions: &mut Vec<usize>, fields: &[Item<FieldDecl>]) -> Result<(), AllocError>
    ensures { OnOk result (positions.new.items ≡ positions.old.items ++ positions_from 0 (names_of_fields (list_view field_view fields.now))) }
{
    let begin = positions.len();
    for field in fields {
        add_field(positions, begin, &field.value)?;
    }
    Ok(())
}

/// Adds the positions of the methods that an interface asks for.
fn add_asked(positions: &mut Vec<usize>, methods: &[Item<MethodSpec>]) -> Result<(), AllocError>
    ensures { OnOk result (positions.new.items ≡ positions.old.items ++ positions_from 0 (list_view method_view methods.now)) }
{
    let begin = positions.len();
    for _method in methods {
        let number = positions.len() - begin;
        positions.push(number)?;
    }
    Ok(())
}

/// Adds the positions of the members that a type definition's body writes.
#[tactic(auto, unfolding(go_ast::specs::FileView::body_view))]
fn add_body(positions: &mut Vec<usize>, body: &TypeBody) -> Result<(), AllocError>
    ensures { OnOk result (positions.new.items ≡ positions.old.items ++ body_positions (body_view body.now)) }
{
    match body {
        TypeBody::Type(_) => Ok(()),
        TypeBody::Struct { fields, .. } => add_fields(positions, fields),
        TypeBody::Interface { methods, .. } => add_asked(positions, methods),
    }
}

/// The positions of all written members of a package, by their ranks.
#[tactic(auto, unfolding(go_ast::specs::FileView::type_spec_view))]
fn field_positions(alloc: Global, types: &[TypeDef<'_>]) -> Result<Vec<usize>, AllocError>
    ensures { IfOk result (λ positions. positions.items ≡ flat_map type_positions (map type_of types.now)) }
{
    let mut positions = Vec::new(alloc);
    for own in types {
        add_body(&mut positions, &own.spec.body)?;
    }
    Ok(positions)
}

/// The name in objects of a method that the interface `of` of a file asks for.
#[tactic(auto, unfolding(crate::specs::LineView::function_of))]
pub(crate) fn asked_name<'a>(
    files: &'a [FileTree],
    of: GlobalName<'a>,
    file: usize,
    method: &MethodSpec,
) -> FunctionName<'a>
    ensures { function_of result ≡ Method (global_of of.entry) (spelled_in (map source_of files.now) file method.now.name) }
{
    FunctionName::Method {
        receiver: of,
        name: spelling(files, file, method.name as usize),
    }
}

/// Adds the methods that the interface `of` of a file asks for.
fn add_asked_names<'a>(
    asked: &mut Vec<NamedMethod<'a>>,
    files: &'a [FileTree],
    of: GlobalName<'a>,
    file: usize,
    methods: &[Item<MethodSpec>],
) -> Result<(), AllocError>
    ensures { OnOk result (map asked_of asked.new.items ≡ map asked_of asked.old.items ++ asked_names_of (global_of of.entry) (map source_of files.now) file (list_view method_view methods.now)) }
{
    for method in methods {
        let name = asked_name(files, of, file, &method.value);
        let place = method.value.name as usize;
        asked.push(NamedMethod { place, name })?;
    }
    Ok(())
}

/// Adds the methods that a type definition asks for.
#[tactic(auto, unfolding(go_ast::specs::FileView::body_view, go_ast::specs::FileView::type_spec_view))]
fn add_asked_by<'a>(
    asked: &mut Vec<NamedMethod<'a>>,
    path: &'a [u8],
    files: &'a [FileTree],
    own: TypeDef<'_>,
) -> Result<(), AllocError>
    ensures { OnOk result (map asked_of asked.new.items ≡ map asked_of asked.old.items ++ asked_by_body path.now (map source_of files.now) (type_of own.entry) (type_of own.entry).spec.body) }
{
    match &own.spec.body {
        TypeBody::Type(_) | TypeBody::Struct { .. } => Ok(()),
        TypeBody::Interface { methods, .. } => {
            let of = name_of_type(path, files, own);
            add_asked_names(asked, files, of, own.file, methods)
        }
    }
}

/// Adds the methods that a type definition asks for, if it stands in the file.
fn add_asked_if<'a>(
    asked: &mut Vec<NamedMethod<'a>>,
    path: &'a [u8],
    files: &'a [FileTree],
    file: usize,
    own: TypeDef<'_>,
) -> Result<(), AllocError>
    ensures { OnOk result (map asked_of asked.new.items ≡ map asked_of asked.old.items ++ asked_if path.now (map source_of files.now) file (type_of own.entry)) }
{
    if own.file == file {
        add_asked_by(asked, path, files, own)
    } else {
        Ok(())
    }
}

/// The methods that the interfaces of a file ask for.
pub fn asked_in_file<'a>(
    alloc: Global,
    path: &'a [u8],
    files: &'a [FileTree],
    types: &[TypeDef<'_>],
    file: usize,
) -> Result<Vec<NamedMethod<'a>>, AllocError>
    ensures { IfOk result (λ asked. map asked_of asked.items ≡ flat_map (asked_if path.now (map source_of files.now) file) (map type_of types.now)) }
{
    let mut asked = Vec::new(alloc);
    for own in types {
        add_asked_if(&mut asked, path, files, file, *own)?;
    }
    Ok(asked)
}

impl<'a> DeclaredTables<'a> {
    /// Makes the tables of a package's declarations. The files are in the order of their paths.
    pub fn of(alloc: Global, files: &'a [FileTree]) -> Result<DeclaredTables<'a>, AllocError>
        ensures { IfOk result (AreTablesOf (map source_of files.now)) }
    {
        let declared = Declared::of(alloc, files)?;
        let positions = field_positions(alloc, &declared.types)?;
        Ok(DeclaredTables {
            declared,
            positions,
        })
    }
}
