//! Collects the identifiers of a file's imports and top-level declarations.
ghost use Rattle.std.specs.Prelude.{◌≡◌, OnOk};
ghost use Rattle.go_scope.specs.ExpressionSites.{sites_if, list_sites};
ghost use Rattle.go_scope.specs.FileSites.{global_name, member_name, spec_sites, global_sites, field_sites, method_sites, body_sites, type_spec_sites, receiver_sites, param_sites, result_sites, func_role, func_sites, import_name, import_purpose, import_sites, imports_sites, decl_sites, file_sites};
ghost use Rattle.go_scope.specs.IdentifierViews.{as_source, AddsTo};
ghost use Rattle.go_ast.specs.View.{option_view, list_view, group_view};
ghost use Rattle.go_ast.specs.FileView.{same_index, global_view, field_view, method_view, body_view, type_spec_view, receiver_view, param_view, results_view, func_view, import_view, imports_view, decl_view, file_view};

use crate::expressions::add_type;
use crate::model::{Block, Identifier, Purpose, Role};
use crate::simple::{add_ident, add_idents};
use crate::source::RankedFile;
use crate::statements::add_block;
use go_ast::tree::{
    Decl, FieldDecl, File, FuncDecl, Group, ImportDecl, ImportSpec, Item, MethodSpec, Param,
    Receiver, Results, TypeBody, TypeSpec, VarSpec,
};
use std::alloc::AllocError;

/// Adds names that the package block declares.
fn add_globals<'a>(
    source: &RankedFile<'a>,
    found: &mut Vec<Identifier<'a>>,
    names: &[Item<u32>],
) -> Result<(), AllocError>
    ensures { OnOk result (AddsTo found.old.items found.new.items (list_sites (global_name (as_source source.now)) (list_view same_index names.now))) }
{
    for item in names {
        source.add(found, item.value, Role::Declaring(Block::Package, 0))?;
    }
    Ok(())
}

/// Adds the names of fields.
fn add_members<'a>(
    source: &RankedFile<'a>,
    found: &mut Vec<Identifier<'a>>,
    names: &[Item<u32>],
) -> Result<(), AllocError>
    ensures { OnOk result (AddsTo found.old.items found.new.items (list_sites (member_name (as_source source.now)) (list_view same_index names.now))) }
{
    for item in names {
        source.add(found, item.value, Role::NotLexical(Purpose::Member))?;
    }
    Ok(())
}

/// Adds the identifiers of package-level variables of one type.
fn add_var_spec<'a>(
    source: &RankedFile<'a>,
    found: &mut Vec<Identifier<'a>>,
    spec: &VarSpec,
) -> Result<(), AllocError>
    ensures { OnOk result (AddsTo found.old.items found.new.items (global_sites (as_source source.now) (global_view spec.now))) }
{
    add_globals(source, found, &spec.names)?;
    add_type(source, found, &spec.var_type)
}

/// Adds the identifiers of fields of one type.
fn add_field<'a>(
    source: &RankedFile<'a>,
    found: &mut Vec<Identifier<'a>>,
    field: &FieldDecl,
) -> Result<(), AllocError>
    ensures { OnOk result (AddsTo found.old.items found.new.items (field_sites (as_source source.now) (field_view field.now))) }
{
    add_members(source, found, &field.names)?;
    add_type(source, found, &field.field_type)
}

/// Adds the identifiers of the right side of a type definition.
fn add_body<'a>(
    source: &RankedFile<'a>,
    found: &mut Vec<Identifier<'a>>,
    body: &TypeBody,
) -> Result<(), AllocError>
    ensures { OnOk result (AddsTo found.old.items found.new.items (body_sites (as_source source.now) (body_view body.now))) }
{
    match body {
        TypeBody::Type(type_expr) => add_type(source, found, type_expr),
        TypeBody::Struct { fields, .. } => {
            for item in fields {
                add_field(source, found, &item.value)?;
            }
            Ok(())
        }
        TypeBody::Interface { methods, .. } => add_methods(source, found, methods),
    }
}

/// Adds the identifiers of methods that an interface asks for.
fn add_methods<'a>(
    source: &RankedFile<'a>,
    found: &mut Vec<Identifier<'a>>,
    methods: &[Item<MethodSpec>],
) -> Result<(), AllocError>
    ensures { OnOk result (AddsTo found.old.items found.new.items (list_sites (method_sites (as_source source.now)) (list_view method_view methods.now))) }
{
    for item in methods {
        add_method(source, found, &item.value)?;
    }
    Ok(())
}

/// Adds the identifiers of a method that an interface asks for. The scopes of its parameters are empty: each begins where the block of the
/// parameters ends.
fn add_method<'a>(
    source: &RankedFile<'a>,
    found: &mut Vec<Identifier<'a>>,
    method: &MethodSpec,
) -> Result<(), AllocError>
    ensures { OnOk result (AddsTo found.old.items found.new.items (method_sites (as_source source.now) (method_view method.now))) }
{
    let block = Block::Inner(source.rank, method.open as usize, method.close as usize);
    source.add(found, method.name, Role::NotLexical(Purpose::Member))?;
    add_params(source, found, block, method.close as usize, &method.params)?;
    add_results(source, found, &method.results)
}

/// Adds the identifiers of a type definition.
fn add_type_spec<'a>(
    source: &RankedFile<'a>,
    found: &mut Vec<Identifier<'a>>,
    spec: &TypeSpec,
) -> Result<(), AllocError>
    ensures { OnOk result (AddsTo found.old.items found.new.items (type_spec_sites (as_source source.now) (type_spec_view spec.now))) }
{
    source.add(found, spec.name, Role::Declaring(Block::Package, 0))?;
    add_body(source, found, &spec.body)
}

/// Adds the identifiers of a receiver. It is declared in the block of the body, with a scope from its opening brace.
fn add_receiver<'a>(
    source: &RankedFile<'a>,
    found: &mut Vec<Identifier<'a>>,
    block: Block,
    start: usize,
    receiver: &Option<Receiver>,
) -> Result<(), AllocError>
    ensures { OnOk result (AddsTo found.old.items found.new.items (sites_if (receiver_sites (as_source source.now) block start) (option_view receiver_view receiver.now))) }
{
    match receiver {
        None => Ok(()),
        Some(part) => {
            add_ident(source, found, Role::Declaring(block, start), &part.ident)?;
            source.add(found, part.type_name, Role::Use)
        }
    }
}

/// Adds the identifiers of parameters of one type.
fn add_param<'a>(
    source: &RankedFile<'a>,
    found: &mut Vec<Identifier<'a>>,
    block: Block,
    start: usize,
    param: &Param,
) -> Result<(), AllocError>
    ensures { OnOk result (AddsTo found.old.items found.new.items (param_sites (as_source source.now) block start (param_view param.now))) }
{
    add_idents(source, found, Role::Declaring(block, start), &param.names)?;
    add_type(source, found, &param.param_type)
}

/// Adds the identifiers of parameters. They are declared in the block, with scopes from the token `start`.
fn add_params<'a>(
    source: &RankedFile<'a>,
    found: &mut Vec<Identifier<'a>>,
    block: Block,
    start: usize,
    params: &[Item<Param>],
) -> Result<(), AllocError>
    ensures { OnOk result (AddsTo found.old.items found.new.items (list_sites (param_sites (as_source source.now) block start) (list_view param_view params.now))) }
{
    for item in params {
        add_param(source, found, block, start, &item.value)?;
    }
    Ok(())
}

/// Adds the identifiers of results.
fn add_results<'a>(
    source: &RankedFile<'a>,
    found: &mut Vec<Identifier<'a>>,
    results: &Results,
) -> Result<(), AllocError>
    ensures { OnOk result (AddsTo found.old.items found.new.items (result_sites (as_source source.now) (results_view results.now))) }
{
    match results {
        Results::None => Ok(()),
        Results::Single(type_expr) => add_type(source, found, type_expr),
        Results::Several { types, .. } => {
            for item in types {
                add_type(source, found, &item.value)?;
            }
            Ok(())
        }
    }
}

/// The role of a function's name: a method is a member, `init` is declared in no block, any other function in the package block.
fn function_role(source: &RankedFile<'_>, func: &FuncDecl) -> Role
    ensures { result ≡ func_role (option_view receiver_view func.now.receiver) ((as_source source.now).spell func.now.name) }
{
    match &func.receiver {
        Some(_) => Role::NotLexical(Purpose::Member),
        None if source.spelling(func.name as usize) == b"init".as_slice() => {
            Role::NotLexical(Purpose::InitFunction)
        }
        None => Role::Declaring(Block::Package, 0),
    }
}

/// Adds the identifiers of a function or method.
fn add_func<'a>(
    source: &RankedFile<'a>,
    found: &mut Vec<Identifier<'a>>,
    func: &FuncDecl,
) -> Result<(), AllocError>
    ensures { OnOk result (AddsTo found.old.items found.new.items (func_sites (as_source source.now) (func_view func.now))) }
{
    let start = func.body.open as usize;
    let block = Block::Inner(source.rank, start, func.body.close as usize);
    add_receiver(source, found, block, start, &func.receiver)?;
    source.add(found, func.name, function_role(source, func))?;
    add_params(source, found, block, start, &func.params)?;
    add_results(source, found, &func.results)?;
    add_block(source, found, &func.body)
}

/// Adds the name of an import, if it has one.
fn add_import_name<'a>(
    source: &RankedFile<'a>,
    found: &mut Vec<Identifier<'a>>,
    name: Option<u32>,
) -> Result<(), AllocError>
    ensures { OnOk result (AddsTo found.old.items found.new.items (import_name (as_source source.now) name)) }
{
    match name {
        None => Ok(()),
        Some(token) => source.add(found, token, Role::Declaring(Block::File(source.rank), 0)),
    }
}

/// The purpose of an import's string literal, by whether the import has a name.
fn import_purpose(name: Option<u32>) -> Purpose
    ensures { result ≡ import_purpose name }
{
    match name {
        None => Purpose::UnnamedImport,
        Some(_) => Purpose::ImportPath,
    }
}

/// Adds the identifiers of an import spec: its name, if it has one, and its string literal.
fn add_import_spec<'a>(
    source: &RankedFile<'a>,
    found: &mut Vec<Identifier<'a>>,
    spec: &ImportSpec,
) -> Result<(), AllocError>
    ensures { OnOk result (AddsTo found.old.items found.new.items (import_sites (as_source source.now) (import_view spec.now))) }
{
    add_import_name(source, found, spec.name)?;
    let role = Role::NotLexical(import_purpose(spec.name));
    source.add(found, spec.path, role)
}

/// Adds the identifiers of an import declaration.
fn add_imports<'a>(
    source: &RankedFile<'a>,
    found: &mut Vec<Identifier<'a>>,
    decl: &ImportDecl,
) -> Result<(), AllocError>
    ensures { OnOk result (AddsTo found.old.items found.new.items (imports_sites (as_source source.now) (imports_view decl.now))) }
{
    match &decl.group {
        Group::Single(spec) => add_import_spec(source, found, spec),
        Group::Several { items, .. } => {
            for item in items {
                add_import_spec(source, found, &item.value)?;
            }
            Ok(())
        }
    }
}

/// Adds the identifiers of a declaration of package-level variables.
fn add_var_specs<'a>(
    source: &RankedFile<'a>,
    found: &mut Vec<Identifier<'a>>,
    group: &Group<VarSpec>,
) -> Result<(), AllocError>
    ensures { OnOk result (AddsTo found.old.items found.new.items (spec_sites (global_sites (as_source source.now)) (group_view global_view group.now))) }
{
    match group {
        Group::Single(spec) => add_var_spec(source, found, spec),
        Group::Several { items, .. } => {
            for item in items {
                add_var_spec(source, found, &item.value)?;
            }
            Ok(())
        }
    }
}

/// Adds the identifiers of a declaration of types.
fn add_type_specs<'a>(
    source: &RankedFile<'a>,
    found: &mut Vec<Identifier<'a>>,
    group: &Group<TypeSpec>,
) -> Result<(), AllocError>
    ensures { OnOk result (AddsTo found.old.items found.new.items (spec_sites (type_spec_sites (as_source source.now)) (group_view type_spec_view group.now))) }
{
    match group {
        Group::Single(spec) => add_type_spec(source, found, spec),
        Group::Several { items, .. } => {
            for item in items {
                add_type_spec(source, found, &item.value)?;
            }
            Ok(())
        }
    }
}

/// Adds the identifiers of a top-level declaration.
fn add_decl<'a>(
    source: &RankedFile<'a>,
    found: &mut Vec<Identifier<'a>>,
    decl: &Decl,
) -> Result<(), AllocError>
    ensures { OnOk result (AddsTo found.old.items found.new.items (decl_sites (as_source source.now) (decl_view decl.now))) }
{
    match decl {
        Decl::Var { group, .. } => add_var_specs(source, found, group),
        Decl::Type { group, .. } => add_type_specs(source, found, group),
        Decl::Func { func, .. } => add_func(source, found, func),
    }
}

/// Adds the identifiers of a file.
pub(crate) fn add_file<'a>(
    source: &RankedFile<'a>,
    found: &mut Vec<Identifier<'a>>,
    file: &File,
) -> Result<(), AllocError>
    ensures { OnOk result (AddsTo found.old.items found.new.items (file_sites (as_source source.now) (file_view file.now))) }
{
    source.add(found, file.name, Role::NotLexical(Purpose::PackageClause))?;
    for import in &file.imports {
        add_imports(source, found, import)?;
    }
    for decl in &file.decls {
        add_decl(source, found, decl)?;
    }
    Ok(())
}
