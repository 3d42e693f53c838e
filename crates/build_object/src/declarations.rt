//! Prints the declarations of files.
ghost use Rattle.std.specs.Prelude.{◌≡◌, ◌≤◌, ◌++◌, ◌∷◌, [], Some, drop, length, map, option_map, slice_get, IfOk, OnOk};
ghost use Rattle.std.specs.List.{flat_map};
ghost use Rattle.go_ast.specs.View.{list_view, option_view, group_view};
ghost use Rattle.go_ast.specs.FileView.{same_index, basic_view, body_view, decl_view, field_view, func_view, global_view, method_view, type_spec_view, var_values_view};
ghost use Rattle.types_declared.specs.Files.{group_items};
ghost use Rattle.types_expr.specs.View.{type_of};
ghost use Rattle.types_expr.specs.WorldView.{world_of};
ghost use Rattle.build_object.specs.LineView.{global_of, function_of, lines_in};
ghost use Rattle.build_object.specs.Slots.{slots_of};
ghost use Rattle.build_object.specs.SourceView.{source_of};
ghost use Rattle.build_object.specs.PackagesView.{type_in};
ghost use Rattle.build_object.specs.Objects.{TypeOf, Variable, FunctionOf, asked_methods, declared_by, declared_function, declared_in, declared_type, global_variables, type_declarations, definition_of, field_types, initials_of, literals_of, names_behind, names_behind_all, object_asked, others_of, known_variable, variable_declarations, written};
ghost use Rattle.build_object.specs.Objects as object;
ghost use Rattle.build_object.specs.Text.{code_text, ended};
ghost use Rattle.build_object.specs.ObjectText.{asked_behind, asked_joined, asked_text, counts_text, declaration_text, definition_text, header_text, initial_text, signature_text};
ghost use Rattle.build_object.specs.DeclarationsView.{asked_view, initial_view, definition_view, literal_value_at, IsSignature};

use crate::code::Code;
use crate::functions::{add_params, add_results, add_written, body, parameters, results};
use crate::instructions::{FunctionName, GlobalName};
use crate::packages::ObjectNames;
use crate::printing::{
    push_enclosed, push_lines, push_numbered, push_type, push_type_list, push_types, push_word,
    push_word_bytes, push_word_function, push_word_global, push_word_integer, push_word_type,
};
use crate::scope::SlotScope;
use crate::slots::slots;
use crate::source::Source;
use crate::types::written_type;
use go_ast::tree::{
    BasicLit, Decl, FieldDecl, FuncDecl, Group, Item, MethodSpec, TypeBody, TypeSpec, VarSpec,
    VarValues,
};
use std::alloc::{AllocError, Global};
use types_expr::types::GoType;
use types_expr::world::World;

/// The first value of a variable.
#[derive(Clone, Copy)]
pub enum Initial<'a> {
    Integer(u64),
    Text(&'a [u8]),
}

/// A method that an interface asks for.
#[derive(Drop)]
pub struct AskedLine<'a> {
    pub name: FunctionName<'a>,
    pub parameters: Vec<GoType>,
    pub results: Vec<GoType>,
}

/// What a type is defined as: another type, a struct with fields of these types, or an interface that asks for these methods.
#[derive(Drop)]
pub enum DefinitionLine<'a> {
    SameAs(GoType),
    Fields(Vec<GoType>),
    Asks(Vec<AskedLine<'a>>),
}

/// The header of a function, without its number of lines.
#[derive(Drop)]
pub struct FunctionSignature<'a> {
    pub name: FunctionName<'a>,
    pub parameters: Vec<GoType>,
    pub results: Vec<GoType>,
    pub slots: usize,
}

/// Adds the type of a field declaration, once for each of its names.
#[tactic(auto, unfolding(go_ast::specs::FileView::field_view))]
fn add_field(
    alloc: Global,
    world: &World<'_>,
    types: &mut Vec<GoType>,
    field: &FieldDecl,
) -> Result<(), AllocError>
    ensures { OnOk result (map type_of types.new.items ≡ map type_of types.old.items ++ flat_map (λ n. written (world_of world.now) (field_view field.now).type_use) (field_view field.now).names) }
{
    for _name in &field.names {
        add_written(alloc, world, types, &field.field_type)?;
    }
    Ok(())
}

/// The types of the fields of a struct.
fn field_types(
    alloc: Global,
    world: &World<'_>,
    fields: &[Item<FieldDecl>],
) -> Result<Vec<GoType>, AllocError>
    ensures { IfOk result (λ types. map type_of types.items ≡ field_types (world_of world.now) (list_view field_view fields.now)) }
{
    let mut types = Vec::new(alloc);
    for field in fields {
        add_field(alloc, world, &mut types, &field.value)?;
    }
    Ok(types)
}

/// What an interface asks for by a method with this name in objects.
#[tactic(auto, unfolding(go_ast::specs::FileView::method_view))]
fn asked_line<'a>(
    alloc: Global,
    world: &World<'_>,
    name: FunctionName<'a>,
    method: &MethodSpec,
) -> Result<AskedLine<'a>, AllocError>
    ensures { IfOk result (λ line. asked_view line ∷ [] ≡ object_asked (world_of world.now) (method_view method.now) (Some (function_of name.entry))) }
{
    let mut parameters = Vec::new(alloc);
    add_params(alloc, world, &mut parameters, &method.params)?;
    let mut results = Vec::new(alloc);
    add_results(alloc, world, &mut results, &method.results)?;
    Ok(AskedLine {
        name,
        parameters,
        results,
    })
}

/// Adds what an interface asks for by a method, if its name in objects is known.
#[tactic(auto, unfolding(go_ast::specs::FileView::method_view))]
fn add_asked<'a>(
    alloc: Global,
    source: &Source<'a>,
    lines: &mut Vec<AskedLine<'a>>,
    method: &MethodSpec,
) -> Result<(), AllocError>
    ensures { OnOk result (map asked_view lines.new.items ≡ map asked_view lines.old.items ++ object_asked (world_of source.now.world) (method_view method.now) ((source_of source.now).asks (method_view method.now).name)) }
{
    let Some(name) = source.asks(method.name as usize) else {
        return Ok(());
    };
    let line = asked_line(alloc, &source.world, name, method)?;
    lines.push(line)?;
    Ok(())
}

/// The methods that an interface asks for.
fn asked_lines<'a>(
    alloc: Global,
    source: &Source<'a>,
    methods: &[Item<MethodSpec>],
) -> Result<Vec<AskedLine<'a>>, AllocError>
    ensures { IfOk result (λ lines. map asked_view lines.items ≡ asked_methods (world_of source.now.world) (source_of source.now).asks (list_view method_view methods.now)) }
{
    let mut lines = Vec::new(alloc);
    for method in methods {
        add_asked(alloc, source, &mut lines, &method.value)?;
    }
    Ok(lines)
}

/// What a type is defined as, if that is known.
#[tactic(auto, unfolding(go_ast::specs::FileView::body_view, crate::specs::Objects::definition_of, crate::specs::DeclarationsView::definition_view))]
fn defined_as<'a>(
    alloc: Global,
    source: &Source<'a>,
    body: &TypeBody,
) -> Result<Option<DefinitionLine<'a>>, AllocError>
    ensures { IfOk result (λ d. option_map definition_view d ≡ definition_of (world_of source.now.world) (source_of source.now).asks (body_view body.now)) }
{
    match body {
        TypeBody::Type(written) => match written_type(alloc, &source.world, written)? {
            None => Ok(None),
            Some(own) => Ok(Some(DefinitionLine::SameAs(own))),
        },
        TypeBody::Struct { fields, .. } => {
            let types = field_types(alloc, &source.world, fields)?;
            Ok(Some(DefinitionLine::Fields(types)))
        }
        TypeBody::Interface { methods, .. } => {
            let lines = asked_lines(alloc, source, methods)?;
            Ok(Some(DefinitionLine::Asks(lines)))
        }
    }
}

/// Prints a method that an interface asks for.
fn push_asked(
    text: &mut Vec<u8>,
    packages: &ObjectNames<'_>,
    word: &[u8],
    line: &AskedLine<'_>,
) -> Result<(), AllocError>
    ensures { OnOk result (text.new.items ≡ text.old.items ++ (word.now ++ asked_text (type_in packages.now) (asked_view line.now))) }
{
    push_word_function(text, word, line.name)?;
    push_enclosed(text, packages, &line.parameters)?;
    push_enclosed(text, packages, &line.results)
}

/// Prints methods that an interface asks for, each behind a separator.
fn push_asked_behind(
    text: &mut Vec<u8>,
    packages: &ObjectNames<'_>,
    lines: &[AskedLine<'_>],
) -> Result<(), AllocError>
    ensures { OnOk result (text.new.items ≡ text.old.items ++ flat_map (asked_behind (type_in packages.now)) (map asked_view lines.now)) }
{
    for line in lines {
        push_asked(text, packages, b";", line)?;
    }
    Ok(())
}

/// Prints the methods that an interface asks for, with a separator between them.
fn push_all_asked(
    text: &mut Vec<u8>,
    packages: &ObjectNames<'_>,
    lines: &[AskedLine<'_>],
) -> Result<(), AllocError>
    ensures { OnOk result (text.new.items ≡ text.old.items ++ asked_joined (type_in packages.now) (map asked_view lines.now)) }
{
    let [first, others @ ..] = lines else {
        return Ok(());
    };
    push_asked(text, packages, b"", first)?;
    push_asked_behind(text, packages, others)
}

/// Prints what a type is defined as.
#[tactic(auto, unfolding(crate::specs::DeclarationsView::definition_view))]
fn push_definition(
    text: &mut Vec<u8>,
    packages: &ObjectNames<'_>,
    definition: &DefinitionLine<'_>,
) -> Result<(), AllocError>
    ensures { OnOk result (text.new.items ≡ text.old.items ++ definition_text (type_in packages.now) (definition_view definition.now)) }
{
    match definition {
        DefinitionLine::SameAs(own) => push_type(text, packages, own),
        DefinitionLine::Fields(types) => {
            push_word(text, b"struct{")?;
            push_types(text, packages, b";", types)?;
            push_word(text, b"}")
        }
        DefinitionLine::Asks(lines) => {
            push_word(text, b"interface{")?;
            push_all_asked(text, packages, lines)?;
            push_word(text, b"}")
        }
    }
}

/// Prints the line of a type definition.
#[tactic(auto, unfolding(crate::specs::ObjectText::declaration_text))]
fn push_type_line(
    text: &mut Vec<u8>,
    packages: &ObjectNames<'_>,
    name: GlobalName<'_>,
    definition: &DefinitionLine<'_>,
) -> Result<(), AllocError>
    ensures { OnOk result (text.new.items ≡ text.old.items ++ declaration_text (type_in packages.now) (TypeOf (global_of name.entry) (definition_view definition.now))) }
{
    push_word_global(text, b"type ", name)?;
    push_word(text, b" ")?;
    push_definition(text, packages, definition)?;
    push_word(text, b"\n")
}

/// Prints the line of a type definition, if its name and its definition are known.
#[tactic(auto, unfolding(go_ast::specs::FileView::type_spec_view))]
fn push_type_spec(
    alloc: Global,
    source: &Source<'_>,
    spec: &TypeSpec,
    text: &mut Vec<u8>,
) -> Result<(), AllocError>
    ensures { OnOk result (text.new.items ≡ text.old.items ++ flat_map (declaration_text (type_in source.now.packages.now)) (declared_type (source_of source.now) (type_spec_view spec.now))) }
{
    let Some(name) = source.global(spec.name as usize) else {
        return Ok(());
    };
    match defined_as(alloc, source, &spec.body)? {
        None => Ok(()),
        Some(definition) => push_type_line(text, source.packages, name, &definition),
    }
}

/// Prints the lines of the type definitions of a `type`.
#[tactic(auto, unfolding(go_ast::specs::View::group_view))]
fn push_type_specs(
    alloc: Global,
    source: &Source<'_>,
    group: &Group<TypeSpec>,
    text: &mut Vec<u8>,
) -> Result<(), AllocError>
    ensures { OnOk result (text.new.items ≡ text.old.items ++ flat_map (declaration_text (type_in source.now.packages.now)) (flat_map (declared_type (source_of source.now)) (group_items (group_view type_spec_view group.now)))) }
{
    match group {
        Group::Single(spec) => push_type_spec(alloc, source, spec, text),
        Group::Several { items, .. } => {
            for item in items {
                push_type_spec(alloc, source, &item.value, text)?;
            }
            Ok(())
        }
    }
}

/// The literals behind the `=` of variables, and none where there is no `=`.
fn literals(values: &Option<VarValues>) -> &[Item<BasicLit>]
    ensures { list_view basic_view result.now ≡ literals_of (option_view var_values_view values.now) }
{
    match values {
        None => &[],
        Some(values) => &values.values,
    }
}

/// The value of the literal with this number.
#[tactic(auto, unfolding(crate::specs::Objects::initial_of, crate::specs::DeclarationsView::initial_view))]
fn initial_at<'s>(
    source: &'s Source<'_>,
    literals: &[Item<BasicLit>],
    number: usize,
) -> Option<Initial<'s>>
    ensures { option_map initial_view result ≡ literal_value_at (source_of source.now) (slice_get literals.now number) }
{
    let Some(literal) = literals.get(number) else {
        return None;
    };
    match &literal.value {
        BasicLit::Number(place) => match source.number(*place as usize) {
            None => None,
            Some(number) => Some(Initial::Integer(number)),
        },
        BasicLit::Text(place) => match source.text(*place as usize) {
            None => None,
            Some(text) => Some(Initial::Text(text)),
        },
    }
}

/// Prints the first value of a variable, if it has one.
#[tactic(auto, unfolding(crate::specs::DeclarationsView::initial_view))]
fn push_initial(text: &mut Vec<u8>, value: Option<Initial<'_>>) -> Result<(), AllocError>
    ensures { OnOk result (text.new.items ≡ text.old.items ++ initial_text (option_map initial_view value.entry)) }
{
    match value {
        None => Ok(()),
        Some(Initial::Integer(number)) => push_word_integer(text, b" ", number),
        Some(Initial::Text(bytes)) => push_word_bytes(text, b" ", bytes),
    }
}

/// Prints the line of a variable.
#[tactic(auto, unfolding(crate::specs::ObjectText::declaration_text))]
fn push_variable(
    text: &mut Vec<u8>,
    packages: &ObjectNames<'_>,
    name: GlobalName<'_>,
    own: &GoType,
    value: Option<Initial<'_>>,
) -> Result<(), AllocError>
    ensures { OnOk result (text.new.items ≡ text.old.items ++ declaration_text (type_in packages.now) (Variable (global_of name.entry) (type_of own.now) (option_map initial_view value.entry))) }
{
    push_word_global(text, b"var ", name)?;
    push_word_type(text, packages, b" ", own)?;
    push_initial(text, value)?;
    push_word(text, b"\n")
}

/// Prints the line of the variable whose name stands at token `name`, if this name is known.
fn push_named(
    source: &Source<'_>,
    name: usize,
    own: &GoType,
    value: Option<Initial<'_>>,
    text: &mut Vec<u8>,
) -> Result<(), AllocError>
    ensures { OnOk result (text.new.items ≡ text.old.items ++ flat_map (declaration_text (type_in source.now.packages.now)) (known_variable (Some (type_of own.now)) ((source_of source.now).global name) (option_map initial_view value.entry))) }
{
    match source.global(name) {
        None => Ok(()),
        Some(name) => push_variable(text, source.packages, name, own, value),
    }
}

/// Prints the lines of variables of one type.
fn push_typed(
    source: &Source<'_>,
    names: &[Item<u32>],
    literals: &[Item<BasicLit>],
    own: &GoType,
    text: &mut Vec<u8>,
) -> Result<(), AllocError>
    ensures { OnOk result (text.new.items ≡ text.old.items ++ flat_map (declaration_text (type_in source.now.packages.now)) (variable_declarations (source_of source.now) (Some (type_of own.now)) (list_view same_index names.now) (initials_of (source_of source.now) (list_view basic_view literals.now)))) }
{
    for i in 0..names.len() {
        let value = initial_at(source, literals, i);
        push_named(source, names[i].value as usize, own, value, text)?;
    }
    Ok(())
}

/// Prints the lines of variables, if their type is known.
#[tactic(auto, unfolding(go_ast::specs::FileView::global_view))]
fn push_var_spec(
    alloc: Global,
    source: &Source<'_>,
    spec: &VarSpec,
    text: &mut Vec<u8>,
) -> Result<(), AllocError>
    ensures { OnOk result (text.new.items ≡ text.old.items ++ flat_map (declaration_text (type_in source.now.packages.now)) (global_variables (source_of source.now) (global_view spec.now))) }
{
    match written_type(alloc, &source.world, &spec.var_type)? {
        None => Ok(()),
        Some(own) => push_typed(source, &spec.names, literals(&spec.values), &own, text),
    }
}

/// Prints the lines of all variables of a `var`.
#[tactic(auto, unfolding(go_ast::specs::View::group_view))]
fn push_var_specs(
    alloc: Global,
    source: &Source<'_>,
    group: &Group<VarSpec>,
    text: &mut Vec<u8>,
) -> Result<(), AllocError>
    ensures { OnOk result (text.new.items ≡ text.old.items ++ flat_map (declaration_text (type_in source.now.packages.now)) (flat_map (global_variables (source_of source.now)) (group_items (group_view global_view group.now)))) }
{
    match group {
        Group::Single(spec) => push_var_spec(alloc, source, spec, text),
        Group::Several { items, .. } => {
            for item in items {
                push_var_spec(alloc, source, &item.value, text)?;
            }
            Ok(())
        }
    }
}

/// Prints the types of a function's parameters and results.
fn push_signature(
    text: &mut Vec<u8>,
    packages: &ObjectNames<'_>,
    parameters: &[GoType],
    results: &[GoType],
) -> Result<(), AllocError>
    ensures { OnOk result (text.new.items ≡ text.old.items ++ signature_text (type_in packages.now) (map type_of parameters.now) (map type_of results.now)) }
{
    push_type_list(text, packages, parameters)?;
    push_type_list(text, packages, results)
}

/// Prints the numbers of a function's slots and lines.
fn push_counts(text: &mut Vec<u8>, slots: usize, lines: usize) -> Result<(), AllocError>
    ensures { OnOk result (text.new.items ≡ text.old.items ++ counts_text slots lines) }
{
    push_numbered(text, b" ", slots)?;
    push_numbered(text, b" ", lines)
}

/// Prints the header of a function with so many lines of code.
fn push_header(
    text: &mut Vec<u8>,
    packages: &ObjectNames<'_>,
    signature: &FunctionSignature<'_>,
    lines: usize,
) -> Result<(), AllocError>
    ensures { OnOk result (text.new.items ≡ text.old.items ++ ended (header_text (type_in packages.now) (function_of signature.now.name) (map type_of signature.now.parameters.items) (map type_of signature.now.results.items) signature.now.slots lines)) }
{
    push_word_function(text, b"func ", signature.name)?;
    push_signature(text, packages, &signature.parameters, &signature.results)?;
    push_counts(text, signature.slots, lines)?;
    push_word(text, b"\n")
}

/// Prints the header of a function and its code.
fn push_function(
    text: &mut Vec<u8>,
    packages: &ObjectNames<'_>,
    signature: &FunctionSignature<'_>,
    code: &Code<'_>,
) -> Result<(), AllocError>
    ensures { OnOk result (text.new.items ≡ text.old.items ++ (ended (header_text (type_in packages.now) (function_of signature.now.name) (map type_of signature.now.parameters.items) (map type_of signature.now.results.items) signature.now.slots (length (lines_in code.now))) ++ code_text (type_in packages.now) (lines_in code.now))) }
{
    push_header(text, packages, signature, code.len())?;
    push_lines(text, packages, code.lines())
}

/// The header of a function with this name and so many slots.
fn signature_of<'a>(
    alloc: Global,
    world: &World<'_>,
    func: &FuncDecl,
    name: FunctionName<'a>,
    slots: usize,
) -> Result<FunctionSignature<'a>, AllocError>
    ensures { IfOk result (IsSignature (world_of world.now) (func_view func.now) (function_of name.entry) slots) }
{
    let parameters = parameters(alloc, world, func)?;
    let results = results(alloc, world, func)?;
    Ok(FunctionSignature {
        name,
        parameters,
        results,
        slots,
    })
}

/// Prints a function, whose slots are those of the scope.
fn push_scoped(
    alloc: Global,
    scope: SlotScope<'_>,
    name: FunctionName<'_>,
    func: &FuncDecl,
    text: &mut Vec<u8>,
) -> Result<(), AllocError>
    requires { scope.slots.now.places.items ≡ slots_of (world_of scope.source.now.world) (func_view func.now) }
    ensures { OnOk result (text.new.items ≡ text.old.items ++ declaration_text (type_in scope.entry.source.now.packages.now) (FunctionOf (object.function_of (source_of scope.entry.source.now) (func_view func.now) (function_of name.entry)))) }
{
    let source = scope.source;
    let signature = signature_of(alloc, &source.world, func, name, scope.slots.places.len())?;
    let code = body(alloc, scope, func)?;
    push_function(text, source.packages, &signature, &code)
}

/// Prints a function.
fn push_func(
    alloc: Global,
    source: &Source<'_>,
    name: FunctionName<'_>,
    func: &FuncDecl,
    text: &mut Vec<u8>,
) -> Result<(), AllocError>
    ensures { OnOk result (text.new.items ≡ text.old.items ++ declaration_text (type_in source.now.packages.now) (FunctionOf (object.function_of (source_of source.now) (func_view func.now) (function_of name.entry)))) }
{
    let places = slots(alloc, &source.world, func)?;
    let scope = SlotScope {
        source,
        slots: &places,
    };
    push_scoped(alloc, scope, name, func, text)
}

/// Prints a function, whose name is the one at `number`. Returns the number of the next function.
fn push_next(
    alloc: Global,
    source: &Source<'_>,
    names: &[FunctionName<'_>],
    number: usize,
    func: &FuncDecl,
    text: &mut Vec<u8>,
) -> Result<usize, AllocError>
    requires { number ≤ length names.now }
    ensures text { OnOk result (text.new.items ≡ text.old.items ++ flat_map (declaration_text (type_in source.now.packages.now)) (declared_function (source_of source.now) (map function_of (drop number names.now)) (func_view func.now))) }
    ensures others { IfOk result (λ others. map function_of (drop others names.now) ≡ others_of (map function_of (drop number names.now))) }
    ensures within { IfOk result (λ others. others ≤ length names.now) }
{
    if number < names.len() {
        push_func(alloc, source, names[number], func, text)?;
        Ok(number + 1)
    } else {
        Ok(number)
    }
}

/// Prints a declaration of a file. Its first function has the name at `number`. Returns the number of the next function.
#[tactic(auto, unfolding(go_ast::specs::FileView::decl_view, crate::specs::Objects::declared_by))]
fn push_decl(
    alloc: Global,
    source: &Source<'_>,
    names: &[FunctionName<'_>],
    number: usize,
    decl: &Decl,
    text: &mut Vec<u8>,
) -> Result<usize, AllocError>
    requires { number ≤ length names.now }
    ensures text { OnOk result (text.new.items ≡ text.old.items ++ flat_map (declaration_text (type_in source.now.packages.now)) (declared_by (source_of source.now) (map function_of (drop number names.now)) (decl_view decl.now))) }
    ensures others { IfOk result (λ others. map function_of (drop others names.now) ≡ names_behind (map function_of (drop number names.now)) (decl_view decl.now)) }
    ensures within { IfOk result (λ others. others ≤ length names.now) }
{
    match decl {
        Decl::Var { group, .. } => {
            push_var_specs(alloc, source, group, text)?;
            Ok(number)
        }
        Decl::Type { group, .. } => {
            push_type_specs(alloc, source, group, text)?;
            Ok(number)
        }
        Decl::Func { func, .. } => push_next(alloc, source, names, number, func, text),
    }
}

/// Prints the declarations of a file. Its first function has the name at `number`. Returns the number of the next file's first function.
pub fn push_decls(
    alloc: Global,
    source: &Source<'_>,
    names: &[FunctionName<'_>],
    number: usize,
    decls: &[Decl],
    text: &mut Vec<u8>,
) -> Result<usize, AllocError>
    requires { number ≤ length names.now }
    ensures text { OnOk result (text.new.items ≡ text.old.items ++ flat_map (declaration_text (type_in source.now.packages.now)) (declared_in (source_of source.now) (map function_of (drop number names.now)) (map decl_view decls.now))) }
    ensures others { IfOk result (λ others. map function_of (drop others names.now) ≡ names_behind_all (map function_of (drop number names.now)) (map decl_view decls.now)) }
    ensures within { IfOk result (λ others. others ≤ length names.now) }
{
    let mut next = number;
    for decl in decls {
        next = push_decl(alloc, source, names, next, decl, text)?;
    }
    Ok(next)
}
