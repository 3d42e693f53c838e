//! Finds the declaration with a rank by going over the files of a package. Of most packages in a closure none is asked for.
ghost use Rattle.std.specs.Prelude.{◌≡◌, ◌<◌, None, Some, length, map, option_map, slice_get, take};
ghost use Rattle.go_ast.specs.View.{group_view, list_view};
ghost use Rattle.go_ast.specs.FileView.{decl_view, field_view, method_view, type_spec_view};
ghost use Rattle.go_ast.specs.SourceFile.{source_of};
ghost use Rattle.types_declared.specs.Files.{group_items};
ghost use Rattle.types_declared.specs.DeclaredView.{type_of, function_of as placed_function};
ghost use Rattle.types_declared.specs.Package.{decl_functions, decl_types, declared_functions, declared_types, functions_in, placed_type, types_in};
ghost use Rattle.std.specs.Option.{option_flatten};
ghost use Rattle.build_object.specs.Lines.{Method};
ghost use Rattle.build_object.specs.LineView.{global_of, function_of};
ghost use Rattle.build_object.specs.Names.{all_asked_names, asked_names_in, field_positions, initializers_among, names_of_fields, positions_from, spelled_in};
ghost use Rattle.build_object.specs.RankLookup.{FindsRank, decl_asked, file_asked, decl_positions, file_positions, spec_positions};
ghost use Rattle.std.specs.List.{flat_map};

use crate::instructions::{FunctionName, GlobalName};
use crate::names::{asked_name, initializers_with, name_of_type};
use go_ast::FileTree;
use go_ast::tree::{Decl, FieldDecl, Group, Item, MethodSpec, TypeBody, TypeSpec};
use types_declared::{Function, TypeDef};

/// The type definition with this rank in a `type`, or the rank that is left behind it.
#[tactic(auto, unfolding(go_ast::specs::View::group_view))]
fn type_in_group<'a>(
    file: usize,
    group: &'a Group<TypeSpec>,
    rank: usize,
) -> Result<TypeDef<'a>, usize>
    ensures { FindsRank type_of (map (placed_type file) (group_items (group_view type_spec_view group.now))) rank result }
{
    match group {
        Group::Single(spec) => {
            if rank == 0 {
                Ok(TypeDef { file, spec })
            } else {
                Err(rank - 1)
            }
        }
        Group::Several { items, .. } => {
            let count = items.len();
            if rank < count {
                let item = &items[rank];
                Ok(TypeDef {
                    file,
                    spec: &item.value,
                })
            } else {
                Err(rank - count)
            }
        }
    }
}

/// The type definition with this rank in a declaration, or the rank that is left behind it.
#[tactic(auto, unfolding(go_ast::specs::FileView::decl_view))]
fn type_in_decl<'a>(file: usize, decl: &'a Decl, rank: usize) -> Result<TypeDef<'a>, usize>
    ensures { FindsRank type_of (decl_types file (decl_view decl.now)) rank result }
{
    match decl {
        Decl::Type { group, .. } => type_in_group(file, group, rank),
        Decl::Var { .. } => Err(rank),
        Decl::Func { .. } => Err(rank),
    }
}

/// The type definition with this rank in a file, or the rank that is left behind it.
fn type_in_file<'a>(file: usize, tree: &'a FileTree, rank: usize) -> Result<TypeDef<'a>, usize>
    ensures { FindsRank type_of (types_in (file, source_of tree.now)) rank result }
{
    let tree = tree.file();
    let mut rest = rank;
    for decl in &tree.decls {
        match type_in_decl(file, decl, rest) {
            Ok(found) => return Ok(found),
            Err(left) => rest = left,
        }
    }
    Err(rest)
}

/// The type definition with this rank, if there is one.
pub(crate) fn type_at(files: &[FileTree], rank: usize) -> Option<TypeDef<'_>>
    ensures { option_map type_of result ≡ slice_get (declared_types (map source_of files.now)) rank }
{
    let mut rest = rank;
    for file in 0..files.len() {
        match type_in_file(file, &files[file], rest) {
            Ok(found) => return Some(found),
            Err(left) => rest = left,
        }
    }
    None
}

/// The function with this rank in a declaration, or the rank that is left behind it.
#[tactic(auto, unfolding(go_ast::specs::FileView::decl_view))]
fn function_in_decl<'a>(file: usize, decl: &'a Decl, rank: usize) -> Result<Function<'a>, usize>
    ensures { FindsRank placed_function (decl_functions file (decl_view decl.now)) rank result }
{
    match decl {
        Decl::Func { func, .. } => {
            if rank == 0 {
                Ok(Function { file, func })
            } else {
                Err(rank - 1)
            }
        }
        Decl::Var { .. } => Err(rank),
        Decl::Type { .. } => Err(rank),
    }
}

/// The function with this rank in a file, or the rank that is left behind it.
fn function_in_file<'a>(file: usize, tree: &'a FileTree, rank: usize) -> Result<Function<'a>, usize>
    ensures { FindsRank placed_function (functions_in (file, source_of tree.now)) rank result }
{
    let tree = tree.file();
    let mut rest = rank;
    for decl in &tree.decls {
        match function_in_decl(file, decl, rest) {
            Ok(found) => return Ok(found),
            Err(left) => rest = left,
        }
    }
    Err(rest)
}

/// The function with this rank, if there is one.
pub(crate) fn function_at(files: &[FileTree], rank: usize) -> Option<Function<'_>>
    ensures { option_map placed_function result ≡ slice_get (declared_functions (map source_of files.now)) rank }
{
    let mut rest = rank;
    for file in 0..files.len() {
        match function_in_file(file, &files[file], rest) {
            Ok(found) => return Some(found),
            Err(left) => rest = left,
        }
    }
    None
}

/// The number of functions `init` with a rank less than this one. No code calls a function `init`, so this is slow: each function is looked
/// up anew.
pub(crate) fn initializers_below(files: &[FileTree], rank: usize) -> usize
    requires { rank < length (declared_functions (map source_of files.now)) }
    ensures { result ≡ initializers_among (map source_of files.now) 0 (take rank (declared_functions (map source_of files.now))) }
{
    let mut number = 0;
    for below in 0..rank {
        match function_at(files, below) {
            None => {}
            Some(function) => number = initializers_with(files, number, function),
        }
    }
    number
}

/// The position of the field with this rank in a struct, or the rank that is left behind it.
fn position_in_fields(fields: &[Item<FieldDecl>], rank: usize) -> Result<usize, usize>
    ensures { FindsRank (λ n. n) (positions_from 0 (names_of_fields (list_view field_view fields.now))) rank result }
{
    let mut rest = rank;
    for field in fields {
        let count = field.value.names.len();
        if rest < count {
            return Ok(rank);
        }
        rest -= count;
    }
    Err(rest)
}

/// The position of the method with this rank among those that an interface asks for, or the rank that is left behind them.
fn position_in_asked(methods: &[Item<MethodSpec>], rank: usize) -> Result<usize, usize>
    ensures { FindsRank (λ n. n) (positions_from 0 (list_view method_view methods.now)) rank result }
{
    let count = methods.len();
    if rank < count {
        Ok(rank)
    } else {
        Err(rank - count)
    }
}

/// The position in its struct of the field with this rank in a type definition, or the rank that is left behind it.
#[tactic(auto, unfolding(go_ast::specs::FileView::body_view, go_ast::specs::FileView::type_spec_view))]
fn position_in_spec(spec: &TypeSpec, rank: usize) -> Result<usize, usize>
    ensures { FindsRank (λ n. n) (spec_positions (type_spec_view spec.now)) rank result }
{
    match &spec.body {
        TypeBody::Type(_) => Err(rank),
        TypeBody::Struct { fields, .. } => position_in_fields(fields, rank),
        TypeBody::Interface { methods, .. } => position_in_asked(methods, rank),
    }
}

/// The position in its struct of the field with this rank in a `type`, or the rank that is left behind it.
#[tactic(auto, unfolding(go_ast::specs::View::group_view))]
fn position_in_group(group: &Group<TypeSpec>, rank: usize) -> Result<usize, usize>
    ensures { FindsRank (λ n. n) (flat_map spec_positions (group_items (group_view type_spec_view group.now))) rank result }
{
    match group {
        Group::Single(spec) => position_in_spec(spec, rank),
        Group::Several { items, .. } => position_in_items(items, rank),
    }
}

/// The position in its struct of the field with this rank in several type definitions, or the rank that is left behind them.
fn position_in_items(items: &[Item<TypeSpec>], rank: usize) -> Result<usize, usize>
    ensures { FindsRank (λ n. n) (flat_map (λ i. spec_positions (type_spec_view i.value)) items.now) rank result }
{
    let mut rest = rank;
    for item in items {
        match position_in_spec(&item.value, rest) {
            Ok(found) => return Ok(found),
            Err(left) => rest = left,
        }
    }
    Err(rest)
}

/// The position in its struct of the field with this rank in a declaration, or the rank that is left behind it.
#[tactic(auto, unfolding(go_ast::specs::FileView::decl_view))]
fn position_in_decl(decl: &Decl, rank: usize) -> Result<usize, usize>
    ensures { FindsRank (λ n. n) (decl_positions (decl_view decl.now)) rank result }
{
    match decl {
        Decl::Type { group, .. } => position_in_group(group, rank),
        Decl::Var { .. } => Err(rank),
        Decl::Func { .. } => Err(rank),
    }
}

/// The position in its struct of the field with this rank in a file, or the rank that is left behind it.
fn position_in_file(tree: &FileTree, rank: usize) -> Result<usize, usize>
    ensures { FindsRank (λ n. n) (file_positions (source_of tree.now)) rank result }
{
    let tree = tree.file();
    let mut rest = rank;
    for decl in &tree.decls {
        match position_in_decl(decl, rest) {
            Ok(found) => return Ok(found),
            Err(left) => rest = left,
        }
    }
    Err(rest)
}

/// The position in its struct of the field with this rank, if there is one.
pub(crate) fn position_at(files: &[FileTree], rank: usize) -> Option<usize>
    ensures { result ≡ slice_get (field_positions (map source_of files.now)) rank }
{
    let mut rest = rank;
    for tree in files {
        match position_in_file(tree, rest) {
            Ok(found) => return Some(found),
            Err(left) => rest = left,
        }
    }
    None
}

/// The path and the files of a package, and the rank of the file that is gone over.
#[derive(Clone, Copy)]
struct FilePlace<'a> {
    path: &'a [u8],
    files: &'a [FileTree],
    file: usize,
}

/// The name in objects of the method with this rank among those that an interface asks for, or the rank that is left behind them.
fn asked_in_methods<'a>(
    place: FilePlace<'a>,
    of: GlobalName<'a>,
    methods: &[Item<MethodSpec>],
    rank: usize,
) -> Result<Option<FunctionName<'a>>, usize>
    ensures { FindsRank (option_map function_of) (map (λ i. Some (Method (global_of of.entry) (spelled_in (map source_of place.entry.files.now) place.entry.file i.value.name))) (list_view method_view methods.now)) rank result }
{
    let count = methods.len();
    if rank < count {
        Ok(Some(asked_name(place.files, of, place.file, &methods[rank].value)))
    } else {
        Err(rank - count)
    }
}

/// No name for a field with this rank in a struct, or the rank that is left behind it.
fn asked_in_fields<'a>(
    fields: &[Item<FieldDecl>],
    rank: usize,
) -> Result<Option<FunctionName<'a>>, usize>
    ensures { FindsRank (option_map function_of) (map (λ i. None) (names_of_fields (list_view field_view fields.now))) rank result }
{
    match position_in_fields(fields, rank) {
        Ok(_) => Ok(None),
        Err(left) => Err(left),
    }
}

/// The name in objects of the member with this rank in a type definition, or the rank that is left behind this. Only a method that an
/// interface asks for has a name.
#[tactic(auto, unfolding(go_ast::specs::FileView::body_view, go_ast::specs::FileView::type_spec_view))]
fn asked_in_spec<'a>(
    place: FilePlace<'a>,
    spec: &TypeSpec,
    rank: usize,
) -> Result<Option<FunctionName<'a>>, usize>
    ensures { FindsRank (option_map function_of) (asked_names_in place.entry.path.now (map source_of place.entry.files.now) (placed_type place.entry.file (type_spec_view spec.now))) rank result }
{
    match &spec.body {
        TypeBody::Type(_) => Err(rank),
        TypeBody::Struct { fields, .. } => asked_in_fields(fields, rank),
        TypeBody::Interface { methods, .. } => {
            let own = TypeDef {
                file: place.file,
                spec,
            };
            let of = name_of_type(place.path, place.files, own);
            asked_in_methods(place, of, methods, rank)
        }
    }
}

/// The name in objects of the member with this rank in a `type`, if it has one, or the rank that is left behind it.
#[tactic(auto, unfolding(go_ast::specs::View::group_view))]
fn asked_in_group<'a>(
    place: FilePlace<'a>,
    group: &Group<TypeSpec>,
    rank: usize,
) -> Result<Option<FunctionName<'a>>, usize>
    ensures { FindsRank (option_map function_of) (flat_map (λ s. asked_names_in place.entry.path.now (map source_of place.entry.files.now) (placed_type place.entry.file s)) (group_items (group_view type_spec_view group.now))) rank result }
{
    match group {
        Group::Single(spec) => asked_in_spec(place, spec, rank),
        Group::Several { items, .. } => asked_in_items(place, items, rank),
    }
}

/// The name in objects of the member with this rank in several definitions, if it has one, or the rank that is left behind them.
fn asked_in_items<'a>(
    place: FilePlace<'a>,
    items: &[Item<TypeSpec>],
    rank: usize,
) -> Result<Option<FunctionName<'a>>, usize>
    ensures { FindsRank (option_map function_of) (flat_map (λ i. asked_names_in place.entry.path.now (map source_of place.entry.files.now) (placed_type place.entry.file (type_spec_view i.value))) items.now) rank result }
{
    let mut rest = rank;
    for item in items {
        match asked_in_spec(place, &item.value, rest) {
            Ok(found) => return Ok(found),
            Err(left) => rest = left,
        }
    }
    Err(rest)
}

/// The name in objects of the member with this rank in a declaration, if it has one, or the rank that is left behind it.
#[tactic(auto, unfolding(go_ast::specs::FileView::decl_view))]
fn asked_in_decl<'a>(
    place: FilePlace<'a>,
    decl: &Decl,
    rank: usize,
) -> Result<Option<FunctionName<'a>>, usize>
    ensures { FindsRank (option_map function_of) (decl_asked place.entry.path.now (map source_of place.entry.files.now) place.entry.file (decl_view decl.now)) rank result }
{
    match decl {
        Decl::Type { group, .. } => asked_in_group(place, group, rank),
        Decl::Var { .. } => Err(rank),
        Decl::Func { .. } => Err(rank),
    }
}

/// The name in objects of the member with this rank in a file, if it has one, or the rank that is left behind it.
fn asked_in_tree<'a>(
    place: FilePlace<'a>,
    tree: &FileTree,
    rank: usize,
) -> Result<Option<FunctionName<'a>>, usize>
    ensures { FindsRank (option_map function_of) (file_asked place.entry.path.now (map source_of place.entry.files.now) (place.entry.file, source_of tree.now)) rank result }
{
    let tree = tree.file();
    let mut rest = rank;
    for decl in &tree.decls {
        match asked_in_decl(place, decl, rest) {
            Ok(found) => return Ok(found),
            Err(left) => rest = left,
        }
    }
    Err(rest)
}

/// The name in objects of the member with this rank, if an interface asks for it.
pub(crate) fn asked_at<'a>(
    path: &'a [u8],
    files: &'a [FileTree],
    rank: usize,
) -> Option<FunctionName<'a>>
    ensures { option_map function_of result ≡ option_flatten (slice_get (all_asked_names path.now (map source_of files.now)) rank) }
{
    let mut rest = rank;
    for file in 0..files.len() {
        let place = FilePlace { path, files, file };
        match asked_in_tree(place, &files[file], rest) {
            Ok(found) => return found,
            Err(left) => rest = left,
        }
    }
    None
}
