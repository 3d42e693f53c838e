//! Looks up the names of types and functions in objects, and the positions of fields, by symbols.
ghost use Rattle.std.specs.Prelude.{◌≡◌, map, option_map, slice_get};
ghost use Rattle.std.specs.Option.{option_copied};
ghost use Rattle.go_ast.specs.SourceFile.{source_of};
ghost use Rattle.types_declared.specs.DeclaredView.{type_of, function_of as placed_function};
ghost use Rattle.build_object.specs.LineView.{global_of, function_of};
ghost use Rattle.build_object.specs.Names.{function_names, functions_behind};
ghost use Rattle.build_object.specs.PackagesView.{type_of_rank, type_in, function_of_rank, function_in, position_of_rank, position_in, asked_in};

use crate::instructions::{FunctionName, GlobalName};
use crate::names::{function_called, initializers, is_initializer, name_of_type};
pub use crate::object_names::{DeclaredTables, NamedPackage, ObjectNames};
use crate::walks;
use crate::walks::initializers_below;
use go_ast::FileTree;
use types_declared::{Function, TypeDef};
use types_expr::symbol::Symbol;

/// The name in objects of the function with this rank, if there is one. Functions `init` before it are counted only where it is one.
fn function_at<'a>(
    path: &'a [u8],
    files: &'a [FileTree],
    functions: &[Function<'_>],
    rank: usize,
) -> Option<FunctionName<'a>>
    ensures { option_map function_of result ≡ slice_get (functions_behind path.now (map source_of files.now) 0 (map placed_function functions.now)) rank }
{
    match functions.get(rank) {
        None => None,
        Some(function) => {
            if is_initializer(files, *function) {
                let number = initializers(files, &functions[..rank]);
                Some(FunctionName::Initializer { path, number })
            } else {
                Some(function_called(path, files, *function))
            }
        }
    }
}

/// The name in objects of the function with this rank, if there is one, found by going over the files. Functions `init` before it are
/// counted only where it is one.
fn function_walked<'a>(
    path: &'a [u8],
    files: &'a [FileTree],
    rank: usize,
) -> Option<FunctionName<'a>>
    ensures { option_map function_of result ≡ slice_get (function_names path.now (map source_of files.now)) rank }
{
    match walks::function_at(files, rank) {
        None => None,
        Some(function) => {
            if is_initializer(files, function) {
                let number = initializers_below(files, rank);
                Some(FunctionName::Initializer { path, number })
            } else {
                Some(function_called(path, files, function))
            }
        }
    }
}

/// The type definition with this rank, by tables if there are any.
fn type_at<'a>(
    files: &'a [FileTree],
    tables: Option<&DeclaredTables<'a>>,
    rank: usize,
) -> Option<TypeDef<'a>>
    ensures { option_map type_of result ≡ type_of_rank (map source_of files.now) (option_copied tables.entry) rank }
{
    match tables {
        None => walks::type_at(files, rank),
        Some(tables) => tables.declared.types.get(rank).copied(),
    }
}

/// The name in objects of the function with this rank, by tables if there are any.
fn function_named<'a>(
    names: &NamedPackage<'a>,
    tables: Option<&DeclaredTables<'a>>,
    rank: usize,
) -> Option<FunctionName<'a>>
    ensures { option_map function_of result ≡ function_of_rank names.now.path.now (map source_of names.now.files.now) (option_copied tables.entry) rank }
{
    match tables {
        None => function_walked(names.path, names.files, rank),
        Some(tables) => function_at(names.path, names.files, &tables.declared.functions, rank),
    }
}

/// The position in its struct of the field with this rank, by tables if there are any.
fn position_at(
    files: &[FileTree],
    tables: Option<&DeclaredTables<'_>>,
    rank: usize,
) -> Option<usize>
    ensures { result ≡ position_of_rank (map source_of files.now) (option_copied tables.entry) rank }
{
    match tables {
        None => walks::position_at(files, rank),
        Some(tables) => tables.positions.get(rank).copied(),
    }
}

impl<'a> ObjectNames<'a> {
    /// The name of a type definition in objects.
    pub(crate) fn type_name(&self, symbol: &Symbol) -> Option<GlobalName<'a>>
        ensures { option_map global_of result ≡ type_in self.now symbol.now }
    {
        let path = symbol.package.path();
        let Some(names) = self.names.get(path) else {
            return None;
        };
        match type_at(names.files, self.tables.get(path), symbol.rank) {
            None => None,
            Some(own) => Some(name_of_type(names.path, names.files, own)),
        }
    }

    /// The name of a function or method in objects.
    pub(crate) fn function(&self, symbol: &Symbol) -> Option<FunctionName<'a>>
        ensures { option_map function_of result ≡ function_in self.now symbol.now }
    {
        let path = symbol.package.path();
        match self.names.get(path) {
            None => None,
            Some(names) => function_named(names, self.tables.get(path), symbol.rank),
        }
    }

    /// The name in objects of a method that an interface asks for.
    pub(crate) fn asked(&self, symbol: &Symbol) -> Option<FunctionName<'a>>
        ensures { option_map function_of result ≡ asked_in self.now symbol.now }
    {
        let path = symbol.package.path();
        match self.names.get(path) {
            None => None,
            Some(names) => walks::asked_at(names.path, names.files, symbol.rank),
        }
    }

    /// The position of a field in its struct.
    pub(crate) fn position(&self, symbol: &Symbol) -> Option<usize>
        ensures { result ≡ position_in self.now symbol.now }
    {
        let path = symbol.package.path();
        match self.names.get(path) {
            None => None,
            Some(names) => position_at(names.files, self.tables.get(path), symbol.rank),
        }
    }
}
