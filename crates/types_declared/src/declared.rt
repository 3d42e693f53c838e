//! The variables, type definitions and functions that a package declares, each list in the order of path and offset.
ghost use Rattle.std.specs.Prelude.{◌≡◌, ◌∷◌, [], IfOk, OnOk, map};
ghost use Rattle.std.specs.List.{flat_map};
ghost use Rattle.go_ast.specs.View.{group_view};
ghost use Rattle.go_ast.specs.FileView.{global_view, type_spec_view, decl_view};
ghost use Rattle.go_ast.specs.SourceFile.{source_of};
ghost use Rattle.types_declared.specs.Files.{group_items};
ghost use Rattle.types_declared.specs.Package.{variables_of, decl_variables, decl_types, decl_functions, variables_in, types_in, functions_in, declared_variables, declared_types, declared_functions, placed_type};
ghost use Rattle.types_declared.specs.Appending.{Appends};
ghost use Rattle.types_declared.specs.DeclaredView.{variable_of, type_of, function_of, AddsDeclared};

use go_ast::FileTree;
use go_ast::tree::{Decl, FuncDecl, Group, TypeExpr, TypeSpec, VarSpec};
use std::alloc::{AllocError, Global};

/// A package-level variable: the rank of its file, the token of its name, and its type expression.
#[derive(Clone, Copy)]
pub struct Variable<'a> {
    pub file: usize,
    pub name: usize,
    pub var_type: &'a TypeExpr,
}

/// A type definition, with the rank of its file.
#[derive(Clone, Copy)]
pub struct TypeDef<'a> {
    pub file: usize,
    pub spec: &'a TypeSpec,
}

/// A function, method or function `init`, with the rank of its file.
#[derive(Clone, Copy)]
pub struct Function<'a> {
    pub file: usize,
    pub func: &'a FuncDecl,
}

/// The declarations of a package, each list in the order of path and offset. The rank of a declaration is its index in its list.
#[derive(Drop)]
pub struct Declared<'a> {
    pub variables: Vec<Variable<'a>>,
    pub types: Vec<TypeDef<'a>>,
    pub functions: Vec<Function<'a>>,
}

/// Appends the variables of one specification, such as `a, b int`.
#[tactic(auto, unfolding(go_ast::specs::FileView::global_view))]
fn add_names<'a>(
    found: &mut Vec<Variable<'a>>,
    file: usize,
    spec: &'a VarSpec,
) -> Result<(), AllocError>
    ensures { OnOk result (Appends variable_of found.old.items found.new.items (variables_of file (global_view spec.now))) }
{
    for name in &spec.names {
        found.push(Variable {
            file,
            name: name.value as usize,
            var_type: &spec.var_type,
        })?;
    }
    Ok(())
}

/// Appends the variables of a `var` declaration.
fn add_variables<'a>(
    found: &mut Vec<Variable<'a>>,
    file: usize,
    group: &'a Group<VarSpec>,
) -> Result<(), AllocError>
    ensures { OnOk result (Appends variable_of found.old.items found.new.items (flat_map (variables_of file) (group_items (group_view global_view group.now)))) }
{
    match group {
        Group::Single(spec) => add_names(found, file, spec),
        Group::Several { items, .. } => {
            for item in items {
                add_names(found, file, &item.value)?;
            }
            Ok(())
        }
    }
}

/// Appends one type definition.
fn add_type<'a>(
    found: &mut Vec<TypeDef<'a>>,
    file: usize,
    spec: &'a TypeSpec,
) -> Result<(), AllocError>
    ensures { OnOk result (Appends type_of found.old.items found.new.items (placed_type file (type_spec_view spec.now) ∷ [])) }
{
    found.push(TypeDef { file, spec })?;
    Ok(())
}

/// Appends the type definitions of a `type` declaration.
fn add_types<'a>(
    found: &mut Vec<TypeDef<'a>>,
    file: usize,
    group: &'a Group<TypeSpec>,
) -> Result<(), AllocError>
    ensures { OnOk result (Appends type_of found.old.items found.new.items (map (placed_type file) (group_items (group_view type_spec_view group.now)))) }
{
    match group {
        Group::Single(spec) => add_type(found, file, spec),
        Group::Several { items, .. } => {
            for item in items {
                add_type(found, file, &item.value)?;
            }
            Ok(())
        }
    }
}

impl<'a> Declared<'a> {
    /// Appends what one top-level declaration declares.
    fn add_decl(&mut self, file: usize, decl: &'a Decl) -> Result<(), AllocError>
        ensures { OnOk result (AddsDeclared self.old self.new (decl_variables file (decl_view decl.now)) (decl_types file (decl_view decl.now)) (decl_functions file (decl_view decl.now))) }
    {
        match decl {
            Decl::Var { group, .. } => add_variables(&mut self.variables, file, group),
            Decl::Type { group, .. } => add_types(&mut self.types, file, group),
            Decl::Func { func, .. } => {
                self.functions.push(Function { file, func })?;
                Ok(())
            }
        }
    }

    /// Appends the declarations of the file of this rank.
    fn add_file(&mut self, rank: usize, file: &'a FileTree) -> Result<(), AllocError>
        ensures { OnOk result (AddsDeclared self.old self.new (variables_in (rank, source_of file.now)) (types_in (rank, source_of file.now)) (functions_in (rank, source_of file.now))) }
    {
        let tree = file.file();
        for decl in &tree.decls {
            self.add_decl(rank, decl)?;
        }
        Ok(())
    }

    /// Collects the declarations of a package's files, which are in the order of their paths.
    pub fn of(alloc: Global, files: &'a [FileTree]) -> Result<Declared<'a>, AllocError>
        ensures variables { IfOk result (λ d. map variable_of d.variables.items ≡ declared_variables (map source_of files.now)) }
        ensures types { IfOk result (λ d. map type_of d.types.items ≡ declared_types (map source_of files.now)) }
        ensures functions { IfOk result (λ d. map function_of d.functions.items ≡ declared_functions (map source_of files.now)) }
    {
        let mut declared = Declared {
            variables: Vec::new(alloc),
            types: Vec::new(alloc),
            functions: Vec::new(alloc),
        };
        for rank in 0..files.len() {
            declared.add_file(rank, &files[rank])?;
        }
        Ok(declared)
    }
}
