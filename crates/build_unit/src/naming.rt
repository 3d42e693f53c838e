//! Gathers the names of the declarations of the packages in a closure.
ghost use Rattle.std.specs.Prelude.{◌≡◌, ◌<◌, length, IfOk, OnOk};
ghost use Rattle.base_files.specs.Packages.{package_paths};
ghost use Rattle.workspace_graph.specs.Graphs.{OfPackage};
ghost use Rattle.workspace_check.specs.Found.{KnowsVerdicts};
ghost use Rattle.build_unit.specs.Compiling.{HaveNamesBelow, IsPackageToBuild};
ghost use Rattle.build_unit.specs.Naming.{AreTablesBy, without_tables};

use crate::package_at::PackageAt;
use base_files::PathTable;
use build_object::packages::{DeclaredTables, NamedPackage, ObjectNames};
use std::alloc::{AllocError, Global};
use types_expr::symbol::SharedPath;
use workspace_check::Known;
use workspace_graph::{Graph, ParsedPackage};

/// Adds a package, unless it is marked, and marks it.
fn note(found: &mut Vec<usize>, marks: &mut Vec<bool>, number: usize) -> Result<(), AllocError> {
    if number < marks.len() && !marks[number] {
        marks[number] = true;
        found.push(number)?;
    }
    Ok(())
}

/// Adds the packages that a package imports directly.
fn note_imports(
    graph: &Graph,
    number: usize,
    found: &mut Vec<usize>,
    marks: &mut Vec<bool>,
) -> Result<(), AllocError> {
    if number < graph.len() {
        for import in graph.imports(number) {
            note(found, marks, *import)?;
        }
    }
    Ok(())
}

/// The packages in which a package looks up most names: itself, its direct imports, and their direct imports. Only speed depends on them.
fn nearby_packages(alloc: Global, graph: &Graph, number: usize) -> Result<Vec<usize>, AllocError>
    requires { number < length (package_paths graph.now) }
{
    let mut marks = vec![in alloc; false; graph.len()]?;
    let mut found = Vec::new(alloc);
    note(&mut found, &mut marks, number)?;
    for import in graph.imports(number) {
        note(&mut found, &mut marks, *import)?;
        note_imports(graph, *import, &mut found, &mut marks)?;
    }
    Ok(found)
}

/// The path of a package, shared with the known verdict on it, if there is one.
fn path_of(
    alloc: Global,
    graph: &Graph,
    number: usize,
    known: &Known,
) -> Result<SharedPath, AllocError>
    requires number { number < length (package_paths graph.now) }
    requires known { KnowsVerdicts graph.now known.now }
    ensures { IfOk result (λ path. OfPackage graph.now number (λ p. path ≡ p)) }
{
    match known.get(number) {
        Some(verdict) => {
            let shared = verdict.path().clone()?;
            Ok(shared)
        }
        None => SharedPath::new(alloc, &graph.package(number).path),
    }
}

/// The names of a package's declarations. Its files are read only when a name is asked for.
fn names_of(files: &ParsedPackage) -> NamedPackage<'_>
    ensures path { result.path.now ≡ files.now.path.items }
    ensures files { result.files.now ≡ files.now.trees.items }
{
    NamedPackage {
        path: &files.path,
        files: &files.trees,
    }
}

/// The names of the declarations of each package in a closure, without tables. The paths rise as the numbers do.
fn all_names<'a>(
    alloc: Global,
    at: PackageAt<'a>,
) -> Result<PathTable<NamedPackage<'a>>, AllocError>
    requires number { at.number < length (package_paths at.graph.now) }
    requires at { OfPackage at.graph.now at.number (IsPackageToBuild at) }
    ensures { IfOk result (λ names. OfPackage at.entry.graph.now at.entry.number (λ p. HaveNamesBelow at.entry.graph.now p (without_tables names))) }
{
    let mut names = PathTable::with_capacity(alloc, at.closure.len())?;
    for other in at.closure {
        let files = at.graph.package(*other);
        let path = path_of(alloc, at.graph, *other, at.known)?;
        names.push(path, names_of(files))?;
    }
    Ok(names)
}

/// Adds the tables of the declarations of the package at `path`, if it is in `names`.
fn add_tables<'a>(
    alloc: Global,
    names: &PathTable<NamedPackage<'a>>,
    path: &[u8],
    tables: &mut PathTable<DeclaredTables<'a>>,
) -> Result<(), AllocError>
    requires { AreTablesBy names.now tables.old }
    ensures { OnOk result (AreTablesBy names.now tables.new) }
{
    match names.entry_from(path, 0) {
        None => Ok(()),
        Some(entry) => {
            let shared = entry.path.clone()?;
            let made = DeclaredTables::of(alloc, entry.value.files)?;
            tables.put(shared, made)
        }
    }
}

/// Makes the tables of the declarations of the packages with these numbers.
fn tables_of<'a>(
    alloc: Global,
    at: PackageAt<'a>,
    names: &PathTable<NamedPackage<'a>>,
    numbers: &[usize],
) -> Result<PathTable<DeclaredTables<'a>>, AllocError>
    ensures { IfOk result (AreTablesBy names.now) }
{
    let mut tables = PathTable::new(alloc);
    for other in numbers {
        if *other < at.graph.len() {
            add_tables(alloc, names, &at.graph.package(*other).path, &mut tables)?;
        }
    }
    Ok(tables)
}

/// Makes the tables of the declarations of a package, of its direct imports, and of their direct imports.
fn nearby_tables<'a>(
    alloc: Global,
    at: PackageAt<'a>,
    names: &PathTable<NamedPackage<'a>>,
) -> Result<PathTable<DeclaredTables<'a>>, AllocError>
    requires { at.number < length (package_paths at.graph.now) }
    ensures { IfOk result (AreTablesBy names.now) }
{
    let numbers = nearby_packages(alloc, at.graph, at.number)?;
    tables_of(alloc, at, names, &numbers)
}

/// The names of the declarations of each package in a closure, with tables for those in which most names are looked up.
pub(crate) fn names_below<'a>(
    alloc: Global,
    at: PackageAt<'a>,
) -> Result<ObjectNames<'a>, AllocError>
    requires number { at.number < length (package_paths at.graph.now) }
    requires at { OfPackage at.graph.now at.number (IsPackageToBuild at) }
    ensures { IfOk result (λ packages. OfPackage at.entry.graph.now at.entry.number (λ p. HaveNamesBelow at.entry.graph.now p packages)) }
{
    let names = all_names(alloc, at)?;
    let tables = nearby_tables(alloc, at, &names)?;
    Ok(ObjectNames { names, tables })
}
