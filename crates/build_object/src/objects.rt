//! Prints the object of a package without faults.
ghost use Rattle.std.specs.Prelude.{◌≡◌, ◌<◌, ◌≤◌, ◌++◌, ℕ, List, IfOk, OnOk, Some, length, map, slice_get};
ghost use Rattle.go_ast.specs.SourceFile.{SourceFile, source_of};
ghost use Rattle.go_scope.specs.Packages.{scoped};
ghost use Rattle.types_declared.specs.Files.{package_name};
ghost use Rattle.types_declared.specs.PackageNames.{IsLaidOver};
ghost use Rattle.types_expr.specs.WorldView.{world_of, name_in, token_spelling};
ghost use Rattle.types_info.specs.MeaningsView.{AreMeanings};
ghost use Rattle.types_info.specs.PackageOf.{package_in};
ghost use Rattle.types_info.specs.Worlds.{IsWorldOf};
ghost use Rattle.types_declared.specs.ExportTablesView.{name_in as known_name, export_data_in};
ghost use Rattle.types_info.specs.MemberUses.{AreEnterings, AreMemberUses, enterings_in, uses_in};
ghost use Rattle.types_info.specs.NamesView.{AreNames};
ghost use Rattle.types_declared.specs.Package.{spelled};
ghost use Rattle.types_declared.specs.PackageView.{package_of, IsIndexOf};
ghost use Rattle.types_info.specs.Uniqueness.{HasOneWorld};
ghost use Rattle.build_object.specs.LineView.{function_of};
ghost use Rattle.build_object.specs.Names.{function_names};
ghost use Rattle.build_object.specs.Objects.{Object};
ghost use Rattle.build_object.specs.ObjectText.{first_line};
ghost use Rattle.build_object.specs.ObjectSteps.{list_of_file, PrintsHead, PrintsFiles};
ghost use Rattle.build_object.specs.ObjectView.{AreObjectDefinitions, HaveNames, IsObjectTextOf, OwnDefinitionsOf, PrintsFile};
ghost use Rattle.build_object.specs.Sources.{IsObjectText};

use crate::declarations::push_decls;
use crate::imports::push_imports;
use crate::names::function_names;
use crate::origin::Origin;
use crate::packages::ObjectNames;
use crate::printing::{push_between, push_words};
use crate::sources::source;
use go_ast::FileTree;
use go_scope::declare::declare;
use go_scope::table::ScopeTable;
use std::alloc::{AllocError, Global};
use types_declared::{ExportTable, Index, Package, broken_definitions, lay_names};
use types_expr::found::{Entering, MemberUse};
use types_expr::symbol::SharedPath;
use types_expr::world::{Bound, Definition, Name, World};
use types_info::{MeaningTable, file_names, has_one_world, meanings_of};
use workspace_graph::import_paths::import_paths;

/// A package without faults: its path, and its files in the order of their paths. `definitions` are its type definitions as other packages
/// see them. `members` are the uses of members that checking found in each file, and `enterings` the values that enter interfaces.
#[derive(Clone, Copy)]
pub struct Faultless<'a> {
    pub path: &'a SharedPath,
    pub files: &'a [FileTree],
    pub definitions: &'a [Definition],
    pub members: &'a [Vec<MemberUse>],
    pub enterings: &'a [Vec<Entering>],
}

/// A file, and how many functions of its package stand in the files before it.
#[derive(Clone, Copy)]
struct Turn {
    file: usize,
    number: usize,
}

/// The world of a file, with the type definitions of its package as other packages see them. Checking has another form of these
/// definitions, which belongs to `types_check`.
fn own_world<'w>(
    unit: Package<'w>,
    names: &'w [Name<'w>],
    bounds: &'w [Bound],
    definitions: &'w [Definition],
    file: usize,
) -> World<'w>
    requires names { AreNames (package_of unit) file bounds.now names.now }
    requires definitions { AreObjectDefinitions (package_of unit) definitions.now }
    ensures world { (s : SourceFile) → slice_get (package_of unit.entry).files file ≡ Some s → IsWorldOf (package_of unit.entry) file s (world_of result) }
    ensures spelling { (token : ℕ) → token_spelling (name_in result token) ≡ spelled (package_of unit.entry) file token }
{
    World {
        package: unit.path,
        names,
        bounds,
        own: definitions,
        imported: unit.export_table.definitions(),
    }
}

/// Prints the declarations of a file, by the names in it and their meanings. Returns the number of the next file's first function.
fn push_judged<'w>(
    alloc: Global,
    origin: Origin<'w>,
    spelled: &'w [Name<'w>],
    bounds: &'w [Bound],
    turn: Turn,
    text: &mut Vec<u8>,
) -> Result<usize, AllocError>
    requires index { IsIndexOf (package_of origin.unit) origin.index.now }
    requires names { AreNames (package_of origin.unit) turn.file bounds.now spelled.now }
    requires definitions { AreObjectDefinitions (package_of origin.unit) origin.definitions.now }
    requires one { HasOneWorld (package_of origin.unit) }
    requires in_range { turn.file < length origin.unit.files.now }
    requires within { turn.number ≤ length origin.names.now }
    ensures { IfOk result (λ others. PrintsFile (package_of origin.entry.unit) turn.file (list_of_file (slice_get origin.entry.members.now turn.file)) (list_of_file (slice_get origin.entry.enterings.now turn.file)) origin.entry.packages.now origin.entry.names.now turn.number others text.old.items text.new.items) }
{
    let judged_by = own_world(origin.unit, spelled, bounds, origin.definitions, turn.file);
    let made_of = source(alloc, origin, judged_by, turn.file)?;
    let files = origin.unit.files;
    let tree = files[turn.file].file();
    push_decls(
        alloc,
        &made_of,
        origin.names,
        turn.number,
        &tree.decls,
        text,
    )
}

/// Prints the declarations of a file. Returns the number of the next file's first function.
fn push_file(
    alloc: Global,
    origin: Origin<'_>,
    bounds: &mut MeaningTable,
    turn: Turn,
    text: &mut Vec<u8>,
) -> Result<usize, AllocError>
    requires index { IsIndexOf (package_of origin.unit) origin.index.now }
    requires bounds { AreMeanings (package_of origin.unit) bounds.old.list.items bounds.old.of.items }
    requires definitions { AreObjectDefinitions (package_of origin.unit) origin.definitions.now }
    requires one { HasOneWorld (package_of origin.unit) }
    requires in_range { turn.file < length origin.unit.files.now }
    requires within { turn.number ≤ length origin.names.now }
    ensures puts { IfOk result (λ others. PrintsFile (package_of origin.entry.unit) turn.file (list_of_file (slice_get origin.entry.members.now turn.file)) (list_of_file (slice_get origin.entry.enterings.now turn.file)) origin.entry.packages.now origin.entry.names.now turn.number others text.old.items text.new.items) }
    ensures bounds { OnOk result (AreMeanings (package_of origin.entry.unit) bounds.new.list.items bounds.new.of.items) }
{
    let spelled = file_names(alloc, origin.unit, origin.index, bounds, turn.file)?;
    push_judged(alloc, origin, &spelled, bounds.list(), turn, text)
}

/// Prints the declarations of all files of a package. Returns the number of its functions.
fn push_files(
    alloc: Global,
    origin: Origin<'_>,
    bounds: &mut MeaningTable,
    text: &mut Vec<u8>,
) -> Result<usize, AllocError>
    requires index { IsIndexOf (package_of origin.unit) origin.index.now }
    requires bounds { AreMeanings (package_of origin.unit) bounds.old.list.items bounds.old.of.items }
    requires definitions { AreObjectDefinitions (package_of origin.unit) origin.definitions.now }
    requires one { HasOneWorld (package_of origin.unit) }
    ensures { IfOk result (λ others. PrintsFiles (package_of origin.entry.unit) (length origin.entry.unit.files.now) origin.entry.members.now origin.entry.enterings.now origin.entry.packages.now origin.entry.names.now others text.old.items text.new.items) }
{
    let mut others = 0;
    for file in 0..origin.unit.files.len() {
        let turn = Turn {
            file,
            number: others,
        };
        others = push_file(alloc, origin, bounds, turn, text)?;
    }
    Ok(others)
}

/// The name in the package clause of the first file, and no name where there is no file.
#[tactic(auto, unfolding(go_ast::specs::FileView::file_view))]
fn package_name(files: &[FileTree]) -> &[u8]
    ensures { result.now ≡ package_name (map source_of files.now) }
{
    match files.first() {
        None => &[],
        Some(file) => file.spelling(file.file().name as usize),
    }
}

/// Prints the first line of an object.
fn push_first_line(text: &mut Vec<u8>, path: &[u8], name: &[u8]) -> Result<(), AllocError>
    ensures { OnOk result ((o : Object) → o.path ≡ path.now → o.name ≡ name.now → text.new.items ≡ text.old.items ++ first_line o) }
{
    push_between(text, b"object ", path, b" ")?;
    push_words(text, name, b"\n")
}

/// Prints the first lines of an object: its own line, and those of its imports.
fn push_head(alloc: Global, unit: Package<'_>, text: &mut Vec<u8>) -> Result<(), AllocError>
    ensures { OnOk result (PrintsHead (package_of unit.entry) text.old.items text.new.items) }
{
    push_first_line(text, unit.path.path(), package_name(unit.files))?;
    let paths = import_paths(alloc, unit.files)?;
    push_imports(text, &paths)
}

/// Prints the object of a package, by the meanings of its declarations.
fn meant_text(
    alloc: Global,
    origin: Origin<'_>,
    bounds: &mut MeaningTable,
) -> Result<Vec<u8>, AllocError>
    requires index { IsIndexOf (package_of origin.unit) origin.index.now }
    requires bounds { AreMeanings (package_of origin.unit) bounds.old.list.items bounds.old.of.items }
    requires definitions { AreObjectDefinitions (package_of origin.unit) origin.definitions.now }
    requires one { HasOneWorld (package_of origin.unit) }
    requires names { map function_of origin.names.now ≡ function_names origin.unit.path.now (map source_of origin.unit.files.now) }
    ensures { IfOk result (λ text. (files_of : List ℕ → List SourceFile) → AreMemberUses (package_of origin.entry.unit) (map uses_in origin.entry.members.now) → AreEnterings (package_of origin.entry.unit) (map enterings_in origin.entry.enterings.now) → HaveNames origin.entry.packages.now files_of → IsObjectText (package_of origin.entry.unit) files_of text.items) }
{
    let mut text = Vec::new(alloc);
    push_head(alloc, origin.unit, &mut text)?;
    push_files(alloc, origin, bounds, &mut text)?;
    text.shrink_to_fit();
    Ok(text)
}

/// The meanings of a package's declarations.
fn all_bounds(
    alloc: Global,
    unit: Package<'_>,
    index: &Index<'_>,
) -> Result<MeaningTable, AllocError>
    requires { IsIndexOf (package_of unit) index.now }
    ensures { IfOk result (λ bounds. AreMeanings (package_of unit.entry) bounds.list.items bounds.of.items) }
{
    let broken = broken_definitions(alloc, unit, index)?;
    meanings_of(alloc, unit, index, &broken)
}

/// Prints the object of a package without faults, by its index and the meanings of its declarations. It may add the exports of other
/// packages to `bounds`.
pub fn checked_object<'a>(
    alloc: Global,
    unit: Package<'a>,
    index: &'a Index<'a>,
    bounds: &mut MeaningTable,
    given: Faultless<'a>,
    packages: &'a ObjectNames<'a>,
) -> Result<Vec<u8>, AllocError>
    requires index { IsIndexOf (package_of unit) index.now }
    requires bounds { AreMeanings (package_of unit) bounds.old.list.items bounds.old.of.items }
    requires definitions { AreObjectDefinitions (package_of unit) given.definitions.now }
    ensures { IfOk result (λ text. (files_of : List ℕ → List SourceFile) → AreMemberUses (package_of unit.entry) (map uses_in given.entry.members.now) → AreEnterings (package_of unit.entry) (map enterings_in given.entry.enterings.now) → HaveNames packages.now files_of → IsObjectText (package_of unit.entry) files_of text.items) }
{
    has_one_world(unit);
    let names = function_names(
        alloc,
        unit.path.path(),
        unit.files,
        &index.declared.functions,
    )?;
    let origin = Origin {
        unit,
        index,
        definitions: given.definitions,
        members: given.members,
        enterings: given.enterings,
        packages,
        names: names.as_slice(),
    };
    meant_text(alloc, origin, bounds)
}

/// The scope table of a package, in which each import without a name declares the name of the imported package. `types_check` makes this
/// table for itself too, as neither crate lists the other.
fn laid<'a>(
    alloc: Global,
    files: &'a [FileTree],
    export_table: &'a ExportTable,
) -> Result<ScopeTable<'a>, AllocError>
    ensures { IfOk result (λ table. IsLaidOver (map source_of files.now) (known_name export_table.now) (scoped files.now) table) }
{
    let plain = declare(alloc, files)?;
    lay_names(alloc, plain, files, export_table)
}

/// Prints the object of a package with this scope table.
fn laid_text(
    alloc: Global,
    given: Faultless<'_>,
    table: &ScopeTable<'_>,
    export_table: &ExportTable,
    packages: &ObjectNames<'_>,
) -> Result<Vec<u8>, AllocError>
    requires { AreObjectDefinitions (package_in given.path.now (map source_of given.files.now) table.now (export_data_in export_table.now)) given.definitions.now }
    ensures { IfOk result (λ text. (files_of : List ℕ → List SourceFile) → AreMemberUses (package_in given.entry.path.now (map source_of given.entry.files.now) table.now (export_data_in export_table.now)) (map uses_in given.entry.members.now) →
        AreEnterings (package_in given.entry.path.now (map source_of given.entry.files.now) table.now (export_data_in export_table.now)) (map enterings_in given.entry.enterings.now) → HaveNames packages.now files_of → IsObjectText (package_in given.entry.path.now (map source_of given.entry.files.now) table.now (export_data_in export_table.now)) files_of text.items) }
{
    let unit = Package {
        path: given.path,
        files: given.files,
        table,
        export_table,
    };
    let index = Index::of(alloc, unit)?;
    let mut bounds = all_bounds(alloc, unit, &index)?;
    checked_object(alloc, unit, &index, &mut bounds, given, packages)
}

/// Prints the object of a package without faults. `export_table` has the export data of the packages that it sees, and `packages` the names
/// of declarations.
pub fn object(
    alloc: Global,
    given: Faultless<'_>,
    export_table: &ExportTable,
    packages: &ObjectNames<'_>,
) -> Result<Vec<u8>, AllocError>
    requires { OwnDefinitionsOf given.path.now given.files.now (known_name export_table.now) (export_data_in export_table.now) given.definitions.now }
    ensures { IfOk result (λ text. IsObjectTextOf given.entry.path.now given.entry.files.now (known_name export_table.now) (export_data_in export_table.now) (map uses_in given.entry.members.now) (map enterings_in given.entry.enterings.now) packages.now text.items) }
{
    let table = laid(alloc, given.files, export_table)?;
    laid_text(alloc, given, &table, export_table, packages)
}
