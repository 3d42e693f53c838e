//! Parts of a package of a workspace without faults: trees, table, type definitions, uses of members and qualified identifiers.
ghost use Rattle.std.specs.Prelude.{◌≡◌, ◌<◌, [], length, map, IfOk};
ghost use Rattle.base_files.specs.Packages.{package_paths, package_files};
ghost use Rattle.workspace_graph.specs.Graphs.{OfPackage};
ghost use Rattle.workspace_graph.specs.Parsed.{AreParsed};
ghost use Rattle.go_ast.specs.SourceFile.{source_of};
ghost use Rattle.go_scope.specs.Packages.{scoped};
ghost use Rattle.types_declared.specs.PackageNames.{IsLaidOver};
ghost use Rattle.types_expr.specs.WorldView.{definitions_at};
ghost use Rattle.types_declared.specs.ExportTablesView.{name_in};
ghost use Rattle.types_info.specs.MemberUses.{AreMemberUses, uses_in};
ghost use Rattle.types_declared.specs.Package.{Package as Checked};
ghost use Rattle.types_info.specs.QualifiedIdentifiers.{AreQualified};
ghost use Rattle.refs_binding.specs.Members.{AreOwnDefinitions, definitions_or_none};
ghost use Rattle.refs_binding.specs.Workspaces.{known_in, IsPackageAt};

use crate::faultless::FaultlessWorkspace;
use go_ast::FileTree;
use go_scope::declare::declare;
use go_scope::table::ScopeTable;
use std::alloc::{AllocError, Global};
use types_declared::{ExportTable, lay_names};
use types_expr::found::MemberUse;
use types_expr::symbol::SharedPath;
use types_expr::world::{Definition, Definitions};
use types_info::Qualified;

/// The trees of the files of the package of a number.
pub fn trees<'a>(workspace: &FaultlessWorkspace<'a>, number: usize) -> &'a [FileTree]
    requires { number < length (package_paths workspace.now.graph) }
    ensures { OfPackage workspace.now.graph number (λ p. AreParsed (package_files workspace.now.graph p) result.now []) }
{
    &workspace.graph.package(number).trees
}

/// The path of the package of a number.
pub fn path_of<'a>(workspace: &FaultlessWorkspace<'a>, number: usize) -> &'a SharedPath
    requires { number < length (package_paths workspace.now.graph) }
    ensures { OfPackage workspace.now.graph number (λ p. result.now ≡ p) }
{
    &workspace.findings.packages[number].get().path
}

/// Returns a package's table in which each import without a name declares the name of the imported package.
pub fn laid_table<'a>(
    alloc: Global,
    files: &'a [FileTree],
    seen: &'a ExportTable,
) -> Result<ScopeTable<'a>, AllocError>
    ensures { IfOk result (λ laid. IsLaidOver (map source_of files.now) (name_in seen.now) (scoped files.now) laid) }
{
    let plain = declare(alloc, files)?;
    lay_names(alloc, plain, files, seen)
}

/// The type definitions that `all` has of the package of a path.
fn definitions_of<'a>(all: &'a Definitions, path: &[u8]) -> &'a [Definition]
    ensures { result.now ≡ definitions_or_none (definitions_at all.now path.now) }
{
    match all.of(path) {
        None => &[],
        Some(definitions) => definitions,
    }
}

/// The type definitions of the package of a number.
pub fn own_of<'a>(workspace: &FaultlessWorkspace<'a>, number: usize) -> &'a [Definition]
    requires { number < length (package_paths workspace.now.graph) }
    ensures { (p : Checked) → IsPackageAt workspace.now.graph (known_in workspace.now.findings) number p → AreOwnDefinitions p result.now }
{
    let path = path_of(workspace, number).path();
    definitions_of(workspace.findings.export_table.definitions(), path)
}

/// The uses of members in the package of a number, in one list for each file.
pub fn members_of<'a>(workspace: &FaultlessWorkspace<'a>, number: usize) -> &'a [Vec<MemberUse>]
    requires { number < length (package_paths workspace.now.graph) }
    ensures { (p : Checked) → IsPackageAt workspace.now.graph (known_in workspace.now.findings) number p → AreMemberUses p (map uses_in result.now) }
{
    &workspace.findings.packages[number].get().members
}

/// The qualified identifiers of the package of a number, listed by the path of the package that each one names.
pub fn qualified_of<'a>(workspace: &FaultlessWorkspace<'a>, number: usize) -> &'a [Qualified]
    requires { number < length (package_paths workspace.now.graph) }
    ensures { (p : Checked) → IsPackageAt workspace.now.graph (known_in workspace.now.findings) number p → AreQualified p result.now }
{
    &workspace.findings.packages[number].get().qualified
}
