//! The packages of a workspace without faults: the table of each, and what it sees of others. Each package is read once.
ghost use Rattle.std.specs.Prelude.{◌≡◌, ◌<◌, length, IfOk};
ghost use Rattle.base_files.specs.Packages.{package_paths};
ghost use Rattle.types_declared.specs.PackageView.{package_of};
ghost use Rattle.refs_binding.specs.Packages.{AreAllSeen, ArePackagesRead, HoldsOfEach, IsSeenBy, IsTableAs, IsTableOf};
ghost use Rattle.refs_binding.specs.Workspaces.{known_in, IsPackageAt};

use crate::faultless::FaultlessWorkspace;
use crate::reading::{laid_table, path_of, trees};
use go_scope::table::ScopeTable;
use std::alloc::{AllocError, Global};
use types_declared::{ExportTable, Package};
use workspace_check::seen;

/// Returns the export data that the package of a number sees of others.
pub fn seen_by(
    alloc: Global,
    workspace: &FaultlessWorkspace<'_>,
    number: usize,
) -> Result<ExportTable, AllocError>
    requires { number < length (package_paths workspace.now.graph) }
    ensures { IfOk result (IsSeenBy workspace.now.graph (known_in workspace.now.findings) number) }
{
    seen(
        alloc,
        workspace.graph,
        number,
        &workspace.findings.export_table,
    )
}

/// Returns for each package, by number, the export data that it sees of others.
pub fn all_seen(
    alloc: Global,
    workspace: &FaultlessWorkspace<'_>,
) -> Result<Vec<ExportTable>, AllocError>
    ensures { IfOk result (λ all. AreAllSeen workspace.now.graph (known_in workspace.now.findings) all.items) }
{
    let mut all = Vec::new(alloc);
    for number in 0..workspace.len() {
        all.push(seen_by(alloc, workspace, number)?)?;
    }
    Ok(all)
}

/// Returns the table of the package of a number, by what this package sees.
pub fn read_table<'a>(
    alloc: Global,
    workspace: &FaultlessWorkspace<'a>,
    seen: &'a ExportTable,
    number: usize,
) -> Result<ScopeTable<'a>, AllocError>
    requires in_range { number < length (package_paths workspace.now.graph) }
    requires seen { IsSeenBy workspace.now.graph (known_in workspace.now.findings) number seen.now }
    ensures { IfOk result (λ table. IsTableAs workspace.now.graph (known_in workspace.now.findings) number table seen.now) }
{
    let files = trees(workspace, number);
    laid_table(alloc, files, seen)
}

/// Returns the table of the package of a number, by what each package sees.
fn table_of<'a>(
    alloc: Global,
    workspace: &FaultlessWorkspace<'a>,
    all: &'a [ExportTable],
    number: usize,
) -> Result<ScopeTable<'a>, AllocError>
    requires in_range { number < length (package_paths workspace.now.graph) }
    requires seen { AreAllSeen workspace.now.graph (known_in workspace.now.findings) all.now }
    ensures { IfOk result (IsTableOf workspace.now.graph (known_in workspace.now.findings) all.now number) }
{
    read_table(alloc, workspace, &all[number], number)
}

/// Returns the tables of all packages, by number.
fn all_tables<'a>(
    alloc: Global,
    workspace: &FaultlessWorkspace<'a>,
    all: &'a [ExportTable],
) -> Result<Vec<ScopeTable<'a>>, AllocError>
    requires { AreAllSeen workspace.now.graph (known_in workspace.now.findings) all.now }
    ensures { IfOk result (λ tables. HoldsOfEach (IsTableOf workspace.now.graph (known_in workspace.now.findings) all.now) (length (package_paths workspace.now.graph)) tables.items) }
{
    let mut tables = Vec::new(alloc);
    for number in 0..workspace.len() {
        tables.push(table_of(alloc, workspace, all, number)?)?;
    }
    Ok(tables)
}

/// The packages of a workspace without faults: for each its table, and what it sees of others. In a table an import without a name declares
/// the name of the imported package.
#[derive(Drop)]
pub struct Packages<'a> {
    pub workspace: &'a FaultlessWorkspace<'a>,
    pub seen: &'a [ExportTable],
    pub tables: Vec<ScopeTable<'a>>,
}

impl<'a> Packages<'a> {
    /// Reads all packages, by what each of them sees.
    pub fn of(
        alloc: Global,
        workspace: &'a FaultlessWorkspace<'a>,
        seen: &'a [ExportTable],
    ) -> Result<Packages<'a>, AllocError>
        requires { AreAllSeen workspace.now.graph (known_in workspace.now.findings) seen.now }
        ensures workspace { IfOk result (λ packages. packages.workspace.now ≡ workspace.now) }
        ensures read { IfOk result (λ packages. ArePackagesRead packages) }
    {
        let tables = all_tables(alloc, workspace, seen)?;
        Ok(Packages {
            workspace,
            seen,
            tables,
        })
    }

    /// Returns the package of a number.
    pub fn unit(&self, number: usize) -> Package<'_>
        requires in_range { number < length (package_paths self.now.workspace.now.graph) }
        requires read { ArePackagesRead self.now }
        ensures { IsPackageAt self.now.workspace.now.graph (known_in self.now.workspace.now.findings) number (package_of result) }
    {
        let path = path_of(self.workspace, number);
        let table = &self.tables[number];
        let export_table = &self.seen[number];
        Package {
            path,
            files: table.files(),
            table,
            export_table,
        }
    }
}
