//! Makes the unit of a package.
ghost use Rattle.std.specs.Prelude.{◌≡◌, ℕ, [], Some, slice_get, IfOk};
ghost use Rattle.base_files.specs.Packages.{package_paths};
ghost use Rattle.base_files.specs.Workspace.{Workspace};
ghost use Rattle.types_expr.specs.WorldView.{known_at};
ghost use Rattle.types_declared.specs.ExportTablesView.{export_data_in};
ghost use Rattle.workspace_check.specs.Found.{IsFindingWith, KnowsVerdicts};
ghost use Rattle.workspace_check.specs.KnownFindings.{verdicts_by, AreNamedEntries};
ghost use Rattle.build_unit.specs.Compiling.{HasExactly, HoldsFaults, IsFaultlessPackage, IsMadeUnit, IsMadeUnitIn, IsPackageToBuild, MayBeText};
ghost use Rattle.build_unit.specs.Units.{IsCompiled, IsUnitOf};

use crate::checked_text::text_if_faultless;
use crate::known_text::object_of;
use crate::package_at::PackageAt;
use crate::unit::{Compiled, Unit};
use base_files::FileText;
use std::alloc::{AllocError, Global};
use types_declared::{ExportTable, KnownExportData};
use types_expr::symbol::SharedPath;
use workspace_check::{FileFault, Finding, FoundPackage, Known, KnownVerdict, Progress, seen};
use workspace_graph::Graph;

/// The export data of one package, in a table of its own that knows no other path.
fn export_data_of(
    alloc: Global,
    path: &SharedPath,
    known: &KnownExportData,
) -> Result<ExportTable, AllocError>
    ensures { IfOk result (HasExactly path.now known.now) }
{
    let mut one = ExportTable::new(alloc);
    let path = path.clone()?;
    one.share_known(path, known)?;
    Ok(one)
}

/// Makes the unit of a package with this object and its export data in `all`.
pub fn done_unit(
    alloc: Global,
    path: &SharedPath,
    all: &ExportTable,
    object: FileText,
) -> Result<Unit, AllocError>
    ensures { IfOk result (λ unit. (w : Workspace) → IsCompiled w path.now (export_data_in all.now path.now) object → IsUnitOf w path.now unit) }
{
    let known = all.known(path.path())?;
    let export_data = export_data_of(alloc, path, &known)?;
    Unit::new(
        alloc,
        Compiled::Done {
            export_data,
            object,
        },
    )
}

/// Makes the unit of a package without faults whose object is not yet printed.
fn faultless_unit(
    alloc: Global,
    at: PackageAt<'_>,
    path: &SharedPath,
    all: &ExportTable,
    found: &Finding,
) -> Result<Unit, AllocError>
    requires at { IsPackageToBuild at path.now }
    requires whole { AreNamedEntries all.now }
    requires found { IsFaultlessPackage at.graph.now (verdicts_by all.now) (known_at all.now.definitions path.now) path.now found.now }
    ensures { IfOk result (IsUnitOf at.entry.graph.now path.now) }
{
    let export_table = seen(alloc, at.graph, at.number, all)?;
    let own = all.definitions().export_data(path.path());
    let object = object_of(alloc, at, path, &export_table, own, found)?;
    done_unit(alloc, path, all, object)
}

/// Makes the unit of a package with these faults, at least one.
fn faulty_unit(alloc: Global, faults: Vec<FileFault>) -> Result<Unit, AllocError>
    requires { faults.items ≡ [] → ⊥ }
    ensures { IfOk result (HoldsFaults faults.items) }
{
    let mut others = faults;
    let first = others.remove(0);
    Unit::new(alloc, Compiled::Faults { first, others })
}

/// Copies a list of faults.
fn copied(alloc: Global, faults: &[FileFault]) -> Result<Vec<FileFault>, AllocError>
    ensures { IfOk result (λ copies. copies.items ≡ faults.now) }
{
    let mut copies = Vec::new(alloc);
    for fault in faults {
        copies.push(fault.clone()?)?;
    }
    Ok(copies)
}

/// A unit, and the verdicts that were found when it was made.
#[derive(Drop)]
pub(crate) struct MadeUnit {
    pub(crate) unit: Unit,
    pub(crate) found: Vec<KnownVerdict>,
}

/// Makes the unit of a package with copies of these faults, at least one.
fn copied_unit(alloc: Global, faults: &[FileFault]) -> Result<Unit, AllocError>
    requires { faults.now ≡ [] → ⊥ }
    ensures { IfOk result (HoldsFaults faults.now) }
{
    let faults = copied(alloc, faults)?;
    faulty_unit(alloc, faults)
}

/// Makes the unit of a package by what was found in it and in the packages that it builds on. `text` is the text of its object, if it is
/// printed already.
fn unit_by(
    alloc: Global,
    at: PackageAt<'_>,
    path: &SharedPath,
    finding: &Finding,
    all: &ExportTable,
    text: Option<FileText>,
) -> Result<Unit, AllocError>
    requires at { IsPackageToBuild at path.now }
    requires found { IsFindingWith at.graph.now path.now all.now finding.now }
    requires text { MayBeText at.graph.now path.now text }
    ensures { IfOk result (IsUnitOf at.entry.graph.now path.now) }
{
    if !finding.faults.is_empty() {
        return copied_unit(alloc, &finding.faults);
    }
    match text {
        Some(object) => done_unit(alloc, path, all, object),
        None => faultless_unit(alloc, at, path, all, finding),
    }
}

/// Makes the unit of a package. Known verdicts are not found again, and what checking found serves to print the object.
pub(crate) fn unit_of(
    alloc: Global,
    at: PackageAt<'_>,
    path: &SharedPath,
) -> Result<MadeUnit, AllocError>
    requires { IsPackageToBuild at path.now }
    ensures { IfOk result (IsMadeUnit at.entry.graph.now path.now) }
{
    let mut progress = Progress::before(alloc, at.graph, at.number, at.closure, at.known)?;
    let text = text_if_faultless(alloc, at, path, &mut progress)?;
    let FoundPackage {
        finding,
        export_table,
        found,
    } = progress.finish(alloc, at.graph, at.number, at.known)?;
    let unit = unit_by(alloc, at, path, finding.get(), &export_table, text)?;
    Ok(MadeUnit { unit, found })
}

/// Makes an empty unit for a path that is no package.
fn no_unit(alloc: Global) -> Result<MadeUnit, AllocError>
    ensures { IfOk result (λ made. made.found.items ≡ []) }
{
    let export_data = ExportTable::new(alloc);
    let object = FileText::new(alloc, Vec::new(alloc))?;
    let unit = Unit::new(
        alloc,
        Compiled::Done {
            export_data,
            object,
        },
    )?;
    let found = Vec::new(alloc);
    Ok(MadeUnit { unit, found })
}

/// Makes the unit of the package `number`, whose closure it searches for.
fn unit_at(
    alloc: Global,
    graph: &Graph,
    number: usize,
    path: &SharedPath,
    known: &Known,
) -> Result<MadeUnit, AllocError>
    requires at { slice_get (package_paths graph.now) number ≡ Some path.now }
    requires known { KnowsVerdicts graph.now known.now }
    ensures { IfOk result (IsMadeUnit graph.now path.now) }
{
    let closure = graph.closure(alloc, number)?;
    let at = PackageAt {
        graph,
        number,
        closure: closure.as_slice(),
        known,
    };
    unit_of(alloc, at, path)
}

/// Makes the unit of the package at `path`, if the graph has it, by the known verdicts.
pub(crate) fn unit_in(
    alloc: Global,
    graph: &Graph,
    path: &SharedPath,
    known: &Known,
) -> Result<MadeUnit, AllocError>
    requires { KnowsVerdicts graph.now known.now }
    ensures { IfOk result (IsMadeUnitIn graph.now path.now) }
{
    match graph.number_of(path.path()) {
        Some(number) => unit_at(alloc, graph, number, path, known),
        None => no_unit(alloc),
    }
}
