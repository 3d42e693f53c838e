//! Prints the object of a package on which a verdict is known, if the package has no fault.
ghost use Rattle.std.specs.Prelude.{◌≡◌, ℕ, option_copied, slice_get, IfOk};
ghost use Rattle.types_expr.specs.WorldView.{definitions_listed, ranked};
ghost use Rattle.types_declared.specs.ExportTablesView.{export_data_known};
ghost use Rattle.workspace_check.specs.Steps.{SeesExactly, IsProgress};
ghost use Rattle.workspace_check.specs.KnownFindings.{IsKnownVerdict};
ghost use Rattle.build_unit.specs.Compiling.{IsFaultlessBySeen, IsPackageToBuild, MayBeText};
ghost use Rattle.build_unit.specs.Units.{IsCompiled};

use crate::naming::names_below;
use crate::package_at::PackageAt;
use base_files::FileText;
use build_object::objects::{Faultless, object};
use std::alloc::{AllocError, Global};
use types_declared::{ExportData, ExportTable};
use types_expr::symbol::SharedPath;
use types_expr::world::Definition;
use workspace_check::{Finding, KnownVerdict, Progress};

/// The type definitions of export data, by their ranks, and none where there is no export data.
fn definitions_of(own: Option<&ExportData>) -> &[Definition]
    ensures { (rank : ℕ) → slice_get result.now rank ≡ ranked (definitions_listed (option_copied own.entry)) rank }
{
    match own {
        None => &[],
        Some(export_data) => export_data.definitions.as_slice(),
    }
}

/// Prints the object of a package without faults, by what checking found. `seen` has exactly what it sees of other packages, and `own` is its
/// own export data as far as known.
pub(crate) fn object_of(
    alloc: Global,
    at: PackageAt<'_>,
    path: &SharedPath,
    seen: &ExportTable,
    own: Option<&ExportData>,
    found: &Finding,
) -> Result<FileText, AllocError>
    requires at { IsPackageToBuild at path.now }
    requires found { IsFaultlessBySeen at.graph.now seen.now (option_copied own) path.now found.now }
    ensures { IfOk result (λ text. IsCompiled at.entry.graph.now path.now (export_data_known path.now (option_copied own.entry)) text) }
{
    let files = at.graph.package(at.number);
    let packages = names_below(alloc, at)?;
    let definitions = definitions_of(own);
    let trees = files.trees.as_slice();
    let given = Faultless {
        path,
        files: trees,
        definitions,
        members: found.members.as_slice(),
        enterings: found.enterings.as_slice(),
    };
    let text = object(alloc, given, seen, &packages)?;
    FileText::new(alloc, text)
}

/// Prints the object of a package, if it has no fault by the known verdict. `progress` has gathered what it sees of other packages.
pub(crate) fn known_text(
    alloc: Global,
    at: PackageAt<'_>,
    path: &SharedPath,
    verdict: &KnownVerdict,
    progress: &Progress,
) -> Result<Option<FileText>, AllocError>
    requires at { IsPackageToBuild at path.now }
    requires verdict { IsKnownVerdict at.graph.now path.now verdict.now }
    requires right { IsProgress at.graph.now at.number progress.now }
    requires told { SeesExactly at.graph.now path.now progress.now.all.export_table }
    ensures { IfOk result (MayBeText at.entry.graph.now path.now) }
{
    let finding = verdict.finding();
    if !finding.faults.is_empty() {
        return Ok(None);
    }
    let seen = progress.export_table();
    let own = verdict.known().get();
    let text = object_of(alloc, at, path, seen, own, finding)?;
    Ok(Some(text))
}
