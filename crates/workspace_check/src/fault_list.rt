//! The fault list of a workspace.
ghost use Rattle.std.specs.Prelude.{◌≡◌, ◌++◌, IfOk, OnOk};
ghost use Rattle.std.specs.List.{flat_map};
ghost use Rattle.base_files.specs.Workspace.{Workspace};
ghost use Rattle.workspace_check.specs.FaultLists.{ListsFaults};
ghost use Rattle.workspace_check.specs.Found.{AreFindings};

use crate::fault::{FileFault, sort};
use crate::finding::SharedFinding;
use crate::findings::Findings;
use std::alloc::{AllocError, Global};

/// Adds copies of `faults` at the end of `found`.
fn add_all(found: &mut Vec<FileFault>, faults: &[FileFault]) -> Result<(), AllocError>
    ensures { OnOk result (found.new.items ≡ found.old.items ++ faults.now) }
{
    for fault in faults {
        found.push(fault.clone()?)?;
    }
    Ok(())
}

/// Returns the faults of the packages, concatenated.
fn all_faults(alloc: Global, packages: &[SharedFinding]) -> Result<Vec<FileFault>, AllocError>
    ensures { IfOk result (λ found. found.items ≡ flat_map (λ f. f.faults.items) packages.now) }
{
    let mut found = Vec::new(alloc);
    for finding in packages {
        add_all(&mut found, &finding.get().faults)?;
    }
    Ok(found)
}

/// Returns the fault list of a workspace, sorted by package, path, offset and kind, without duplicates.
pub fn faults(alloc: Global, found: &Findings) -> Result<Vec<FileFault>, AllocError>
    ensures { IfOk result (λ list. (w : Workspace) → AreFindings w found.now → ListsFaults w list.items) }
{
    let mut list = all_faults(alloc, &found.packages)?;
    sort(&mut list);
    Ok(list)
}
