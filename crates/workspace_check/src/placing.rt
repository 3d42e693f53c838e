//! Gives faults their places.
ghost use Rattle.std.specs.Prelude.{◌≡◌, ◌↔◌, Contains, IfOk, OnOk};
ghost use Rattle.workspace_check.specs.Steps.{IsSomePlacedFault, AddsPlaced, unread_faults};

use crate::fault::FileFault;
use base_files::Place;
use go_ast::FileTree;
use std::alloc::{AllocError, Global};
use types_declared::Fault;
use workspace_graph::FaultyFile;

/// Returns the faults of the files that have no tree, with their places.
pub(crate) fn unread_faults(
    alloc: Global,
    files: &[FaultyFile],
) -> Result<Vec<FileFault>, AllocError>
    ensures { IfOk result (λ found. found.items ≡ unread_faults files.now) }
{
    let mut found = Vec::new(alloc);
    for file in files {
        let fault = file.fault();
        let path = file.path().clone()?;
        let offset = fault.offset;
        found.push(FileFault {
            place: Place { path, offset },
            kind: fault.kind,
        })?;
    }
    Ok(found)
}

/// Adds a fault of a package with its place, if its file is among `files`.
fn add_placed(
    found: &mut Vec<FileFault>,
    files: &[FileTree],
    fault: &Fault,
) -> Result<(), AllocError>
    ensures { OnOk result (AddsPlaced files.now fault.now found.old.items found.new.items) }
{
    match files.get(fault.file) {
        None => Ok(()),
        Some(file) => {
            let path = file.path().clone()?;
            let offset = file.offset(fault.token);
            found.push(FileFault {
                place: Place { path, offset },
                kind: fault.kind,
            })?;
            Ok(())
        }
    }
}

/// Returns the faults of a package with their places.
pub(crate) fn placed_faults(
    alloc: Global,
    files: &[FileTree],
    faults: &[Fault],
) -> Result<Vec<FileFault>, AllocError>
    ensures { IfOk result (λ found. (f : FileFault) → Contains found.items f ↔ IsSomePlacedFault files.now faults.now f) }
{
    let mut found = Vec::new(alloc);
    for fault in faults {
        add_placed(&mut found, files, fault)?;
    }
    Ok(found)
}
