//! The names with which the units of all packages are carried over a planned rename.
ghost use Rattle.std.specs.Prelude.{◌≡◌, [], ◌∷◌, IfErr, IfNone, IfOk, IfSome};
ghost use Rattle.workspace_check.specs.Found.{IsFound};
ghost use Rattle.build_names.specs.Words.{NameChange};
ghost use Rattle.refactor_units.specs.CarriedNames.{CarriesPlanned, CarriesRename, HasCarriedName, RefusesCarried};
ghost use Rattle.refactor_units.specs.LevelNames.{IsLevelAt};

use crate::level::level_name_at;
use crate::local::names_local;
use base_files::{Path, Refusal};
use build_names::GivenName;
use refs_binding::{FaultlessWorkspace, refuse_faults};
use std::alloc::{AllocError, Global};
use workspace_check::Found;
use workspace_snapshot::Snapshot;

/// One name.
fn one_name(alloc: Global, given: GivenName) -> Result<Vec<GivenName>, AllocError>
    ensures { IfOk result (λ names. names.items ≡ given ∷ []) }
{
    let mut names = Vec::new(alloc);
    names.push(given)?;
    Ok(names)
}

/// The name that objects get where the identifier at a byte gets this name: one where it is bound to a package-level declaration of a
/// workspace without faults. `None` for any other.
fn names_level(
    alloc: Global,
    workspace: &FaultlessWorkspace<'_>,
    path: &Path,
    offset: usize,
    name: &str,
) -> Result<Option<Vec<GivenName>>, AllocError>
    ensures carries { IfOk result (λ names. IfSome names (λ given. CarriesRename workspace.now.graph path.now offset name.now given.items)) }
    ensures finds { IfOk result (λ names. IfNone names ((c : NameChange) → IsLevelAt workspace.now.graph path.now offset name.now c → ⊥)) }
{
    workspace.has_no_faults();
    match level_name_at(alloc, workspace, path, offset, name)? {
        None => Ok(None),
        Some(given) => Ok(Some(one_name(alloc, given)?)),
    }
}

/// The names that objects get where the identifier at a byte of a workspace without faults gets this name: none where it is bound to a local
/// declaration, and one where it is bound to a package-level one. `None` for any other.
fn names_carried(
    alloc: Global,
    workspace: &FaultlessWorkspace<'_>,
    path: &Path,
    offset: usize,
    name: &str,
) -> Result<Option<Vec<GivenName>>, AllocError>
    ensures carries { IfOk result (λ names. IfSome names (λ given. CarriesRename workspace.now.graph path.now offset name.now given.items)) }
    ensures finds { IfOk result (λ names. IfNone names (HasCarriedName workspace.now.graph path.now offset name.now → ⊥)) }
{
    workspace.has_no_faults();
    if names_local(alloc, workspace, path, offset)? {
        return Ok(Some(Vec::new(alloc)));
    }
    names_level(alloc, workspace, path, offset, name)
}

/// The names that known units get behind the planned rename of the identifier at a byte to `name`. `None` where no names are known with which
/// units are carried over.
pub fn carried_names(
    alloc: Global,
    snapshot: &Snapshot,
    found: &Found,
    path: &str,
    offset: usize,
    name: &str,
) -> Result<Option<Vec<GivenName>>, Refusal>
    requires { IsFound snapshot.now.files found.now }
    ensures carries { IfOk result (λ names. IfSome names (λ given. CarriesPlanned snapshot.now path.now offset name.now given.items)) }
    ensures finds { IfOk result (λ names. IfNone names (HasCarriedName snapshot.now.files path.now offset name.now → ⊥)) }
    ensures refuses { IfErr result (RefusesCarried snapshot.now.files path.now) }
{
    let path = Path::read(alloc, path, 2)?;
    match refuse_faults(alloc, &snapshot.files, &found.findings) {
        Err(refusal) => Err(refusal),
        Ok(workspace) => Ok(names_carried(alloc, &workspace, &path, offset, name)?),
    }
}
