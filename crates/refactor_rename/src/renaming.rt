//! The edit set that gives a declaration another name.
ghost use Rattle.std.specs.Prelude.{◌≡◌, Some, IfOk};
ghost use Rattle.std.specs.List.Sorted.{IsStrictlySortedBy};
ghost use Rattle.base_edits.specs.Fits.{Fits};
ghost use Rattle.types_declared.specs.PackageView.{package_of};
ghost use Rattle.refs_binding.specs.Indexed.{IsPackageNumber, IsPackageNumbered, IsIndexed};
ghost use Rattle.refs_binding.specs.Places.{place_cmp};
ghost use Rattle.refs_binding.specs.Workspaces.{home_path, known_in};
ghost use Rattle.refactor_rename.specs.RenameEdits.{IsRenamedBy, AreEditsOf, AreRenameEdits};

use crate::changes::changes_of;
use crate::literal::literal_of;
use crate::renamed::Renamed;
use base_edits::EditSet;
use base_files::FileText;
use refs_binding::indexed::{Indexed, Numbered};
use refs_binding::{Declaration, FaultlessWorkspace};
use refs_uses::list_uses_of_each;
use std::alloc::{AllocError, Global};

/// What gets a name: a declaration, and all that is renamed with it. That is the declaration alone, but where it is a method that an interface
/// asks for: then `set` has the methods that are coupled with it too.
#[derive(Clone, Copy)]
pub struct Renaming<'a> {
    pub declaration: &'a Declaration,
    pub set: &'a [Declaration],
    pub name: &'a [u8],
}

/// A file text of these bytes.
fn text_of(alloc: Global, bytes: &[u8]) -> Result<FileText, AllocError>
    ensures { IfOk result (λ text. text ≡ bytes.now) }
{
    FileText::new(alloc, Vec::from_slice(alloc, bytes)?)
}

/// What gets the new name: the identifiers that are bound to what is renamed, and the literal of an import without a name.
fn renamed_by(
    alloc: Global,
    at: Numbered<'_>,
    of: &Indexed<'_>,
    renaming: &Renaming<'_>,
) -> Result<Renamed, AllocError>
    requires numbered { IsPackageNumber at }
    requires unit { IsPackageNumbered at (package_of of.now.unit) }
    requires indexed { IsIndexed of.now }
    requires home { home_path renaming.now.declaration.now ≡ Some (package_of of.now.unit).path }
    ensures { IfOk result (IsRenamedBy at.entry.workspace.now.graph (known_in at.entry.workspace.now.findings) renaming.now.declaration.now renaming.now.set.now renaming.now.name.now) }
{
    Ok(Renamed {
        places: list_uses_of_each(alloc, at, of, renaming.set)?,
        literal: literal_of(at, of.unit, renaming.declaration)?,
        name: text_of(alloc, renaming.name)?,
    })
}

/// The edit set of a rename, over all files.
fn edits_by(
    alloc: Global,
    workspace: &FaultlessWorkspace<'_>,
    renamed: &Renamed,
) -> Result<EditSet, AllocError>
    requires { IsStrictlySortedBy place_cmp renamed.now.places }
    ensures edits { IfOk result (AreEditsOf workspace.now.graph (known_in workspace.now.findings) renamed.now) }
    ensures fits { IfOk result (λ edits. Fits edits workspace.now.graph) }
{
    let changed = changes_of(alloc, workspace, renamed)?;
    let added = Vec::new(alloc);
    let edits = EditSet::new(changed, added);
    Ok(edits)
}

/// The edits of a renaming of a declaration of a package, at each identifier that is bound to what is renamed. The package is given, and not
/// read again. The workspace has no fault.
pub fn rename_edits(
    alloc: Global,
    at: Numbered<'_>,
    of: &Indexed<'_>,
    renaming: &Renaming<'_>,
) -> Result<EditSet, AllocError>
    requires numbered { IsPackageNumber at }
    requires unit { IsPackageNumbered at (package_of of.now.unit) }
    requires indexed { IsIndexed of.now }
    requires home { home_path renaming.now.declaration.now ≡ Some (package_of of.now.unit).path }
    ensures edits { IfOk result (AreRenameEdits at.entry.workspace.now.graph (known_in at.entry.workspace.now.findings) renaming.now.declaration.now renaming.now.set.now renaming.now.name.now) }
    ensures fits { IfOk result (λ edits. Fits edits at.entry.workspace.now.graph) }
{
    let renamed = renamed_by(alloc, at, of, renaming)?;
    edits_by(alloc, at.workspace, &renamed)
}
