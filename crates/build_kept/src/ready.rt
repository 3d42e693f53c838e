//! Units with new names of declarations in their objects.
ghost use Rattle.std.specs.Prelude.{◌≡◌, ◌↔◌, IfOk, IsTrue};
ghost use Rattle.base_files.specs.Workspace.{Workspace};
ghost use Rattle.build_unit.specs.Units.{IsUnitOf};
ghost use Rattle.build_kept.specs.KnownUnits.{DeclaresChanged, IsKnownUnit, text_with_names};

use base_files::FileText;
use build_names::{GivenName, text_with_name};
use build_unit::{Compiled, SharedPath, Unit, done_unit};
use std::alloc::{AllocError, Global};

/// Whether the name is given to a declaration of the package at the path.
fn is_given_in(given: &GivenName, path: &[u8]) -> bool
    ensures { IsTrue result ↔ (given.now.path ≡ path.now) }
{
    given.path() == path
}

/// Whether the package at the path declares what one of the names is given to.
pub(crate) fn declares_one(names: &[GivenName], path: &[u8]) -> bool
    ensures { IsTrue result ↔ DeclaresChanged names.now path.now }
{
    for given in names {
        if is_given_in(given, path) {
            return true;
        }
    }
    false
}

/// The text with all the new names, given one after the other.
fn text_with_names(alloc: Global, text: &[u8], names: &[GivenName]) -> Result<Vec<u8>, AllocError>
    ensures { IfOk result (λ renamed. renamed.items ≡ text_with_names names.now text.now) }
{
    let mut renamed = text.to_vec(alloc)?;
    for given in names {
        renamed = text_with_name(alloc, &renamed, given)?;
    }
    Ok(renamed)
}

/// The unit with these names in its object. Without names it is shared.
pub(crate) fn unit_with_names(
    alloc: Global,
    unit: &Unit,
    path: &[u8],
    names: &[GivenName],
) -> Result<Unit, AllocError>
    ensures { IfOk result (λ made. (w : Workspace) → IsKnownUnit w names.now path.now unit.now → IsUnitOf w path.now made) }
{
    if names.is_empty() {
        return unit.clone();
    }
    match unit.compiled() {
        Compiled::Faults { .. } => unit.clone(),
        Compiled::Done {
            export_data,
            object,
        } => {
            let text = text_with_names(alloc, object.bytes(), names)?;
            let renamed = FileText::new(alloc, text)?;
            let shared = SharedPath::new(alloc, path)?;
            done_unit(alloc, &shared, export_data, renamed)
        }
    }
}
