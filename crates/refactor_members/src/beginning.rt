//! Where the identifier at the token of a member begins.
ghost use Rattle.types_declared.specs.PackageView.{package_of, IsIndexOf};
ghost use Rattle.std.specs.Prelude.{IfOk};
ghost use Rattle.refs_binding.specs.Steps.{AtFound, AtToken};
ghost use Rattle.refs_places.specs.DeclaredPlaces.{IsChoice};

use base_files::Place;
use go_scope::model::Position;
use refs_places::name_beginning;
use std::alloc::AllocError;
use types_declared::{Index, Package};

/// The place at which the identifier at a token begins, or `None` where the token is no identifier that the index has.
fn token_beginning(
    unit: Package<'_>,
    index: &Index<'_>,
    at: Position,
) -> Result<Option<Place>, AllocError>
    requires { IsIndexOf (package_of unit) index.now }
    ensures { IfOk result (IsChoice (AtToken (package_of unit.entry) at)) }
{
    match index.identifiers.get(at) {
        None => Ok(None),
        Some(_) => name_beginning(unit.files, at),
    }
}

/// The place at which the identifier at a token begins, if a token was found.
pub(crate) fn found_beginning(
    unit: Package<'_>,
    index: &Index<'_>,
    at: Option<Position>,
) -> Result<Option<Place>, AllocError>
    requires { IsIndexOf (package_of unit) index.now }
    ensures { IfOk result (IsChoice (AtFound (package_of unit.entry) at)) }
{
    match at {
        None => Ok(None),
        Some(at) => token_beginning(unit, index, at),
    }
}
