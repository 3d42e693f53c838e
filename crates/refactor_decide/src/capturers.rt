//! How a conflict names the declaration of a number of a package: by its place.
ghost use Rattle.std.specs.Prelude.{IfOk};
ghost use Rattle.refs_binding.specs.DeclaringPlaces.{HasDeclarationAt};
ghost use Rattle.refs_binding.specs.declared.declaration.Declaration.TheVariants.{Declared};
ghost use Rattle.refs_places.specs.DeclaredPlaces.{IsChoice};
ghost use Rattle.types_declared.specs.PackageView.{package_of};
ghost use Rattle.refactor_decide.specs.Capturers.{CountsIfAny, IsCounting, NamesEach, NamesInPackage};

use base_files::Place;
use go_scope::identifiers::PREDECLARED;
use refactor_conflict::Capturer;
use refs_places::place_of;
use std::alloc::AllocError;
use types_declared::{Package, literal_of};

/// Where the declaration of a number of a package is declared, or `None` where it is predeclared. An import is at its string literal.
fn declaring_place(unit: Package<'_>, c: usize) -> Result<Option<Place>, AllocError>
    requires { IsCounting (package_of unit) c }
    ensures { let p = package_of unit.entry in
        IfOk result (IsChoice (HasDeclarationAt p (Declared p.path c))) }
{
    if c < PREDECLARED {
        return Ok(None);
    }
    place_of(unit.files, unit.table.place(literal_of(unit.table, c)))
}

/// The capturer that names the declaration of a number.
fn capturer(unit: Package<'_>, c: usize) -> Result<Capturer, AllocError>
    requires { IsCounting (package_of unit) c }
    ensures { IfOk result (NamesInPackage (package_of unit.entry) c) }
{
    match declaring_place(unit, c)? {
        None => Ok(Capturer::Universe),
        Some(place) => Ok(Capturer::At(place)),
    }
}

/// The capturer that names the declaration of a number, if there is one.
pub(crate) fn capturer_if(
    unit: Package<'_>,
    by: Option<usize>,
) -> Result<Option<Capturer>, AllocError>
    requires { CountsIfAny (package_of unit) by }
    ensures { IfOk result (NamesEach (package_of unit.entry) by) }
{
    match by {
        None => Ok(None),
        Some(c) => Ok(Some(capturer(unit, c)?)),
    }
}
