//! The laws of the units of packages after a plain rename.
ghost use Rattle.law_objects.specs.CarriedUnits.{GlobalRenamesCarryUnits, LegibleGlobalRenamesCarryUnits, LocalRenamesCarryUnits};

/// Where other packages see nothing of what is renamed, and no object prints its name, each package keeps its unit.
pub fn local_renames_carry_units()
    ensures { LocalRenamesCarryUnits }
{}

/// Where a package-level declaration is renamed, each other package keeps its unit, with the new name in its object. So it is where the names in
/// objects are legible.
pub fn legible_global_renames_carry_units()
    ensures { LegibleGlobalRenamesCarryUnits }
{}

/// So it is in each workspace without faults where the paths of packages are legible.
pub fn global_renames_carry_units()
    ensures { GlobalRenamesCarryUnits }
{}
