//! The laws of units.
ghost use Rattle.build_unit.specs.Laws.{AreLocalUnits, HaveOneUnit};

/// A unit depends on its closure alone. Where the closure of a package has the same texts in two workspaces, the package has one unit in
/// both.
pub fn units_are_local()
    ensures { AreLocalUnits }
{}

/// A package has at most one unit in a workspace, by its faults, or its export data and object.
pub fn units_are_unique()
    ensures { HaveOneUnit }
{}
