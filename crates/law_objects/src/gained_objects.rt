//! Laws of the objects of packages where an import gains a name.
ghost use Rattle.law_objects.specs.KeptObjects.{GainedNamesKeepObjects, UnnamedRenamesKeepObjects};

/// Where an import gains the name that it declares already, each package keeps its object.
pub fn gained_names_keep_objects()
    ensures { GainedNamesKeepObjects }
{}

/// So where an import without a name is renamed, and bindings are preserved, each package keeps its object.
pub fn unnamed_renames_keep_objects()
    ensures { UnnamedRenamesKeepObjects }
{}
