//! The law of the object of a package whose tokens get other numbers.
ghost use Rattle.law_objects.specs.RenumberedSources.{ObjectsRenumber};

/// Sources of code with other numbers of tokens give the same object.
pub fn renumbered_sources_give_objects()
    ensures { ObjectsRenumber }
{}
