//! What is renamed with a declaration.
ghost use Rattle.law_implementing.specs.Sets.{OthersAreAlone, SetsAreCalledAlike};

/// What is renamed with a method has its name.
pub fn sets_are_called_alike()
    ensures { SetsAreCalledAlike }
{}

/// A declaration for which no interface asks is renamed alone.
pub fn others_are_alone()
    ensures { OthersAreAlone }
{}
