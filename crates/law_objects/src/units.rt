//! The law of units after a plain rename that preserves bindings.
ghost use Rattle.law_objects.specs.KeptUnits.{UnprintedRenamesKeepUnits};

/// A package keeps its unit where what is renamed prints no name, and others see nothing of the rename.
pub fn unprinted_renames_keep_units()
    ensures { UnprintedRenamesKeepUnits }
{}
