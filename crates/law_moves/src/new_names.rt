//! Laws of imports that get one new name at once.
ghost use Rattle.law_moves.specs.OneNewName.{ImportsCapture, ImportsKeepAt, ImportsKeepBindings, ImportsLose};

/// What the renames of single imports keep, capture or lose, they do so at once.
pub fn imports_are_renamed_at_once()
    ensures keep { ImportsKeepAt }
    ensures same { ImportsKeepBindings }
    ensures capture { ImportsCapture }
    ensures lose { ImportsLose }
{}
