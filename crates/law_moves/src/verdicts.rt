//! Laws of verdicts on the edited workspace.
ghost use Rattle.law_moves.specs.MovedVerdicts.{
  FreeTargetsSwap,
  MovesHaveVerdicts,
  MovesStaySound,
  PackagesAreCheckedThere,
  PackagesStayBound,
  SameTargetsSwap,
};

/// Where packages go, they go by a map that swaps two folders.
pub fn targets_swap()
    ensures free { FreeTargetsSwap }
    ensures same { SameTargetsSwap }
{}

/// Each package is there after the move, as it is checked.
pub fn packages_are_checked_there()
    ensures { PackagesStayBound → PackagesAreCheckedThere }
{}

/// The moved verdicts are right on the edited workspace.
pub fn moves_have_verdicts()
    ensures { PackagesStayBound → MovesHaveVerdicts }
{}

/// The edited workspace has no fault.
pub fn moves_stay_sound()
    ensures { PackagesStayBound → MovesStaySound }
{}
