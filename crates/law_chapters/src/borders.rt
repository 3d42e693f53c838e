//! The laws of runs over borders, as contracts of functions that do nothing.
ghost use Rattle.law_chapters.specs.Borders.{
  FinishedStayCurrent,
  NumbersRiseOverBorders,
  RedoRestoresOverBorders,
  RunsLeaveChapters,
  UndoRestoresOverBorders,
};

/// A run over borders leaves chapters, the last of which is the journal at its end.
pub fn runs_leave_chapters()
    ensures { RunsLeaveChapters }
{}

/// Undo and redo lead over borders as they do within a chapter.
pub fn undo_and_redo_lead_over_borders()
    ensures undo { UndoRestoresOverBorders }
    ensures redo { RedoRestoresOverBorders }
{}

/// No border makes a number come again, or a finished unit an old one.
pub fn numbers_and_units_stay_right()
    ensures numbers { NumbersRiseOverBorders }
    ensures units { FinishedStayCurrent }
{}
