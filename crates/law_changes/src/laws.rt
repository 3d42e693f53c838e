//! The laws of changes, as contracts of functions that do nothing.
ghost use Rattle.law_changes.specs.Changes.{ChangesGoOn, ChangesGoOnOverBorders, NoChangesAtFirst, SameChangesSameStates};

/// Two histories with the same changes have the same states.
pub fn same_changes_same_states()
    ensures { SameChangesSameStates }
{}

/// A history has no changes at first. It gains the change that an answered event is, and none where its journal is closed.
pub fn changes_go_on()
    ensures none { NoChangesAtFirst }
    ensures event { ChangesGoOn }
    ensures border { ChangesGoOnOverBorders }
{}
