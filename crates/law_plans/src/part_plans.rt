//! Laws by which what is planned beside packages with faults is planned in the part without them.
ghost use Rattle.law_plans.specs.PlannedInPart.{MovesArePlannedInPart, RenamesArePlannedInPart};

/// A rename that is planned beside packages with faults is planned in the part without them, with the same edits. Each package of the part has
/// the same closure in the whole workspace, before the edits and after them.
pub fn renames_are_planned_in_part()
    ensures { RenamesArePlannedInPart }
{}

/// A move that is planned beside packages with faults is planned in the part without them, with the same edits. Each package of the part has
/// the same closure in the whole workspace, before the edits and after them.
pub fn moves_are_planned_in_part()
    ensures { MovesArePlannedInPart }
{}
