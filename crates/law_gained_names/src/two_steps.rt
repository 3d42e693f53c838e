//! The laws of edits that put a name into a text, at once or in two steps.
ghost use Rattle.law_gained_names.specs.FilesInTwoSteps.{CallsInTwoSteps, FilesInTwoSteps, PlacesInTwoSteps, SecondStepsLieWithin, TwoStepsExist};
ghost use Rattle.law_gained_names.specs.Members.{SecondStepsAreOne};
ghost use Rattle.law_gained_names.specs.TwoSteps.{NamesInTwoSteps, OffsetsInTwoSteps, TextsInTwoSteps};

/// The text after both steps is the text after the edits at once.
pub fn texts_in_two_steps()
    ensures { TextsInTwoSteps }
{}

/// Both steps move an offset to where the edits at once move it, and name what begins there alike.
pub fn offsets_in_two_steps()
    ensures moved { OffsetsInTwoSteps }
    ensures named { NamesInTwoSteps }
{}

/// So where the name is put into a file, the files after both steps are those after the edits at once. Each place moves to the same place,
/// and what begins there has the same name.
pub fn files_in_two_steps()
    ensures files { FilesInTwoSteps }
    ensures places { PlacesInTwoSteps }
    ensures names { CallsInTwoSteps }
{}

/// Edits that begin one behind another, and that are those of the second step, are that step.
pub fn second_steps_are_one()
    ensures { SecondStepsAreOne }
{}

/// Each edit set that puts a name into a file can be made in two steps: the edits of the second one are in order, and lie in the text after
/// the first one.
pub fn two_steps_exist()
    ensures within { SecondStepsLieWithin }
    ensures exist { TwoStepsExist }
{}
