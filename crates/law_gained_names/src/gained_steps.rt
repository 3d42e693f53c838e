//! The law of an import that gains, by inserted bytes, the name that it declares already.
ghost use Rattle.law_gained_names.specs.GainedStep.{GainedNamesAreSteps, OwnNamesAreSteps};

/// The insertion is a first step. It keeps all bindings and moves identifiers to identifiers, and the verdicts stay right.
pub fn gained_names_are_steps()
    ensures steps { GainedNamesAreSteps }
    ensures own { OwnNamesAreSteps }
{}
