//! The laws of two revisions, one after the other.
ghost use Rattle.law_renumbered.specs.TwoRevisions.{RevisionsInTurnPreserve, SecondRevisionsPreserve};

/// Two revisions that preserve bindings do so together, where the first one moves identifiers to identifiers.
pub fn revisions_in_turn_preserve()
    ensures { RevisionsInTurnPreserve }
{}

/// Where the first one and both together preserve bindings, the second one does, if it keeps what the first one has added.
pub fn second_revisions_preserve()
    ensures { SecondRevisionsPreserve }
{}
