//! Laws of renames: identifiers judged one by one agree with the edited workspace.
ghost use Rattle.law_agreement.specs.Agreement.{AgreementTellsConflicts, CheckedNoneLostPreserves, HalvesAgree};
ghost use Rattle.law_agreement.specs.ConflictsByTables.{HasOneAnswer, OwnConflictsAreTold};

/// Where the same types implement the same interfaces, two halves give that no identifier is lost or captured exactly where bindings are
/// preserved. The first half alone gives that a rename which does not preserve bindings has a first conflict.
pub fn halves_agree()
    ensures told { AgreementTellsConflicts }
    ensures agree { HalvesAgree }
{}

/// A rename in which no import gains a name, and which is harmless, preserves bindings. The edited workspace is one that has verdicts.
pub fn none_lost_preserves()
    ensures { CheckedNoneLostPreserves }
{}

/// What a plain rename does to an identifier that the scopes of the declaring package bind is told by the old names.
pub fn own_conflicts_are_told()
    ensures { OwnConflictsAreTold }
{}

/// A rename has one first conflict at most.
pub fn one_first_conflict_is_told()
    ensures { HasOneAnswer }
{}
