//! Laws of plain renames: the conflicts of identifiers, judged one by one, decide whether bindings are preserved.
ghost use Rattle.law_agreement.specs.Agreement.{PlainPreservedLosesNone};
ghost use Rattle.law_agreement.specs.PlainAgreement.{ConflictsRefuse, PlainConflictsAreTold, PlainRenamesAgree, ScopeRenamesAgree};

/// A plain rename that preserves bindings and implementing types loses and captures no identifier.
pub fn preserved_loses_none()
    ensures { PlainPreservedLosesNone }
{}

/// A plain rename after which the same types implement the same interfaces loses and captures no identifier exactly where it preserves
/// bindings. So does each plain rename of a declaration of scopes.
pub fn plain_renames_agree()
    ensures plain { PlainRenamesAgree }
    ensures scopes { ScopeRenamesAgree }
{}

/// A plain rename that has a conflict does not preserve bindings and implementing types.
pub fn conflicts_refuse()
    ensures { ConflictsRefuse }
{}

/// A plain rename after which the same types implement the same interfaces, and which does not preserve bindings, has a first conflict: it
/// loses or captures some identifier.
pub fn first_conflicts_are_there()
    ensures { PlainConflictsAreTold }
{}
