//! Laws of renames of declarations of scopes.
ghost use Rattle.law_agreement.specs.Behind.{ConflictsBehindAreTold, NamesBehindStay, OtherNamesBehindStay};
ghost use Rattle.law_agreement.specs.Others.{OtherScopesKeep};
ghost use Rattle.law_agreement.specs.ScopeConflicts.{NoConflictStays, OwnConflictsAreConflicts, ConflictsBehindAreConflicts};
ghost use Rattle.law_agreement.specs.ScopeConflicts.{FirstConflictsAreTold, LocalRenamesTurnNoneBehind};

/// Identifiers that scopes of other packages bind stay bound.
pub fn scope_renames_keep_other_scopes()
    ensures { OtherScopesKeep }
{}

/// The old names tell which identifiers behind the package's name are lost or captured. All others that are behind a package's name stay.
pub fn conflicts_behind_are_told()
    ensures told { ConflictsBehindAreTold }
    ensures others { OtherNamesBehindStay }
    ensures stay { NamesBehindStay }
    ensures local { LocalRenamesTurnNoneBehind }
{}

/// Where the old names tell no conflict at a place, all stays there. Each conflict that they tell is one of the change.
pub fn scope_conflicts_are_told()
    ensures stays { NoConflictStays }
    ensures own { OwnConflictsAreConflicts }
    ensures behind { ConflictsBehindAreConflicts }
{}

/// The earlier one of the first conflict of the package's scopes and the first one behind the package's name is the first of the change.
pub fn first_conflicts_are_told()
    ensures { FirstConflictsAreTold }
{}
